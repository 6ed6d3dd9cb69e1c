// Reads present.bin, wanted.bin and status.txt of the current folder and prints the plan that refills the chip with the fewest write cycles (document 02, request 6/12).
#![tactic(auto)]

use files::Unreadable;
use std::rt::Files;

// The rooms are made apart, so that of each nothing is known but its length: no proof goes through its bytes.
// One byte more than the chip has tells that a content is longer.
fn content_room() -> [u8; page::FLASH_SIZE as usize + 1] {
    [0; page::FLASH_SIZE as usize + 1]
}

fn plan_room() -> [u8; entries::ROOM] {
    [0; entries::ROOM]
}

fn run<R: Files + Print + Eprint>(rt: &R) -> Result<(), Unreadable> {
    // A file that is missing has no bytes, so it is refused.
    let mut present = content_room();
    let present = files::load(rt, "present.bin", &mut present)?.unwrap_or(&[]);
    let mut wanted = content_room();
    let wanted = files::load(rt, "wanted.bin", &mut wanted)?.unwrap_or(&[]);
    // Two digits, LF, and one byte more.
    let mut status = [0; 4];
    let status = files::load(rt, "status.txt", &mut status)?.unwrap_or(&[]);
    let mut out = plan_room();
    let n = entries::print_plan(present, wanted, status, &mut out);
    if let Err(e) = rt.write_all(&out[..n]) {
        // Where this fails nobody is left to be told.
        let _ = eprintln!(rt; "standard output: {e}");
    }
    Ok(())
}

fn main(rt: HostRuntime) {
    // A file that can't be read was reported, and nothing is printed.
    let _ = run(&rt);
}

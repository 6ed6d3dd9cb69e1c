// Reads levels.tsv and logger.tsv of the current folder and prints the merged trace (document 02, request 4/12); the line of a refusal goes to the standard error.
#![tactic(auto)]

use files::Unreadable;
use printing::Unmerged;

// Each room is made apart, so that of it nothing is known but its length: no proof goes through its bytes.
// One byte more than a text may have is enough to know that it is too long.
fn text_room() -> [u8; text::LIMIT + 1] {
    [0; text::LIMIT + 1]
}

fn merge_room() -> [u8; printing::MERGE_ROOM] {
    [0; printing::MERGE_ROOM]
}

fn run(rt: &HostRuntime) -> Result<(), Unreadable> {
    // A file that is missing has no bytes.
    let mut levels = text_room();
    let levels = files::load(rt, "levels.tsv", &mut levels)?.unwrap_or(&[]);
    let mut logger = text_room();
    let logger = files::load(rt, "logger.tsv", &mut logger)?.unwrap_or(&[]);
    let mut out = merge_room();
    match printing::print_merge(levels, logger, &mut out) {
        Ok(len) => {
            if let Err(e) = rt.write_all(&out[..len]) {
                // Where this fails nobody is left to be told.
                let _ = eprintln!(rt; "standard output: {e}");
            }
        }
        Err(Unmerged(len)) => {
            // Nor here.
            let _ = rt.stderr().write_all(&out[..len]);
        }
    }
    Ok(())
}

fn main(rt: HostRuntime) {
    // A file that can't be read was reported, and nothing is printed.
    let _ = run(&rt);
}

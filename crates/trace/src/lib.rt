// The trace of the current folder with its dumps, for the programs that print what a replay of it leaves: they differ in the printer alone.
#![tactic(auto)]

ghost use Rattle.std.specs.Prelude.{IfOk};
ghost use Rattle.trace.specs.Trace.{Called};

use files::Unreadable;
use std::rt::Files;

// Each room is made apart, so that of it nothing is known but its length: no proof goes through its bytes.
// One byte more than a text may have is enough to know that it is too long.
fn text_room() -> [u8; text::LIMIT + 1] {
    [0; text::LIMIT + 1]
}

// One byte more than an image has tells that a dump is longer.
fn flash_room() -> [u8; image::FLASH_KEPT + 1] {
    [0; image::FLASH_KEPT + 1]
}

fn eeprom_room() -> [u8; image::EEPROM_KEPT + 1] {
    [0; image::EEPROM_KEPT + 1]
}

fn out_room() -> [u8; listing::ROOM] {
    [0; listing::ROOM]
}

// Reads trace.tsv and the dumps of the current folder, and writes out what the printer puts of them into the output.
pub fn print_trace<
    R: Files + Print + Eprint,
    F: FnOnce(&[u8], Option<&[u8]>, Option<&[u8]>, &mut [u8]) -> usize,
>(rt: &R, print: F) -> Result<(), Unreadable>
    requires callable { F.IsAlwaysCallable print }
    ensures { IfOk result (λ _. Called (F.post print)) }
{
    let mut text = text_room();
    // A text that is missing has no bytes.
    let text = files::load(rt, "trace.tsv", &mut text)?.unwrap_or(&[]);
    let mut flash = flash_room();
    let flash = files::load(rt, "flash.bin", &mut flash)?;
    let mut eeprom = eeprom_room();
    let eeprom = files::load(rt, "eeprom.bin", &mut eeprom)?;
    let mut out = out_room();
    // A printer that tells more bytes than the output has has no more written out.
    let n = print(text, flash, eeprom, &mut out).min(out.len());
    if let Err(e) = rt.write_all(&out[..n]) {
        // Where this fails nobody is left to be told.
        let _ = eprintln!(rt; "standard output: {e}");
    }
    Ok(())
}

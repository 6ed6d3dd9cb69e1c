// The lines of the pages that the table tells as written (document 02, request 1/12).
ghost use Rattle.std.specs.Prelude.{◌≡◌, ◌+◌, ◌*◌, ◌≤◌, ◌<◌, ◌++◌, length};
ghost use Rattle.field.specs.Room.{room};
ghost use Rattle.times.specs.Times.{pages_of, first_entry, entries, times_length};
ghost use Rattle.listing.specs.Listing.{listing_room};
ghost use Rattle.listing.specs.Pages.{pages_heading, time_line, written_lines, time_at, times_in};
ghost use Rattle.listing.specs.Writing.{ListsLines, chip_lines};

use crate::{bytes, lines, output};
use record::Chip;

// The line of page n, if it was written, from a place of the output on; the place after it.
fn list_page(table: &[u8], chip: Chip, n: u32, out: &mut [u8], at: usize) -> usize
    requires { (length table.now ≡ times_length) × (n < pages_of chip) × (at + room ≤ length out.old) }
    ensures { ListsLines (time_line chip n (time_at table.now (first_entry chip + n))) out.old at 1 out.new result }
{
    let mark = times::ENTRY * (times::first_entry(chip) + n) as usize;
    if table[mark] == 0 {
        return at;
    }
    let line = lines::page_line(chip, n, bytes::number_at(table, mark + 1));
    output::copy_line(line, out, at)
}

// The lines of a chip's pages, by rising number.
fn list_chip(table: &[u8], chip: Chip, out: &mut [u8], from: usize) -> usize
    requires { (length table.now ≡ times_length) × (from ≤ room * (first_entry chip + 1)) × (listing_room ≤ length out.old) }
    ensures { ListsLines (chip_lines chip table.now) out.old from (pages_of chip) out.new result }
{
    let mut at = from;
    for n in 0..times::pages_of(chip) {
        at = list_page(table, chip, n, out, at);
    }
    at
}

// The heading and the lines of both chips' pages, the flash's first; the place after them.
pub(crate) fn list_written(table: &[u8], out: &mut [u8]) -> usize
    requires { (length table.now ≡ times_length) × (listing_room ≤ length out.old) }
    ensures { ListsLines (pages_heading ++ written_lines (times_in table.now)) out.old 0 (entries + 1) out.new result }
{
    let from = output::copy_line(lines::pages_heading_line(), out, 0);
    let at = list_chip(table, Chip::Flash, out, from);
    list_chip(table, Chip::Eeprom, out, at)
}

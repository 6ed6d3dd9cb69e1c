// The lines of the entries of a list.
ghost use Rattle.std.specs.Prelude.{◌≡◌, ◌+◌, ◌≤◌, length};
ghost use Rattle.std.proofs.lemmas.List.Edits.{sets};
ghost use Rattle.planner.specs.Kinds.{kind_byte};
ghost use Rattle.entries.specs.Lines.{kind_at, entry_size, line_at, lines_from, Inside, Kinds};

use crate::{lines, output};
use planner::Kind;

// How many bytes an entry of that kind has.
fn entry_size(kind: Kind) -> usize
    ensures { result ≡ entry_size (kind_byte kind) }
{
    match kind {
        Kind::Program => planner::PROGRAM,
        Kind::SectorErase | Kind::ChipErase => planner::HEAD,
    }
}

// The line of the entry that stands in the list at a place, from a place of the output on; the place after it.
fn print_entry(list: &[u8], from: usize, kind: Kind, out: &mut [u8], first: usize) -> usize
    requires { (kind_byte kind ≡ kind_at list.now from) × (from + entry_size (kind_at list.now from) ≤ length list.now) × (first + length (line_at list.now from) ≤ length out.old) }
    ensures { (result ≡ first + length (line_at list.now from)) × (out.new ≡ sets out.old first (line_at list.now from)) }
{
    let head = lines::head_line(kind, list[from + 1], list[from + 2], list[from + 3]);
    let at = output::copy_line(head, out, first);
    match kind {
        Kind::Program => output::print_page(list, from + planner::HEAD, out, at),
        Kind::SectorErase | Kind::ChipErase => at,
    }
}

// The lines of so many entries from the list's start on, from the output's start on; the place after them.
pub(crate) fn print_entries(list: &[u8], number: u32, out: &mut [u8]) -> usize
    requires { (Inside list.now number 0) × (Kinds list.now number 0) × (length (lines_from list.now number 0) ≤ length out.old) }
    ensures { (result ≡ length (lines_from list.now number 0)) × (out.new ≡ sets out.old 0 (lines_from list.now number 0)) }
{
    let mut from: usize = 0;
    let mut at: usize = 0;
    for _passed in 0..number {
        let kind = Kind::try_from(list[from]).unwrap();
        at = print_entry(list, from, kind, out, at);
        from += entry_size(kind);
    }
    at
}

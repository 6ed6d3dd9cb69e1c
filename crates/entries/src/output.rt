// What was put together is copied out, and a page's bytes are written out in hex.
ghost use Rattle.std.specs.Prelude.{◌≡◌, ◌++◌, ◌+◌, ◌*◌, ◌≤◌, length};
ghost use Rattle.std.proofs.lemmas.List.Edits.{sets};
ghost use Rattle.page.specs.Geometry.{flash_page};
ghost use Rattle.field.specs.Ends.{lf};
ghost use Rattle.field.specs.Hex.{hex_field};
ghost use Rattle.entries.specs.Printed.{hex_bytes};
ghost use Rattle.entries.specs.Lines.{page_at};

use field::Spelling;

const PAGE: usize = page::FLASH_PAGE as usize;

// Copies the line into the output from a place on; the place after it.
// Kept: listing's asks for room, so it is not public (D107).
pub(crate) fn copy_line(line: Spelling, out: &mut [u8], at: usize) -> usize
    requires { at + length line ≤ length out.old }
    ensures { (result ≡ at + length line) × (out.new ≡ sets out.old at line) }
{
    let bytes = line.as_slice();
    let end = at + bytes.len();
    out[at..end].copy_from_slice(bytes);
    end
}

// A byte in hex, from a place of the output on; the place after it.
fn print_byte(byte: u8, out: &mut [u8], at: usize) -> usize
    requires { at + 2 ≤ length out.old }
    ensures { (result ≡ at + 2) × (out.new ≡ sets out.old at (hex_field byte)) }
{
    copy_line(Spelling::new().hex(byte), out, at)
}

// The page that stands in the list at a place, in hex, and LF; the place after them.
pub(crate) fn print_page(list: &[u8], from: usize, out: &mut [u8], first: usize) -> usize
    requires { (from + flash_page ≤ length list.now) × (first + (2 * flash_page + 1) ≤ length out.old) }
    ensures { (result ≡ first + (2 * flash_page + 1)) × (out.new ≡ sets out.old first (hex_bytes (page_at list.now from) ++ lf)) }
{
    let page = &list[from..from + PAGE];
    let mut at = first;
    for byte in page {
        at = print_byte(*byte, out, at);
    }
    out[at] = b'\n';
    at + 1
}

// A line that was put together is copied out.
ghost use Rattle.std.specs.Prelude.{◌≡◌, ◌+◌, ◌≤◌, length};
ghost use Rattle.std.proofs.lemmas.List.Edits.{sets};

use field::Spelling;

// Copies the line into the output from a place on; the place after it.
// Kept: the new form is no plainer, because of a struct of the output and the place each contract would have to say that it still holds the caller's output.
pub(crate) fn copy_line(line: Spelling, out: &mut [u8], at: usize) -> usize
    requires { at + length line ≤ length out.old }
    ensures { (result ≡ at + length line) × (out.new ≡ sets out.old at line) }
{
    let bytes = line.as_slice();
    let end = at + bytes.len();
    out[at..end].copy_from_slice(bytes);
    end
}

// What the program `merge` prints of a level text and the logger's trace (document 02, request 4/12): the merged trace, or the line of the refusal.
ghost use Rattle.std.specs.Prelude.{◌≤◌, length};
ghost use Rattle.printing.specs.MergePrinted.{PrintsMerge, length_of};

// No merged text is longer.
pub const MERGE_ROOM: usize = merged::ROOM;

// The pair is refused; the line of the refusal has so many bytes.
#[derive(Clone, Copy, Debug, PartialEq, Eq)]
pub struct Unmerged(pub usize);

// Merges both texts into the output; how many bytes there are of the merged trace. A refusal leaves the output as it was, and its line is put there instead. The
// output has to have room for any merged text.
pub fn print_merge(levels: &[u8], trace: &[u8], out: &mut [u8]) -> Result<usize, Unmerged>
    ensures printed { PrintsMerge levels.now trace.now out.old out.new result }
    ensures within { length_of result ≤ length out.new }
{
    if out.len() < MERGE_ROOM {
        return Err(Unmerged(0));
    }
    let mut result = [0u8; record::RESULT];
    let answer = merged::merge(levels, trace, out, &mut result);
    // Kept: `merge` answers a number by the C interface, so 0 is compared here.
    if answer == 0 {
        return Ok(listing::count_of(&result) as usize);
    }
    let line = listing::refusal_of(&result);
    let bytes = line.as_slice();
    let len = bytes.len();
    out[..len].copy_from_slice(bytes);
    Err(Unmerged(len))
}

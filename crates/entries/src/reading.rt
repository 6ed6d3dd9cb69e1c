// What is read: the status of its text, the number of entries of a plan's result.
ghost use Rattle.std.specs.Prelude.{◌≡◌, ◌+◌, ◌≤◌, length};
ghost use Rattle.listing.specs.Bytes.{number_at};
ghost use Rattle.entries.specs.Reading.{ReadsStatus};

use field::Cursor;

// The status that a text spells: two lower-case hex digits and LF, and nothing else.
pub(crate) fn status_in(text: &[u8]) -> Option<u8>
    ensures { ReadsStatus text.now result }
{
    if text.len() != 3 {
        return None;
    }
    if text[2] != b'\n' {
        return None;
    }
    let (status, _) = field::read_hex(text, Cursor { at: 0 }, 1).ok()?;
    Some(status)
}

// The number in four bytes, low byte first.
// Kept: listing's asks for room, so it is not public (D107).
#[tactic(auto, unfolding(listing::specs::Bytes::number_at))]
pub(crate) fn number_at(bytes: &[u8], at: usize) -> u32
    requires { at + 4 ≤ length bytes.now }
    ensures { result ≡ number_at bytes.now at }
{
    u32::from_le_bytes([bytes[at], bytes[at + 1], bytes[at + 2], bytes[at + 3]])
}

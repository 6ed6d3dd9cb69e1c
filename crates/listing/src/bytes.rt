// What the lent bytes of a replay say: a record's reply in four bytes, the numbers of the result (document 01, 'Replies and stopping').
ghost use Rattle.std.specs.Prelude.{◌≡◌, ◌+◌, ◌*◌, ◌≤◌, length};
ghost use Rattle.record.specs.ReplyOf.{reply_of};
ghost use Rattle.listing.specs.Bytes.{match_of, was_played, reply_at, match_at, number_at};

use record::{Match, Reply};

// Kept: the new form is no plainer, because an impl of From for record's types has to stand in record, where nothing reads a reply's bytes.
fn reply_of(kind: u8, value: u8, mask: u8) -> Reply
    ensures { result ≡ reply_of kind value mask }
{
    match kind {
        1 => Reply::Silent,
        2 => Reply::Byte(value, mask),
        3 => Reply::Ack,
        4 => Reply::NoAck,
        5 => Reply::Starts,
        6 => Reply::Ends,
        7 => Reply::NoCycle,
        _ => Reply::NotPlayed,
    }
}

// Kept: as above.
fn match_of(number: u8) -> Match
    ensures { result ≡ match_of number }
{
    match number {
        1 => Match::Agrees,
        2 => Match::Disagrees,
        _ => Match::Nothing,
    }
}

pub(crate) fn was_played(reply: Reply) -> bool
    ensures { result ≡ was_played reply }
{
    !matches!(reply, Reply::NotPlayed)
}

// The reply of record k.
#[tactic(auto, unfolding(crate::specs::Bytes::reply_at))]
pub(crate) fn reply_at(replies: &[u8], k: usize) -> Reply
    requires { 4 * k + 4 ≤ length replies.now }
    ensures { result ≡ reply_at replies.now k }
{
    let at = 4 * k;
    reply_of(replies[at], replies[at + 1], replies[at + 2])
}

// The match of record k.
#[tactic(auto, unfolding(crate::specs::Bytes::match_at))]
pub(crate) fn match_at(replies: &[u8], k: usize) -> Match
    requires { 4 * k + 4 ≤ length replies.now }
    ensures { result ≡ match_at replies.now k }
{
    match_of(replies[4 * k + 3])
}

// The number in four bytes, low byte first.
#[tactic(auto, unfolding(crate::specs::Bytes::number_at))]
pub(crate) fn number_at(bytes: &[u8], at: usize) -> u32
    requires { at + 4 ≤ length bytes.now }
    ensures { result ≡ number_at bytes.now at }
{
    u32::from_le_bytes([bytes[at], bytes[at + 1], bytes[at + 2], bytes[at + 3]])
}

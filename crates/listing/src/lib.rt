// What is printed of a replay, formatted into a lent buffer: a heading, a line for each record that was played (document 01, 'One listing in full') or for each
// page that was written (document 02, request 1/12), and a last line; or a refusal alone.
#![tactic(auto)]

ghost use Rattle.std.specs.Prelude.{◌≡◌, ◌≤◌, length};
ghost use Rattle.field.specs.Room.{room};
ghost use Rattle.record.specs.Lengths.{replies_length};
ghost use Rattle.listing.specs.Listing.{Listed, ListedFrom, Lists, listing_room};
ghost use Rattle.listing.specs.Pages.{ListsPages};
ghost use Rattle.listing.specs.Writing.{ListsPlayed, ListsRecords};

mod bytes;
mod lines;
mod output;
mod pages;
mod told;

use field::Cursor;
use told::Told;
pub use told::{count_of, refusal_of};

// Enough for any listing: a line for each reply, a heading and a last line.
pub const ROOM: usize = field::ROOM * (record::REPLY_PLACES + 2);

// Kept: `list` asks the lengths of the replies and of the output once; the functions below and in pages.rt ask for them in a clause each, since a type that holds the caller's slices would have to say that it still does.
// A line for each record that was played, of those that stand from the first on; written from a place of the output on. The place after them.
fn list_from(text: &[u8], first: Cursor, replies: &[u8], out: &mut [u8], from: usize) -> usize
    requires { (length replies.now ≡ replies_length) × (from ≤ room) × (listing_room ≤ length out.old) }
    ensures { ListsRecords (ListedFrom text.now replies.now first.at 0) replies.now out.old from out.new result }
{
    let mut at = from;
    let mut place = first.at;
    for k in 0..record::REPLY_PLACES {
        let Ok((rec, next)) = text::record_at(text, place) else {
            break;
        };
        let reply = bytes::reply_at(replies, k);
        if !bytes::was_played(reply) {
            break;
        }
        // Record k is on line k + 2.
        let number = (k + 2) as u32;
        let line = lines::record_line(number, rec.stamp, reply, bytes::match_at(replies, k));
        at = output::copy_line(line, out, at);
        place = next.at;
    }
    at
}

// The same of the records behind the board's line; no board, no record.
fn list_records(text: &[u8], replies: &[u8], out: &mut [u8], from: usize) -> usize
    requires { (length replies.now ≡ replies_length) × (from ≤ room) × (listing_room ≤ length out.old) }
    ensures { ListsRecords (Listed text.now replies.now) replies.now out.old from out.new result }
{
    let Ok((_, first)) = line::read_board(text, Cursor { at: 0 }) else {
        return from;
    };
    list_from(text, first, replies, out, from)
}

// The heading and the records' lines; the place after them.
fn list_played(text: &[u8], replies: &[u8], out: &mut [u8]) -> usize
    requires { (length replies.now ≡ replies_length) × (listing_room ≤ length out.old) }
    ensures { ListsPlayed text.now replies.now out.old out.new result }
{
    let from = output::copy_line(lines::heading_line(), out, 0);
    list_records(text, replies, out, from)
}

// Formats the listing of a replayed text from its replies and its result, and gives back its length. The output has to have room for any listing.
pub fn list(text: &[u8], replies: &[u8], res: &[u8], out: &mut [u8]) -> usize
    ensures { Lists text.now replies.now res.now out.old out.new result }
{
    if replies.len() != record::REPLIES || out.len() < ROOM {
        return 0;
    }
    let Some(told) = Told::of(res) else {
        return 0;
    };
    if told.refuses() {
        return output::copy_line(told.refused_line(), out, 0);
    }
    let at = list_played(text, replies, out);
    output::copy_line(told.last_line(), out, at)
}

// Formats the listing of the pages written from the table of times and the result of a replay, in the same way.
pub fn list_pages(table: &[u8], res: &[u8], out: &mut [u8]) -> usize
    ensures { ListsPages table.now res.now out.old out.new result }
{
    if table.len() != times::TIMES || out.len() < ROOM {
        return 0;
    }
    let Some(told) = Told::of(res) else {
        return 0;
    };
    if told.refuses() {
        return output::copy_line(told.refused_line(), out, 0);
    }
    let at = pages::list_written(table, out);
    output::copy_line(told.last_line(), out, at)
}

// The first bad line of a text, and within it refusal 3, then 4, then 5; of a 3 the number of the line's first bad field too (document 02, request 2/12).
ghost use Rattle.std.specs.Prelude.{◌≡◌, ltb, length};
ghost use Rattle.text.specs.Texts.{Checks, text_limit};

use crate::buses::Buses;
use field::Cursor;
use record::{Answer, Board};

// Why a text can't be replayed: the answer, the line's number, counted from 1, and the field's, 0 for answers other than 3.
#[derive(Clone, Copy, Debug, PartialEq, Eq)]
pub struct Refusal {
    pub answer: Answer,
    pub line: usize,
    pub field: u32,
}

// The most bytes that a text may have.
pub const LIMIT: usize = 65536;

// Refusal 2.
pub fn too_long(text: &[u8]) -> bool
    ensures { result ≡ ltb text_limit (length text.now) }
{
    LIMIT < text.len()
}

impl Refusal {
    fn new(answer: Answer, line: usize, field: u32) -> Refusal
        ensures { result ≡ record { answer = answer; line = line; field = field } }
    {
        Refusal {
            answer,
            line,
            field,
        }
    }
}

// Whether a text can be replayed: its board, and the place of the first record; else why not and from which line on.
pub fn check_text(text: &[u8]) -> Result<(Board, Cursor), Refusal>
    ensures { Checks text.now result }
{
    let (board, first) = match line::read_board(text, Cursor { at: 0 }) {
        Ok(read) => read,
        Err(bad) => return Err(Refusal::new(Answer::BadLine, 1, bad.0)),
    };
    let mut at = first.at;
    let mut number: usize = 2;
    let mut last: u32 = 0;
    let mut buses = Buses::all_closed();
    // Kept: the place goes on by what was read, so no range gives it; the line's number goes beside it.
    while at < text.len() {
        let (rec, next) = match crate::reader::record_at(text, at) {
            Ok(read) => read,
            Err(bad) => return Err(Refusal::new(Answer::BadLine, number, bad.0)),
        };
        if rec.stamp < last {
            return Err(Refusal::new(Answer::BackInTime, number, 0));
        }
        let Some(after) = buses.after(rec.event) else {
            return Err(Refusal::new(Answer::Impossible, number, 0));
        };
        at = next.at;
        number += 1;
        last = rec.stamp;
        buses = after;
    }
    Ok((board, first))
}

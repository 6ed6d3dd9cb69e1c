// One field of a line, read at a cursor and written (document 01, 'The trace'): a decimal, two hex digits, one digit, a word; and its end.
// Each reader is told the field's number and refuses with the number of the field that is bad: where a content does not begin as it must, or goes on
// where it must end, with its own; where it ends and its end is not there, with the next.
#![tactic(auto)]

mod decimal;
mod digit;
mod ending;
mod hex;
mod spelling;
mod word;

pub use decimal::read_decimal;
pub use digit::read_digit;
pub use ending::{FieldEnd, read_end};
pub use hex::read_hex;
pub use spelling::{ROOM, Spelling};
pub use word::read_word;

// A place in a text.
#[derive(Clone, Copy, Debug, PartialEq, Eq)]
pub struct Cursor {
    pub at: usize,
}

// The refusal of a line: the number of its first bad field, counted from 1.
#[derive(Clone, Copy, Debug, PartialEq, Eq)]
pub struct BadField(pub u32);

// Two lower-case hex digits.
ghost use Rattle.std.specs.Prelude.{◌≡◌};
ghost use Rattle.field.specs.Readers.{digit_value, letter_value, nibble_of, ReadsHex};

use crate::{BadField, Cursor};

// What the byte stands for as a digit 0 to 9; 16 if it is none.
fn digit_value(byte: u8) -> u8
    ensures { result ≡ digit_value byte }
{
    match byte {
        b'0'..=b'9' => byte - b'0',
        _ => 16,
    }
}

// What the byte stands for as a letter a to f; 16 if it is none.
fn letter_value(byte: u8) -> u8
    ensures { result ≡ letter_value byte }
{
    match byte {
        b'a'..=b'f' => byte - b'a' + 10,
        _ => 16,
    }
}

// Kept: numbers, with 16 for none, in these two and no Option, since an Option is a branch (speed).
// What one hex digit stands for. Both values are worked out and the lesser is taken, with no branch between digits and letters:
// a processor would guess that branch wrong too often.
fn nibble_of(byte: u8) -> Option<u8>
    ensures { result ≡ nibble_of byte }
{
    let value = digit_value(byte).min(letter_value(byte));
    if value < 16 { Some(value) } else { None }
}

// The byte whose two hex digits the line's field of that number begins with, and the place after them.
pub fn read_hex(text: &[u8], c: Cursor, number: u8) -> Result<(u8, Cursor), BadField>
    ensures { ReadsHex number text.now c.at result }
{
    let bad = Err(BadField(number as u32));
    let Some(rest) = text.get(c.at..) else {
        return bad;
    };
    let [first, second, ..] = rest else {
        return bad;
    };
    let Some(high) = nibble_of(*first) else {
        return bad;
    };
    let Some(low) = nibble_of(*second) else {
        return bad;
    };
    Ok((high * 16 + low, Cursor { at: c.at + 2 }))
}

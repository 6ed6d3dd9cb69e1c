// One digit in a range.
ghost use Rattle.field.specs.Readers.{ReadsDigit};

use crate::{BadField, Cursor};

// The digit from low to high that the line's field of that number begins with, and the place after it.
pub fn read_digit(
    text: &[u8],
    c: Cursor,
    low: u8,
    high: u8,
    number: u8,
) -> Result<(u8, Cursor), BadField>
    ensures { ReadsDigit low high number text.now c.at result }
{
    let at = c.at;
    let bad = Err(BadField(number as u32));
    let Some(&byte) = text.get(at) else {
        return bad;
    };
    if !byte.is_ascii_digit() {
        return bad;
    }
    let digit = byte - b'0';
    if digit < low || high < digit {
        return bad;
    }
    Ok((digit, Cursor { at: at + 1 }))
}

// A decimal from 0 to 4,294,967,295 with no leading zero. One may begin another, so it is read by the field's whole content.
ghost use Rattle.std.specs.Prelude.{◌≡◌, drop};
ghost use Rattle.field.specs.Readers.{digit_on, push_of, stopped_at, ReadsDecimal};

use crate::{BadField, Cursor};

// The number with one more digit, if the byte is a digit and the number stays in range.
fn add_digit(value: u32, byte: u8) -> Option<u32>
    ensures { result ≡ digit_on value byte }
{
    if !byte.is_ascii_digit() {
        return None;
    }
    let next = u64::from(value) * 10 + u64::from(byte - b'0');
    u32::try_from(next).ok()
}

// The same after what was read so far, which is nothing yet or a number; a leading zero takes no further digit.
fn push(so_far: Option<u32>, byte: u8) -> Option<u32>
    ensures { result ≡ push_of so_far byte }
{
    match so_far {
        None => add_digit(0, byte),
        Some(0) => None,
        Some(value) => add_digit(value, byte),
    }
}

// The answer where no digit can be read on: the digits so far are the content if there are some and it ends here.
fn stopped(
    text: &[u8],
    at: usize,
    so_far: Option<u32>,
    number: u8,
) -> Result<(u32, Cursor), BadField>
    ensures { result ≡ stopped_at number so_far at (drop at text.now) }
{
    match so_far {
        Some(value) if crate::ending::ends_at(text, at) => Ok((value, Cursor { at })),
        _ => Err(BadField(number as u32)),
    }
}

// The decimal that is the content of the line's field of that number.
pub fn read_decimal(text: &[u8], c: Cursor, number: u8) -> Result<(u32, Cursor), BadField>
    ensures { ReadsDecimal number text.now c.at result }
{
    let mut at = c.at;
    let mut so_far = None;
    // Kept: the place is answered, so an iterator over the bytes would have to count it too.
    while let Some(&byte) = text.get(at) {
        let Some(value) = push(so_far, byte) else {
            break;
        };
        so_far = Some(value);
        at += 1;
    }
    stopped(text, at, so_far, number)
}

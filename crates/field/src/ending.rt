// Where a field ends, and the byte that ends it: a tab, or the line's LF.
ghost use Rattle.std.specs.Prelude.{◌≡◌, drop};
ghost use Rattle.field.specs.Readers.{ends_here, end_byte, ReadsEnd};

use crate::{BadField, Cursor};

#[derive(Clone, Copy, Debug, PartialEq, Eq)]
pub enum FieldEnd {
    Tab,
    Lf,
}

impl FieldEnd {
    fn byte(self) -> u8
        ensures { result ≡ end_byte self }
    {
        match self {
            FieldEnd::Tab => b'\t',
            FieldEnd::Lf => b'\n',
        }
    }
}

// Whether a content ends at a place: with a tab, the LF or the text's end.
pub(crate) fn ends_at(text: &[u8], at: usize) -> bool
    ensures { result ≡ ends_here (drop at text.now) }
{
    match text.get(at) {
        None => true,
        Some(&byte) => byte == b'\t' || byte == b'\n',
    }
}

// The end of the line's field of that number, at a place up to which its content is good. It is refused with the field's own number where the content
// goes on here; where it ends, but not with that byte, with the next field's.
pub fn read_end(text: &[u8], c: Cursor, end: FieldEnd, number: u8) -> Result<Cursor, BadField>
    ensures { ReadsEnd end number text.now c.at result }
{
    let at = c.at;
    let next = number as u32 + 1;
    let Some(&byte) = text.get(at) else {
        return Err(BadField(next));
    };
    if byte == end.byte() {
        return Ok(Cursor { at: at + 1 });
    }
    if ends_at(text, at) {
        return Err(BadField(next));
    }
    Err(BadField(number as u32))
}

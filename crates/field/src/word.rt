// A word that is written out.
ghost use Rattle.field.specs.Readers.{ReadsWord};

use crate::{BadField, Cursor};

// The place after the word, if the line's field of that number begins with it. An empty one stands everywhere.
pub fn read_word(text: &[u8], c: Cursor, word: &[u8], number: u8) -> Result<Cursor, BadField>
    ensures { ReadsWord word.now number text.now c.at result }
{
    match text.get(c.at..) {
        Some(rest) if rest.starts_with(word) => Ok(Cursor {
            at: c.at + word.len(),
        }),
        None if word.is_empty() => Ok(c),
        _ => Err(BadField(number as u32)),
    }
}

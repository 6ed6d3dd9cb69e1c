// An event that was read, of any channel.
ghost use Rattle.line.specs.Readers.{ReadsLast};

use crate::numbers::EVENT;
use field::{BadField, Cursor, FieldEnd};
use record::Event;

// The line's end after the word of an event that has no fields of its own.
pub(crate) fn read_last(text: &[u8], c: Cursor, event: Event) -> Result<(Event, Cursor), BadField>
    ensures { ReadsLast event text.now c.at result }
{
    let next = field::read_end(text, c, FieldEnd::Lf, EVENT)?;
    Ok((event, next))
}

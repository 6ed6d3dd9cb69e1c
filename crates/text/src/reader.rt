// The records of a text, one after another, through a small reader over the lent text that knows its own place.
ghost use Rattle.std.specs.Prelude.{◌≡◌};
ghost use Rattle.line.specs.Records.{ReadsRecord};

use field::{BadField, Cursor};
use record::Record;

#[derive(Clone, Copy)]
pub struct Reader<'a> {
    pub text: &'a [u8],
    pub at: usize,
}

impl<'a> Reader<'a> {
    // A reader that stands at a place of a text.
    pub fn new(text: &'a [u8], at: usize) -> Reader<'a>
        ensures { (result.text ≡ text.entry) × (result.at ≡ at) }
    {
        Reader { text, at }
    }

    // The record that stands at its place, with the place after it, or that there is none.
    pub fn next_record(self) -> Result<(Record, Cursor), BadField>
        ensures { ReadsRecord self.entry.text.now self.entry.at result }
    {
        line::read_record(self.text, Cursor { at: self.at })
    }

    // The same reader at another place.
    pub fn moved_to(self, at: usize) -> Reader<'a>
        ensures { (result.text ≡ self.entry.text) × (result.at ≡ at) }
    {
        Reader { at, ..self }
    }
}

// The record at a place of a text, and the place after it: read through a reader.
pub fn record_at(text: &[u8], at: usize) -> Result<(Record, Cursor), BadField>
    ensures { ReadsRecord text.now at result }
{
    Reader::new(text, at).next_record()
}

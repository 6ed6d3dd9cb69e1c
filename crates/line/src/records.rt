// A record's line: stamp, channel, event.
ghost use Rattle.std.specs.Prelude.{◌≡◌};
ghost use Rattle.field.specs.Spelling.{put_all};
ghost use Rattle.line.specs.Records.{spelled_event, spelled, ReadsRecord};
ghost use Rattle.line.specs.Readers.{ReadsEvent};
ghost use Rattle.line.specs.Output.{Wrote};

use crate::numbers::{CHANNEL, STAMP};
use crate::output::WriteError;
use field::{BadField, Cursor, FieldEnd, Spelling};
use record::{Event, Record};

// The channel and its event, to the line's end. Another channel's event word is no event of this one.
// Kept: three arms alike, since a helper for word and tab is no plainer: it answers three things, another word, no tab and the place.
fn read_event(text: &[u8], c: Cursor) -> Result<(Event, Cursor), BadField>
    ensures { ReadsEvent text.now c.at result }
{
    if let Ok(n) = field::read_word(text, c, b"F", CHANNEL) {
        let m = field::read_end(text, n, FieldEnd::Tab, CHANNEL)?;
        return crate::channel_f::read_flash(text, m);
    }
    if let Ok(n) = field::read_word(text, c, b"E", CHANNEL) {
        let m = field::read_end(text, n, FieldEnd::Tab, CHANNEL)?;
        return crate::channel_e::read_eeprom(text, m);
    }
    let n = field::read_word(text, c, b"L", CHANNEL)?;
    let m = field::read_end(text, n, FieldEnd::Tab, CHANNEL)?;
    crate::channel_l::read_line(text, m)
}

// The record whose line stands at a place, and the place after its LF; else the number of the first bad field.
pub fn read_record(text: &[u8], c: Cursor) -> Result<(Record, Cursor), BadField>
    ensures { ReadsRecord text.now c.at result }
{
    let (stamp, c1) = field::read_decimal(text, c, STAMP)?;
    let c2 = field::read_end(text, c1, FieldEnd::Tab, STAMP)?;
    let (event, last) = read_event(text, c2)?;
    Ok((Record { stamp, event }, last))
}

#[tactic(auto, using(crate::proofs::RecordLaws::put_event_flash, crate::proofs::RecordLaws::put_event_eeprom, crate::proofs::RecordLaws::put_event_line), unfolding(crate::specs::Records::spelled_event))]
fn put_event(s: Spelling, e: Event) -> Spelling
    ensures { result ≡ put_all s (spelled_event e) }
{
    match e {
        Event::Flash(f) => crate::channel_f::put_flash(s.word(b"F\t"), f),
        Event::Eeprom(m) => crate::channel_e::put_eeprom(s.word(b"E\t"), m),
        Event::Line(l) => crate::channel_l::put_line(s.word(b"L\t"), l),
    }
}

// Writes a record's line to the front of an output; how many bytes it has. No record is out of range: its stamp is a u32, its bytes are bytes, its bit is a bool.
#[tactic(auto, using(crate::proofs::RecordLaws::put_record, crate::proofs::OutputLaws::wrote_as, crate::proofs::OutputLaws::fits_record))]
pub fn write_record(rec: Record, out: &mut [u8]) -> Result<usize, WriteError>
    ensures { Wrote (spelled rec) out.old out.new result }
{
    let stamp = Spelling::new().decimal(rec.stamp).word(b"\t");
    let line = put_event(stamp, rec.event);
    crate::output::copy_out(line.as_slice(), out)
}

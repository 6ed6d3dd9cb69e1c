// The events of channel E: sta, b, cut, sto, end.
ghost use Rattle.std.specs.Prelude.{◌≡◌};
ghost use Rattle.field.specs.Spelling.{put_all};
ghost use Rattle.line.specs.ChannelE.{spelled_eeprom};
ghost use Rattle.line.specs.Readers.{spelled_bit, ReadsData, ReadsEeprom};

use crate::events::read_last;
use crate::numbers::{EVENT, FIRST, SECOND};
use field::{BadField, Cursor, FieldEnd, Spelling};
use record::{EepromEvent, Event};

// The byte and its acknowledge bit (0 acknowledged, 1 not), to the line's end.
fn read_data(text: &[u8], c: Cursor) -> Result<(Event, Cursor), BadField>
    ensures { ReadsData text.now c.at result }
{
    let (byte, c1) = field::read_hex(text, c, FIRST)?;
    let c2 = field::read_end(text, c1, FieldEnd::Tab, FIRST)?;
    let (bit, c3) = field::read_digit(text, c2, 0, 1, SECOND)?;
    let c4 = field::read_end(text, c3, FieldEnd::Lf, SECOND)?;
    Ok((Event::Eeprom(EepromEvent::Byte(byte, bit == 1)), c4))
}

// The most frequent word, `b`, is tried first.
// Kept: as channel F's reader.
pub fn read_eeprom(text: &[u8], c: Cursor) -> Result<(Event, Cursor), BadField>
    ensures { ReadsEeprom text.now c.at result }
{
    if let Ok(n) = field::read_word(text, c, b"b", EVENT) {
        let m = field::read_end(text, n, FieldEnd::Tab, EVENT)?;
        return read_data(text, m);
    }
    if let Ok(n) = field::read_word(text, c, b"sta", EVENT) {
        return read_last(text, n, Event::Eeprom(EepromEvent::Start));
    }
    if let Ok(n) = field::read_word(text, c, b"sto", EVENT) {
        return read_last(text, n, Event::Eeprom(EepromEvent::Stop));
    }
    if let Ok(n) = field::read_word(text, c, b"end", EVENT) {
        return read_last(text, n, Event::Eeprom(EepromEvent::End));
    }
    let n = field::read_word(text, c, b"cut", EVENT)?;
    read_last(text, n, Event::Eeprom(EepromEvent::Cut))
}

#[tactic(auto, unfolding(crate::specs::Readers::spelled_bit))]
fn put_bit(s: Spelling, ack: bool) -> Spelling
    ensures { result ≡ put_all s (spelled_bit ack) }
{
    if ack {
        s.word(b"\t1\n")
    } else {
        s.word(b"\t0\n")
    }
}

#[tactic(auto, using(crate::proofs::EepromLaws::put_data), unfolding(crate::specs::ChannelE::spelled_eeprom))]
pub fn put_eeprom(s: Spelling, e: EepromEvent) -> Spelling
    ensures { result ≡ put_all s (spelled_eeprom e) }
{
    match e {
        EepromEvent::Start => s.word(b"sta\n"),
        EepromEvent::Byte(byte, ack) => put_bit(s.word(b"b\t").hex(byte), ack),
        EepromEvent::Cut => s.word(b"cut\n"),
        EepromEvent::Stop => s.word(b"sto\n"),
        EepromEvent::End => s.word(b"end\n"),
    }
}

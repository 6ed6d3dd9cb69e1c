// The events of channel F: sel, x, cut, des, end.
ghost use Rattle.std.specs.Prelude.{◌≡◌};
ghost use Rattle.field.specs.Spelling.{put_all};
ghost use Rattle.line.specs.ChannelF.{spelled_flash};
ghost use Rattle.line.specs.Readers.{ReadsPair, ReadsFlash};

use crate::events::read_last;
use crate::numbers::{EVENT, FIRST, SECOND};
use field::{BadField, Cursor, FieldEnd, Spelling};
use record::{Event, FlashEvent};

// SI and SO, to the line's end.
fn read_pair(text: &[u8], c: Cursor) -> Result<(Event, Cursor), BadField>
    ensures { ReadsPair text.now c.at result }
{
    let (si, c1) = field::read_hex(text, c, FIRST)?;
    let c2 = field::read_end(text, c1, FieldEnd::Tab, FIRST)?;
    let (so, c3) = field::read_hex(text, c2, SECOND)?;
    let c4 = field::read_end(text, c3, FieldEnd::Lf, SECOND)?;
    Ok((Event::Flash(FlashEvent::Byte(si, so)), c4))
}

// The most frequent word, `x`, is tried first.
// Kept: the channels try their words alike; one function over a table of words is no plainer, as it looks for words of no constant length and each
// channel's reader has a promise of its own (ReadsFlash, ReadsEeprom, ReadsLine).
pub fn read_flash(text: &[u8], c: Cursor) -> Result<(Event, Cursor), BadField>
    ensures { ReadsFlash text.now c.at result }
{
    if let Ok(n) = field::read_word(text, c, b"x", EVENT) {
        let m = field::read_end(text, n, FieldEnd::Tab, EVENT)?;
        return read_pair(text, m);
    }
    if let Ok(n) = field::read_word(text, c, b"sel", EVENT) {
        return read_last(text, n, Event::Flash(FlashEvent::Select));
    }
    if let Ok(n) = field::read_word(text, c, b"des", EVENT) {
        return read_last(text, n, Event::Flash(FlashEvent::Deselect));
    }
    if let Ok(n) = field::read_word(text, c, b"end", EVENT) {
        return read_last(text, n, Event::Flash(FlashEvent::End));
    }
    let n = field::read_word(text, c, b"cut", EVENT)?;
    read_last(text, n, Event::Flash(FlashEvent::Cut))
}

#[tactic(auto, using(crate::proofs::FlashLaws::put_pair), unfolding(crate::specs::ChannelF::spelled_flash))]
pub fn put_flash(s: Spelling, e: FlashEvent) -> Spelling
    ensures { result ≡ put_all s (spelled_flash e) }
{
    match e {
        FlashEvent::Select => s.word(b"sel\n"),
        FlashEvent::Byte(si, so) => s.word(b"x\t").hex(si).word(b"\t").hex(so).word(b"\n"),
        FlashEvent::Cut => s.word(b"cut\n"),
        FlashEvent::Deselect => s.word(b"des\n"),
        FlashEvent::End => s.word(b"end\n"),
    }
}

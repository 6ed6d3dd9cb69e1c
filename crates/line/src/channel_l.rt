// The events of channel L: on, off, lock, free.
ghost use Rattle.std.specs.Prelude.{◌≡◌};
ghost use Rattle.field.specs.Spelling.{put_all};
ghost use Rattle.line.specs.ChannelL.{spelled_line};
ghost use Rattle.line.specs.Readers.{ReadsLine};

use crate::events::read_last;
use crate::numbers::EVENT;
use field::{BadField, Cursor, Spelling};
use record::{Event, LineEvent};

// Kept: as channel F's reader.
pub fn read_line(text: &[u8], c: Cursor) -> Result<(Event, Cursor), BadField>
    ensures { ReadsLine text.now c.at result }
{
    if let Ok(n) = field::read_word(text, c, b"on", EVENT) {
        return read_last(text, n, Event::Line(LineEvent::SupplyOn));
    }
    if let Ok(n) = field::read_word(text, c, b"off", EVENT) {
        return read_last(text, n, Event::Line(LineEvent::SupplyOff));
    }
    if let Ok(n) = field::read_word(text, c, b"lock", EVENT) {
        return read_last(text, n, Event::Line(LineEvent::LockOn));
    }
    let n = field::read_word(text, c, b"free", EVENT)?;
    read_last(text, n, Event::Line(LineEvent::LockOff))
}

#[tactic(auto, unfolding(crate::specs::ChannelL::spelled_line))]
pub fn put_line(s: Spelling, e: LineEvent) -> Spelling
    ensures { result ≡ put_all s (spelled_line e) }
{
    match e {
        LineEvent::SupplyOn => s.word(b"on\n"),
        LineEvent::SupplyOff => s.word(b"off\n"),
        LineEvent::LockOn => s.word(b"lock\n"),
        LineEvent::LockOff => s.word(b"free\n"),
    }
}

// What is taken from the logger's trace (document 02, request 4/12). What can be wrong with a line of the capture is in specs/Captures.antt.
#![tactic(auto)]

ghost use Rattle.std.specs.Prelude.{◌≡◌};
ghost use Rattle.capture.specs.Taken.{is_of, taken};

use record::{EepromEvent, Event, FlashEvent};

// What is taken: the cycle ends of each chip, and the line records.
#[derive(Clone, Copy, Debug, PartialEq, Eq)]
pub enum Part {
    FlashEnds,
    EepromEnds,
    Lines,
}

// Whether an event is of one part of what is taken.
pub fn is_of(part: Part, event: Event) -> bool
    ensures { result ≡ is_of part event }
{
    match part {
        Part::FlashEnds => matches!(event, Event::Flash(FlashEvent::End)),
        Part::EepromEnds => matches!(event, Event::Eeprom(EepromEvent::End)),
        Part::Lines => matches!(event, Event::Line(_)),
    }
}

// Whether an event of the logger's trace is taken; the others are passed over.
pub fn is_taken(event: Event) -> bool
    ensures { result ≡ taken event }
{
    matches!(
        event,
        Event::Flash(FlashEvent::End) | Event::Eeprom(EepromEvent::End) | Event::Line(_)
    )
}

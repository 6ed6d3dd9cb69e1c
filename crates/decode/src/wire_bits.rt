// The two wires of the EEPROM: `sta`, `b`, `cut`, `sto`.
ghost use Rattle.std.specs.Prelude.{◌≡◌};
ghost use Rattle.decode.specs.WireLevels.{no_part, at_rest, wire_turned, after_part, start_turn, stop_turn, bit_turn, fall_turn, high_turn, wire_turn};

use crate::{Out, Turn};
use level::Wires;
use record::{EepromEvent, Event};

// The bits of a byte that is not complete: how many, and which.
#[derive(Clone, Copy, Debug, PartialEq, Eq)]
pub struct BytePart {
    pub count: u8,
    pub value: u8,
}

// link: where a start came and no stop since, the bits of a byte that is not complete.
// clock: where SCL is high, and no start or stop came since its rise, SDA's level at that rise.
#[derive(Clone, Copy, Debug, PartialEq, Eq)]
pub struct WireBits {
    pub link: Option<BytePart>,
    pub clock: Option<bool>,
}

fn turned(link: Option<BytePart>, clock: Option<bool>, out: Out) -> Turn<WireBits>
    ensures { result ≡ wire_turned link clock out }
{
    Turn {
        bits: WireBits { link, clock },
        out,
    }
}

impl BytePart {
    fn none() -> BytePart
        ensures { result ≡ no_part }
    {
        BytePart { count: 0, value: 0 }
    }

    // A start or a stop: 1 to 8 bits before it are cut.
    fn then(self, e: EepromEvent) -> Out
        ensures { result ≡ after_part self e }
    {
        if self.count == 0 {
            return Out::One(Event::Eeprom(e));
        }
        Out::Two(Event::Eeprom(EepromEvent::Cut), Event::Eeprom(e))
    }
}

impl WireBits {
    // No start is open.
    pub fn none() -> WireBits
        ensures { result ≡ at_rest }
    {
        WireBits {
            link: None,
            clock: None,
        }
    }

    // A start: the clock that is high is no bit.
    fn start(self) -> Turn<WireBits>
        ensures { result ≡ start_turn self.link }
    {
        let out = match self.link {
            None => Out::One(Event::Eeprom(EepromEvent::Start)),
            Some(part) => part.then(EepromEvent::Start),
        };
        turned(Some(BytePart::none()), None, out)
    }

    // With no start open a stop is passed over.
    fn stop(self) -> Turn<WireBits>
        ensures { result ≡ stop_turn self.link }
    {
        let out = match self.link {
            None => Out::Nothing,
            Some(part) => part.then(EepromEvent::Stop),
        };
        turned(None, None, out)
    }

    // The ninth bit is the acknowledge; with no start open a clock is passed over.
    fn bit(self, level: bool) -> Turn<WireBits>
        ensures { result ≡ bit_turn self.link level }
    {
        let Some(part) = self.link else {
            return turned(None, None, Out::Nothing);
        };
        if part.count < 8 {
            let more = BytePart {
                count: part.count + 1,
                value: crate::push_bit(part.value, level),
            };
            return turned(Some(more), None, Out::Nothing);
        }
        let byte = Event::Eeprom(EepromEvent::Byte(part.value, level));
        turned(Some(BytePart::none()), None, Out::One(byte))
    }

    // SCL falls: its bit counts.
    fn fall(self) -> Turn<WireBits>
        ensures { result ≡ fall_turn self.link self.clock }
    {
        match self.clock {
            None => turned(self.link, None, Out::Nothing),
            Some(level) => self.bit(level),
        }
    }

    // SCL stays high: SDA falls in a start and rises in a stop.
    fn high(self, before: bool, after: bool) -> Turn<WireBits>
        ensures { result ≡ high_turn self.link self.clock before after }
    {
        if level::falls(before, after) {
            return self.start();
        }
        if level::rises(before, after) {
            return self.stop();
        }
        turned(self.link, self.clock, Out::Nothing)
    }

    // From one line of the capture to the next.
    pub fn turn(self, before: Wires, after: Wires) -> Turn<WireBits>
        ensures { result ≡ wire_turn self before after }
    {
        if level::falls(before.scl, after.scl) {
            return self.fall();
        }
        if level::rises(before.scl, after.scl) {
            return turned(self.link, Some(after.sda), Out::Nothing);
        }
        if after.scl {
            return self.high(before.sda, after.sda);
        }
        turned(self.link, self.clock, Out::Nothing)
    }
}

// The flash's lines: `sel`, `x`, `cut`, `des`.
ghost use Rattle.std.specs.Prelude.{◌≡◌};
ghost use Rattle.decode.specs.FlashLevels.{no_bits, flash_clock, flash_ends, flash_low, flash_turn};

use crate::{Out, Turn};
use level::Spi;
use record::{Event, FlashEvent};

// The bits of a byte that is not complete: how many, and SI's and SO's.
#[derive(Clone, Copy, Debug, PartialEq, Eq)]
pub struct FlashBits {
    pub count: u8,
    pub si: u8,
    pub so: u8,
}

impl FlashBits {
    pub fn none() -> FlashBits
        ensures { result ≡ no_bits }
    {
        FlashBits {
            count: 0,
            si: 0,
            so: 0,
        }
    }

    // A clock that counts: the eighth completes the byte.
    fn clock(self, si: bool, so: bool) -> Turn<FlashBits>
        ensures { result ≡ flash_clock self si so }
    {
        let si_bits = crate::push_bit(self.si, si);
        let so_bits = crate::push_bit(self.so, so);
        if self.count < 7 {
            let more = FlashBits {
                count: self.count + 1,
                si: si_bits,
                so: so_bits,
            };
            return Turn {
                bits: more,
                out: Out::Nothing,
            };
        }
        Turn {
            bits: FlashBits::none(),
            out: Out::One(Event::Flash(FlashEvent::Byte(si_bits, so_bits))),
        }
    }

    // CS rises: a part of a byte is cut, whatever HOLD is.
    fn ends(self) -> Turn<FlashBits>
        ensures { result ≡ flash_ends self }
    {
        let cut = Event::Flash(FlashEvent::Cut);
        let des = Event::Flash(FlashEvent::Deselect);
        Turn {
            bits: FlashBits::none(),
            out: if self.count == 0 {
                Out::One(des)
            } else {
                Out::Two(cut, des)
            },
        }
    }

    // CS is low: the clock counts where it rises and HOLD is high.
    fn low(self, before: Spi, after: Spi) -> Turn<FlashBits>
        ensures { result ≡ flash_low self before after }
    {
        if level::rises(before.sck, after.sck) && after.hold {
            return self.clock(after.si, after.so);
        }
        Turn {
            bits: self,
            out: Out::Nothing,
        }
    }

    // From one line of the capture to the next.
    pub fn turn(self, before: Spi, after: Spi) -> Turn<FlashBits>
        ensures { result ≡ flash_turn self before after }
    {
        if level::falls(before.cs, after.cs) {
            return Turn {
                bits: FlashBits::none(),
                out: Out::One(Event::Flash(FlashEvent::Select)),
            };
        }
        if level::rises(before.cs, after.cs) {
            return self.ends();
        }
        if after.cs {
            return Turn {
                bits: self,
                out: Out::Nothing,
            };
        }
        self.low(before, after)
    }
}

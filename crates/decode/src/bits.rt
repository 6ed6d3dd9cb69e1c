// Either bus by itself: the bits so far of the one that is decoded.
// Kept: an enum of both decoders and no trait, since the new form is no plainer: weave's feeds hold either, and what is proved of a capture's records is said once of this type; under a trait each of them is generic.
ghost use Rattle.std.specs.Prelude.{◌≡◌};
ghost use Rattle.decode.specs.Decoded.{flash_start, wires_start, turn_of};

use crate::{FlashBits, Turn, WireBits};
use level::Level;

#[derive(Clone, Copy, Debug, PartialEq, Eq)]
pub enum Bits {
    Flash(FlashBits),
    Wires(WireBits),
}

impl Bits {
    pub fn of_flash() -> Bits
        ensures { result ≡ flash_start }
    {
        Bits::Flash(FlashBits::none())
    }

    pub fn of_wires() -> Bits
        ensures { result ≡ wires_start }
    {
        Bits::Wires(WireBits::none())
    }

    // From one line of the capture to the next.
    pub fn turn(self, before: Level, after: Level) -> Turn<Bits>
        ensures { result ≡ turn_of self before after }
    {
        match self {
            Bits::Flash(bits) => {
                let turn = bits.turn(before.spi, after.spi);
                Turn {
                    bits: Bits::Flash(turn.bits),
                    out: turn.out,
                }
            }
            Bits::Wires(bits) => {
                let turn = bits.turn(before.wires, after.wires);
                Turn {
                    bits: Bits::Wires(turn.bits),
                    out: turn.out,
                }
            }
        }
    }
}

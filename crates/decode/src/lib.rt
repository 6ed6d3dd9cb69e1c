// Levels into events: one decoder for the flash's lines, one for the two wires, each stepped by a line of the capture and the next.
#![tactic(auto)]

ghost use Rattle.std.specs.Prelude.{◌≡◌};
ghost use Rattle.decode.specs.Bits.{pushed};

use record::Event;

mod bits;
mod flash_bits;
mod wire_bits;

pub use bits::Bits;
pub use flash_bits::FlashBits;
pub use wire_bits::{BytePart, WireBits};

// What a line of the capture gives: up to two events. Of two `cut` is the first.
#[derive(Clone, Copy, Debug, PartialEq, Eq)]
pub enum Out {
    Nothing,
    One(Event),
    Two(Event, Event),
}

// A decoder's step: the bits so far, and what the line gave.
#[derive(Clone, Copy, Debug, PartialEq, Eq)]
pub struct Turn<B> {
    pub bits: B,
    pub out: Out,
}

// A byte with one bit more behind it, most significant first; what leaves at the front is gone.
fn push_bit(byte: u8, bit: bool) -> u8
    ensures { result ≡ pushed byte bit }
{
    byte % 128 * 2 + bit as u8
}

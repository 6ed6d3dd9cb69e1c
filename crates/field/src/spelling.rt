// A line that is put together, field after field, before it is written out. What does not fit into the room is left out; no line is that long.
ghost use Rattle.std.specs.Prelude.{◌≡◌, ◌≤◌, ◌%◌, length};
ghost use Rattle.field.specs.Room.{room};
ghost use Rattle.field.specs.Decimal.{decimal};
ghost use Rattle.field.specs.Hex.{hex_digit, hex_field};
ghost use Rattle.field.specs.Spelling.{no_bytes, put_byte, put_all};

use std::marker::Model;

pub const ROOM: usize = 32;

// The first len of the bytes are the line so far.
#[derive(Drop)]
pub struct Spelling {
    bytes: [u8; ROOM],
    len: usize,
}

impl Model for Spelling {
    ghost use Rattle.std.specs.Prelude.{ℕ, List, take};

    ghost Value = { List ℕ };

    ghost view = { λ s. take s.len s.bytes };
}

impl Spelling {
    pub fn new() -> Self
        ensures { result ≡ no_bytes }
    {
        Spelling {
            bytes: [0; ROOM],
            len: 0,
        }
    }

    // The line so far.
    pub fn as_slice(&self) -> &[u8]
        ensures held { result.now ≡ self.now }
        ensures fits { length self.now ≤ room }
    {
        &self.bytes[..self.len.min(ROOM)]
    }

    // The part of the word that fits is copied in place: the spelling is copied for no byte.
    #[tactic(auto, using(crate::proofs::SpellingLaws::put_within))]
    pub fn word(mut self, word: &[u8]) -> Self
        ensures { result ≡ put_all self word.now }
    {
        let from = self.len.min(ROOM);
        let n = word.len().min(ROOM - from);
        self.bytes[from..from + n].copy_from_slice(&word[..n]);
        self.len = from + n;
        self
    }

    fn byte(mut self, byte: u8) -> Self
        ensures { result ≡ put_byte self byte }
    {
        if self.len < ROOM {
            self.bytes[self.len] = byte;
            self.len += 1;
        }
        self
    }

    #[tactic(auto, using(crate::proofs::SpellingLaws::put_last, crate::proofs::SpellingLaws::put_digits))]
    pub fn decimal(self, value: u32) -> Self
        ensures { result ≡ put_all self (decimal value) }
    {
        let last = b'0' + (value % 10) as u8;
        if value < 10 {
            return self.byte(last);
        }
        self.decimal(value / 10).byte(last)
    }

    #[tactic(auto, using(crate::proofs::SpellingLaws::put_hex))]
    pub fn hex(self, x: u8) -> Self
        ensures { result ≡ put_all self (hex_field x) }
    {
        self.byte(hex_digit(x / 16)).byte(hex_digit(x))
    }
}

// 0 to 9, then a to f; only the low four bits count.
#[tactic(auto, unfolding(crate::specs::Hex::hex_digit))]
fn hex_digit(d: u8) -> u8
    ensures { result ≡ hex_digit (d % 16) }
{
    let low = d % 16;
    if low < 10 {
        b'0' + low
    } else {
        b'a' + (low - 10)
    }
}

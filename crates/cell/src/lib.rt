// One kept byte: its value, and a mask of the bits that are in doubt. A doubtful bit is 0 in the value.
#![tactic(auto)]

ghost use Rattle.std.specs.Prelude.{◌≡◌};
ghost use Rattle.cell.specs.Rules.{erased_cell, doubtful_cell, stored_cell, programmed_cell, cut_cell, agrees_cell};

#[derive(Clone, Copy, Debug, PartialEq, Eq)]
pub struct Cell {
    pub value: u8,
    pub mask: u8,
}

// After an erase that ended.
pub fn erased() -> Cell
    ensures { result ≡ erased_cell }
{
    Cell {
        value: 255,
        mask: 0,
    }
}

// Nothing is known of it.
pub fn doubtful() -> Cell
    ensures { result ≡ doubtful_cell }
{
    Cell {
        value: 0,
        mask: 255,
    }
}

// The EEPROM's byte d after its cycle ended.
pub fn stored(d: u8) -> Cell
    ensures { result ≡ stored_cell d }
{
    Cell { value: d, mask: 0 }
}

// 'Flash rules': a byte under data d after a program that ended.
pub fn programmed(c: Cell, d: u8) -> Cell
    ensures { result ≡ programmed_cell c d }
{
    let Cell { value: v, mask: m } = c;
    Cell {
        value: v & d, // a 0 stays 0
        mask: m & d, // a bit that d clears is sure
    }
}

// 'Supply': a flash byte under data d after a program that was cut.
pub fn cut_program(c: Cell, d: u8) -> Cell
    ensures { result ≡ cut_cell c d }
{
    let Cell { value: v, mask: m } = c;
    Cell {
        value: v & d, // a bit in doubt is 0 in the value
        mask: m | (v & !d), // a bit on its way from 1 to 0 is in doubt
    }
}

// Do the sure bits agree with the byte that was recorded?
pub fn agrees(c: Cell, seen: u8) -> bool
    ensures { result ≡ agrees_cell c seen }
{
    seen & !c.mask == c.value & !c.mask
}

// A level line is read as a decimal and then seven times one digit with the byte that ends its field: short tests on plain bytes, since a capture has thousands of lines.
// A refused level line is told by its number alone, so nothing is said of its fields.
ghost use Rattle.level.specs.Readers.{ReadsFlag, ReadsSpi, ReadsWires};
ghost use Rattle.level.specs.Spelled.{ReadsLevel};

use crate::{Level, Spi, Wires};
use field::{Cursor, FieldEnd};

// 0 or 1, and then the byte that ends the field; with the place after it. A call for each of the seven flags of a line makes its reading a fifth longer.
#[inline(always)]
fn read_flag(text: &[u8], c: Cursor, end: u8) -> Option<(bool, Cursor)>
    ensures { ReadsFlag end text.now c.at result }
{
    let at = c.at;
    if text.len() <= at {
        return None;
    }
    if text.len() - at < 2 {
        return None;
    }
    if text[at + 1] != end {
        return None;
    }
    if text[at] == b'0' {
        return Some((false, Cursor { at: at + 2 }));
    }
    if text[at] == b'1' {
        return Some((true, Cursor { at: at + 2 }));
    }
    None
}

fn read_spi(text: &[u8], c: Cursor) -> Option<(Spi, Cursor)>
    ensures { ReadsSpi text.now c.at result }
{
    let (cs, c1) = read_flag(text, c, b'\t')?;
    let (sck, c2) = read_flag(text, c1, b'\t')?;
    let (si, c3) = read_flag(text, c2, b'\t')?;
    let (so, c4) = read_flag(text, c3, b'\t')?;
    let (hold, c5) = read_flag(text, c4, b'\t')?;
    let spi = Spi {
        cs,
        sck,
        si,
        so,
        hold,
    };
    Some((spi, c5))
}

fn read_wires(text: &[u8], c: Cursor) -> Option<(Wires, Cursor)>
    ensures { ReadsWires text.now c.at result }
{
    let (scl, c1) = read_flag(text, c, b'\t')?;
    let (sda, c2) = read_flag(text, c1, b'\n')?;
    Some((Wires { scl, sda }, c2))
}

// The level line that stands at a place, with the place after its LF.
pub fn read_level(text: &[u8], c: Cursor) -> Option<(Level, Cursor)>
    ensures { ReadsLevel text.now c.at result }
{
    let Ok((stamp, c1)) = field::read_decimal(text, c, 1) else {
        return None;
    };
    let Ok(c2) = field::read_end(text, c1, FieldEnd::Tab, 1) else {
        return None;
    };
    let (spi, c3) = read_spi(text, c2)?;
    let (wires, c4) = read_wires(text, c3)?;
    Some((Level { stamp, spi, wires }, c4))
}

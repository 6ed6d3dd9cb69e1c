// One line of the analyser's capture (document 02, request 4/12): a stamp, then the levels of CS, SCK, SI, SO, HOLD, SCL and SDA; and what two lines in turn must not show.
#![tactic(auto)]

ghost use Rattle.std.specs.Prelude.{◌≡◌};
ghost use Rattle.level.specs.Rest.{falls, rises, changes, resting, spi_clash, wires_clash, clash};

mod reader;

pub use reader::read_level;

// The flash's four lines, and HOLD.
#[derive(Clone, Copy, Debug, PartialEq, Eq)]
pub struct Spi {
    pub cs: bool,
    pub sck: bool,
    pub si: bool,
    pub so: bool,
    pub hold: bool,
}

// The two wires of the EEPROM.
#[derive(Clone, Copy, Debug, PartialEq, Eq)]
pub struct Wires {
    pub scl: bool,
    pub sda: bool,
}

#[derive(Clone, Copy, Debug, PartialEq, Eq)]
pub struct Level {
    pub stamp: u32,
    pub spi: Spi,
    pub wires: Wires,
}

// From 1 on one line to 0 on the next.
pub fn falls(a: bool, b: bool) -> bool
    ensures { result ≡ falls a b }
{
    a && !b
}

// From 0 on one line to 1 on the next.
pub fn rises(a: bool, b: bool) -> bool
    ensures { result ≡ rises a b }
{
    !a && b
}

fn changes(a: bool, b: bool) -> bool
    ensures { result ≡ changes a b }
{
    a != b
}

// Whether both buses rest: CS, HOLD, SCL and SDA at 1, SCK at 0.
pub fn rests(l: Level) -> bool
    ensures { result ≡ resting l }
{
    l.spi.cs && l.spi.hold && l.wires.scl && l.wires.sda && !l.spi.sck
}

// Whether SCK changes together with CS, SI or HOLD.
fn spi_clashes(a: Spi, b: Spi) -> bool
    ensures { result ≡ spi_clash a b }
{
    changes(a.sck, b.sck) && (changes(a.cs, b.cs) || changes(a.si, b.si) || changes(a.hold, b.hold))
}

// Whether SCL changes together with SDA.
fn wires_clash(a: Wires, b: Wires) -> bool
    ensures { result ≡ wires_clash a b }
{
    changes(a.scl, b.scl) && changes(a.sda, b.sda)
}

// Refusal 13, of one line and the next.
pub fn clashes(a: Level, b: Level) -> bool
    ensures { result ≡ clash a b }
{
    spi_clashes(a.spi, b.spi) || wires_clash(a.wires, b.wires)
}

// Op-codes, sectors and the status bits (document 01, 'Flash rules').
ghost use Rattle.std.specs.Prelude.{◌≡◌};
ghost use Rattle.flash.specs.Code.{decode_of, sector_of, kept_bits, with_enable};

use crate::Op;

// The instruction of an op-code. Bit 3 is don't care.
pub(crate) fn decode(b: u8) -> Option<Op>
    ensures { result ≡ decode_of b }
{
    match b / 16 * 16 + b % 8 {
        0x06 => Some(Op::WriteEnable),
        0x04 => Some(Op::WriteDisable),
        0x05 => Some(Op::ReadStatus),
        0x01 => Some(Op::WriteStatus),
        0x03 => Some(Op::Read),
        0x02 => Some(Op::Program),
        0x52 => Some(Op::SectorErase),
        0x62 => Some(Op::ChipErase),
        0x15 => Some(Op::Identify),
        _ => None,
    }
}

// The sector of a place, 1 to 4.
pub(crate) fn sector_of(place: u32) -> u8
    ensures { result ≡ sector_of place }
{
    (place / page::FLASH_SECTOR % page::FLASH_SECTORS + 1) as u8
}

// Bits 7, 3 and 2 of a byte: what WRSR sets, and what a status keeps when write enable goes off.
pub(crate) fn kept_bits(b: u8) -> u8
    ensures { result ≡ kept_bits b }
{
    b / 128 * 128 + b / 4 % 4 * 4
}

// A status byte with write enable, bit 1, on.
pub(crate) fn with_enable(status: u8) -> u8
    ensures { result ≡ with_enable status }
{
    kept_bits(status) + 2
}

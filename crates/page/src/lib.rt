// The chips' geometry; the place after one, in a page and in a whole chip.
#![tactic(auto)]

ghost use Rattle.std.specs.Prelude.{◌≡◌, ◌≤◌};
ghost use Rattle.page.specs.Rolling.{rolled_in};

// The flash: 256 bytes to a page, 32,768 to a sector.
pub const FLASH_PAGE: u32 = 256;

pub const FLASH_SECTOR: u32 = 0x8000;

pub const FLASH_SECTORS: u32 = 4;

pub const FLASH_SIZE: u32 = FLASH_SECTORS * FLASH_SECTOR;

pub const SECTOR_PAGES: u32 = FLASH_SECTOR / FLASH_PAGE;

pub const CHIP_PAGES: u32 = FLASH_SECTORS * SECTOR_PAGES;

// The EEPROM: 64 bytes to a page, 32,768 in all.
pub const EEPROM_PAGE: u32 = 64;

pub const EEPROM_SIZE: u32 = 0x8000;

// The place after one where `last` is the last place, of a page or of a chip.
pub fn rolled(at: u32, last: u32) -> u32
    ensures value { result ≡ rolled_in last at }
    ensures upper_bound { result ≤ last }
{
    if at < last { at + 1 } else { 0 }
}

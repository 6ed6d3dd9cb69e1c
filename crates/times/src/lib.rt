// The last writing time of each page (document 02, request 1/12): which pages a cycle touches, and the table that a caller lends for the times.
#![tactic(auto)]

ghost use Rattle.std.specs.Prelude.{◌≡◌};
ghost use Rattle.times.specs.Times.{written, pages_of, first_entry, entry_bytes};
ghost use Rattle.times.specs.Put.{entries_with, pages_with, times_with};

use record::Chip;

// Which of the pages that are kept of a chip are touched.
#[derive(Clone, Copy, Debug, PartialEq, Eq)]
pub enum Pages {
    None,
    One(u32),
    All,
}

// Of both chips.
#[derive(Clone, Copy, Debug, PartialEq, Eq)]
pub struct Touched {
    pub flash: Pages,
    pub eeprom: Pages,
}

// A mark, and four stamp bytes.
pub const ENTRY: usize = 5;

pub const FLASH_PAGES: u32 = page::SECTOR_PAGES;

pub const EEPROM_PAGES: u32 = page::EEPROM_SIZE / page::EEPROM_PAGE;

pub const ENTRIES: u32 = FLASH_PAGES + EEPROM_PAGES;

pub const TIMES: usize = ENTRY * ENTRIES as usize;

// How many pages are kept of a chip.
pub fn pages_of(chip: Chip) -> u32
    ensures { result ≡ pages_of chip }
{
    match chip {
        Chip::Flash => FLASH_PAGES,
        Chip::Eeprom => EEPROM_PAGES,
    }
}

// The entry of a chip's page 0: the flash's stand first.
pub fn first_entry(chip: Chip) -> u32
    ensures { result ≡ first_entry chip }
{
    match chip {
        Chip::Flash => 0,
        Chip::Eeprom => FLASH_PAGES,
    }
}

// The entry of a page that was written at the stamp.
fn entry_at(stamp: u32) -> [u8; ENTRY]
    ensures { result ≡ entry_bytes (written stamp) }
{
    let [lowest, low, high, highest] = stamp.to_le_bytes();
    [1, lowest, low, high, highest]
}

// `many` entries from the entry `first` on are written at the stamp; what would stand past the table is left out.
fn write_entries(table: &mut [u8], first: u32, many: u32, stamp: u32)
    ensures { table.new ≡ entries_with first many stamp table.old }
{
    let entry = entry_at(stamp);
    let from = ENTRY * first as usize;
    let end = ENTRY * (first as usize + many as usize);
    for k in from..end.min(table.len()) {
        table[k] = entry[k % ENTRY];
    }
}

// The pages of one chip; a page that the chip has not is left out.
fn put_pages(table: &mut [u8], chip: Chip, stamp: u32, pages: Pages)
    ensures { table.new ≡ pages_with chip stamp pages table.old }
{
    match pages {
        Pages::None => {}
        Pages::One(n) => {
            if n < pages_of(chip) {
                write_entries(table, first_entry(chip) + n, 1, stamp);
            }
        }
        Pages::All => write_entries(table, first_entry(chip), pages_of(chip), stamp),
    }
}

// Both chips' pages that a record of this stamp touches.
#[tactic(auto, unfolding(crate::specs::Put::times_with))]
pub fn put_times(table: &mut [u8], stamp: u32, touched: Touched)
    ensures { table.new ≡ times_with stamp touched table.old }
{
    let Touched { flash, eeprom } = touched;
    put_pages(table, Chip::Flash, stamp, flash);
    put_pages(table, Chip::Eeprom, stamp, eeprom);
}

// The places that a write is for (document 01, 'EEPROM rules', Write).
ghost use Rattle.std.specs.Prelude.{◌≡◌};
ghost use Rattle.eeprom.specs.Write.{next_in_page, put_byte, counted, sent_by};

use crate::{EepromPage, Sent};

// The place after one, in the page's own rolling.
pub(crate) fn next_in_page(place: u32) -> u32
    ensures { result ≡ next_in_page place }
{
    place / page::EEPROM_PAGE * page::EEPROM_PAGE
        + page::rolled(place % page::EEPROM_PAGE, page::EEPROM_PAGE - 1)
}

// A later byte for a place replaces the earlier.
pub(crate) fn put_byte(place: u32, b: u8, bytes: EepromPage) -> EepromPage
    ensures { result ≡ put_byte place b bytes }
{
    let mut next = bytes;
    let at = (place % page::EEPROM_PAGE) as usize;
    next[at] = b;
    next
}

// One data byte more.
pub(crate) fn one_more(count: u32) -> u32
    ensures { result ≡ counted count }
{
    if count < page::EEPROM_PAGE {
        count + 1
    } else {
        page::EEPROM_PAGE
    }
}

// The places of so many data bytes, by the next one's place.
pub(crate) fn sent_by(next: u32, count: u32) -> Sent
    ensures { result ≡ sent_by next count }
{
    let first = if count < page::EEPROM_PAGE {
        (next % page::EEPROM_PAGE + (page::EEPROM_PAGE - count)) % page::EEPROM_PAGE
    } else {
        0
    };
    Sent {
        page: next / page::EEPROM_PAGE,
        first,
        count,
    }
}

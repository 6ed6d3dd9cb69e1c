// The page view: a page of the flash image or of the EEPROM image as a part of it, not a copy.
ghost use Rattle.std.specs.Prelude.{◌≡◌};
ghost use Rattle.image.specs.Images.{per_chip, page_size};
ghost use Rattle.image.specs.View.{can_show, view_place, view_length, Shows};

use record::Chip;

// Kept: `view` promises `Shows`, whose part is empty on refusal 11; the C interface asks place and length as numbers.
// Page `number` of the image asked for. The empty part is refusal 11: no page is empty.
pub fn view<'a>(flash: &'a [u8], eeprom: &'a [u8], chip: Chip, number: usize) -> &'a [u8]
    ensures { Shows (per_chip flash.entry eeprom.entry) chip number result }
{
    let from = view_place(flash.len(), eeprom.len(), chip, number);
    let to = from + view_length(flash.len(), eeprom.len(), chip, number);
    match chip {
        Chip::Flash => &flash[from..to],
        Chip::Eeprom => &eeprom[from..to],
    }
}

// For a caller that can be given no part: where in its image the page stands, by the lengths of the two images.
#[tactic(auto, unfolding(crate::specs::View::view_place))]
pub fn view_place(flash: usize, eeprom: usize, chip: Chip, number: usize) -> usize
    ensures { result ≡ view_place (per_chip flash eeprom) chip number }
{
    if can_show(flash, eeprom, chip, number) {
        page_size(chip) * number
    } else {
        0
    }
}

// And how long it is: 0 is refusal 11.
#[tactic(auto, unfolding(crate::specs::View::view_length))]
pub fn view_length(flash: usize, eeprom: usize, chip: Chip, number: usize) -> usize
    ensures { result ≡ view_length (per_chip flash eeprom) chip number }
{
    if can_show(flash, eeprom, chip, number) {
        page_size(chip)
    } else {
        0
    }
}

// Both images have to be whole, whichever is asked for.
fn can_show(flash: usize, eeprom: usize, chip: Chip, number: usize) -> bool
    ensures { result ≡ can_show (per_chip flash eeprom) chip number }
{
    flash == crate::kept_bytes(Chip::Flash)
        && eeprom == crate::kept_bytes(Chip::Eeprom)
        && number < crate::kept_bytes(chip) / page_size(chip)
}

fn page_size(chip: Chip) -> usize
    ensures { result ≡ page_size chip }
{
    match chip {
        Chip::Flash => page::FLASH_PAGE as usize,
        Chip::Eeprom => page::EEPROM_PAGE as usize,
    }
}

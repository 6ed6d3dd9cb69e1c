// The kept bytes of one chip, lent as values and masks of doubtful bits: what a cycle makes of them, whole or cut by the supply.
// An image has its own length. Values and masks of two lengths, and a page number that no page has, are left alone.
#![tactic(auto)]

ghost use Rattle.std.specs.Prelude.{ℕ, ◌≡◌, ◌+◌, ◌*◌, ◌≤◌, ◌<◌, length};
ghost use Rattle.page.specs.Geometry.{flash_page, eeprom_page};
ghost use Rattle.page.specs.Rolling.{sent_place};
ghost use Rattle.image.specs.Image.{image_of, each_place, on_image, in_page, on_page};
ghost use Rattle.image.specs.Images.{kept_bytes};
ghost use Rattle.image.specs.Cycles.{program_page, cut_program_page, erase_all, cut_erase_all, store_page, cut_store_page};
ghost use Rattle.cell.specs.declared.Cell.{Cell};
ghost use Rattle.image.specs.Changing.{Takes, Follows, changed_place};

use cell::Cell;
use record::Chip;

pub mod view;

const FLASH_PAGE: usize = page::FLASH_PAGE as usize;

const EEPROM_PAGE: usize = page::EEPROM_PAGE as usize;

// How many bytes are kept: of the flash one sector, of the EEPROM all.
pub const FLASH_KEPT: usize = page::FLASH_SECTOR as usize;

pub const EEPROM_KEPT: usize = page::EEPROM_SIZE as usize;

// What refusals 1 and 11 ask for.
pub fn kept_bytes(chip: Chip) -> usize
    ensures { result ≡ kept_bytes chip }
{
    match chip {
        Chip::Flash => FLASH_KEPT,
        Chip::Eeprom => EEPROM_KEPT,
    }
}

// Kept: the C interface lends values and masks as two buffers, so each function takes the two.
// The end of PROGRAM in page `number`: `bytes` is ff where nothing was sent.
#[tactic(auto, unfolding(crate::specs::Cycles::program_page))]
pub fn program_page(values: &mut [u8], masks: &mut [u8], number: usize, bytes: [u8; FLASH_PAGE])
    ensures { image_of values.new masks.new ≡ program_page number bytes (image_of values.old masks.old) }
{
    change_page(
        values,
        masks,
        |_, c, d| cell::programmed(c, d),
        number,
        &bytes,
    );
}

// PROGRAM in page `number`, cut by the supply.
#[tactic(auto, unfolding(crate::specs::Cycles::cut_program_page))]
pub fn cut_program_page(values: &mut [u8], masks: &mut [u8], number: usize, bytes: [u8; FLASH_PAGE])
    ensures { image_of values.new masks.new ≡ cut_program_page number bytes (image_of values.old masks.old) }
{
    change_page(
        values,
        masks,
        |_, c, d| cell::cut_program(c, d),
        number,
        &bytes,
    );
}

// The end of an erase.
#[tactic(auto, unfolding(crate::specs::Cycles::erase_all))]
pub fn erase(values: &mut [u8], masks: &mut [u8])
    ensures { image_of values.new masks.new ≡ erase_all (image_of values.old masks.old) }
{
    fill_both(values, masks, cell::erased());
}

// An erase, cut by the supply.
#[tactic(auto, unfolding(crate::specs::Cycles::cut_erase_all))]
pub fn cut_erase(values: &mut [u8], masks: &mut [u8])
    ensures { image_of values.new masks.new ≡ cut_erase_all (image_of values.old masks.old) }
{
    fill_both(values, masks, cell::doubtful());
}

// The end of an EEPROM write in page `number`: `count` bytes were sent from place `first` on.
#[tactic(auto, unfolding(crate::specs::Cycles::store_page))]
pub fn store_page(
    values: &mut [u8],
    masks: &mut [u8],
    number: usize,
    first: usize,
    count: usize,
    bytes: [u8; EEPROM_PAGE],
)
    ensures { image_of values.new masks.new ≡ store_page number first count bytes (image_of values.old masks.old) }
{
    change_page(
        values,
        masks,
        |q, c, d| if sent(first, count, q) {
            cell::stored(d)
        } else {
            c
        },
        number,
        &bytes,
    );
}

// An EEPROM write in page `number`, cut by the supply: it leaves the whole page in doubt, so which bytes were sent is not asked.
#[tactic(auto, unfolding(crate::specs::Cycles::cut_store_page))]
pub fn cut_store_page(values: &mut [u8], masks: &mut [u8], number: usize)
    ensures { image_of values.new masks.new ≡ cut_store_page number (image_of values.old masks.old) }
{
    // No data is put in: only the page's length counts.
    let page = [0u8; EEPROM_PAGE];
    change_page(values, masks, |_, _, _| cell::doubtful(), number, &page);
}

// Was place q of an EEPROM page sent, in the page's own rolling?
fn sent(first: usize, count: usize, q: usize) -> bool
    requires { q < flash_page }
    ensures { result ≡ sent_place eeprom_page first count q }
{
    if first < EEPROM_PAGE {
        (q + (EEPROM_PAGE - first)) % EEPROM_PAGE < count
    } else {
        q % EEPROM_PAGE < count
    }
}

// A page of an image, if the image has as many masks as values, and that page. The page is as long as its data. Of each of its places, of the kept byte there and of
// its data the step makes what the cycle leaves.
fn change_page<F: Fn(usize, Cell, u8) -> Cell>(
    values: &mut [u8],
    masks: &mut [u8],
    step: F,
    number: usize,
    bytes: &[u8],
)
    ghost rule: { ℕ → Cell → ℕ → Cell }
    requires size { (0 < length bytes.now) × (length bytes.now ≤ flash_page) }
    requires callable { Takes (F.pre step) }
    requires follows { Follows (F.post step) rule }
    ensures { image_of values.new masks.new ≡ on_page (length bytes.now) number (changed_place rule bytes.now) (image_of values.old masks.old) }
{
    if values.len() / bytes.len() <= number {
        return;
    }
    if masks.len() != values.len() {
        return;
    }
    change_places(values, masks, step, number, bytes);
}

// The places of the page, one after the other.
fn change_places<F: Fn(usize, Cell, u8) -> Cell>(
    values: &mut [u8],
    masks: &mut [u8],
    step: F,
    number: usize,
    bytes: &[u8],
)
    ghost rule: { ℕ → Cell → ℕ → Cell }
    requires size { (length masks.old ≡ length values.old) × (0 < length bytes.now) × (length bytes.now ≤ flash_page) × (length bytes.now * number + length bytes.now ≤ length values.old) }
    requires callable { Takes (F.pre step) }
    requires follows { Follows (F.post step) rule }
    ensures { image_of values.new masks.new ≡ each_place (in_page (length bytes.now) number (changed_place rule bytes.now)) (image_of values.old masks.old) }
{
    let base = bytes.len() * number;
    for (q, &d) in bytes.iter().enumerate() {
        let k = base + q;
        let c = Cell {
            value: values[k],
            mask: masks[k],
        };
        let n = step(q, c, d);
        values[k] = n.value;
        masks[k] = n.mask;
    }
}

// Every kept byte of an image with as many masks as values is c.
fn fill_both(values: &mut [u8], masks: &mut [u8], c: Cell)
    ensures { image_of values.new masks.new ≡ on_image (λ k b. c) (image_of values.old masks.old) }
{
    if masks.len() != values.len() {
        return;
    }
    values.fill(c.value);
    masks.fill(c.mask);
}

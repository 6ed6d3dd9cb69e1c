// What a record does to the chips' cycles, which pages it touches so, and what becomes of the images there.
ghost use Rattle.std.specs.Prelude.{◌≡◌};
ghost use Rattle.image.specs.Image.{image_of};
ghost use Rattle.times.specs.Times.{on_pages};
ghost use Rattle.machine.specs.Touching.{Touches};
ghost use Rattle.machine.specs.Effects.{stroke_of, line_stroke, stroke_for, reached, flash_pages, eeprom_pages, stroke_pages, program_by, erase_by, sent_in, store_by};

use eeprom::{Eeprom, Sent};
use flash::{Flash, FlashCycle};
use record::{Chip, Event, LineEvent, Lines, Skeleton};
use times::Pages;

// What a record does to a chip's cycle.
#[derive(Clone, Copy)]
pub enum Stroke {
    Nothing,
    Whole,
    Cut,
}

fn stroke_of(k: Skeleton) -> Stroke
    ensures { result ≡ stroke_of k }
{
    match k {
        Skeleton::Ends => Stroke::Whole,
        _ => Stroke::Nothing,
    }
}

fn line_stroke(lines: Lines, e: LineEvent) -> Stroke
    ensures { result ≡ line_stroke lines e }
{
    if record::goes_off(lines, e) {
        Stroke::Cut
    } else {
        Stroke::Nothing
    }
}

// What a record, with its reply, does to the chip's cycle.
pub(crate) fn stroke_for(chip: Chip, lines: Lines, event: Event, k: Skeleton) -> Stroke
    ensures { result ≡ stroke_for chip lines event k }
{
    match (event, chip) {
        (Event::Flash(_), Chip::Flash) | (Event::Eeprom(_), Chip::Eeprom) => stroke_of(k),
        (Event::Flash(_), Chip::Eeprom) | (Event::Eeprom(_), Chip::Flash) => Stroke::Nothing,
        (Event::Line(e), _) => line_stroke(lines, e),
    }
}

// Whether a chip erase under this status clears the watched sector.
fn reaches(status: Option<u8>, watched: u8) -> bool
    ensures { result ≡ reached status watched }
{
    match status {
        None => true,
        Some(s) => !flash::sector_locked(s, watched),
    }
}

// Which of the kept pages the flash's cycle touches.
fn flash_pages(watched: u8, cycle: Option<FlashCycle>, status: Option<u8>) -> Pages
    ensures { result ≡ flash_pages watched cycle status }
{
    match cycle {
        Some(FlashCycle::Program(n)) if n / page::SECTOR_PAGES + 1 == u32::from(watched) => {
            Pages::One(n % page::SECTOR_PAGES)
        }
        Some(FlashCycle::SectorErase(sector)) if sector == watched => Pages::All,
        Some(FlashCycle::ChipErase) if reaches(status, watched) => Pages::All,
        _ => Pages::None,
    }
}

// And the EEPROM's.
fn eeprom_pages(cycle: Option<Sent>) -> Pages
    ensures { result ≡ eeprom_pages cycle }
{
    match cycle {
        None => Pages::None,
        Some(sent) => Pages::One(sent.page),
    }
}

// A stroke touches the pages of the cycle that it ends or cuts; without one they are not asked for.
fn touched<P: FnOnce() -> Pages>(stroke: Stroke, pages: P) -> Pages
    requires { P.pre pages }
    ensures { Touches stroke (P.post pages) result }
{
    match stroke {
        Stroke::Nothing => Pages::None,
        Stroke::Whole | Stroke::Cut => pages(),
    }
}

pub(crate) fn flash_touched(
    stroke: Stroke,
    watched: u8,
    cycle: Option<FlashCycle>,
    status: Option<u8>,
) -> Pages
    ensures { result ≡ stroke_pages stroke (flash_pages watched cycle status) }
{
    touched(stroke, || flash_pages(watched, cycle, status))
}

pub(crate) fn eeprom_touched(stroke: Stroke, cycle: Option<Sent>) -> Pages
    ensures { result ≡ stroke_pages stroke (eeprom_pages cycle) }
{
    touched(stroke, || eeprom_pages(cycle))
}

// What a stroke makes of the flash's image, on the pages that it touches.
pub(crate) fn change_flash(
    stroke: Stroke,
    pages: Pages,
    chip: Flash,
    values: &mut [u8],
    masks: &mut [u8],
)
    ensures { image_of values.new masks.new ≡ on_pages (program_by stroke chip.page) (erase_by stroke) pages (image_of values.old masks.old) }
{
    match (stroke, pages) {
        (Stroke::Nothing, _) | (_, Pages::None) => {}
        (Stroke::Whole, Pages::One(n)) => {
            image::program_page(values, masks, n as usize, chip.page)
        }
        (Stroke::Cut, Pages::One(n)) => {
            image::cut_program_page(values, masks, n as usize, chip.page)
        }
        (Stroke::Whole, Pages::All) => image::erase(values, masks),
        (Stroke::Cut, Pages::All) => image::cut_erase(values, masks),
    }
}

// What was sent in a write; where none runs, no page is touched either.
fn sent_in(cycle: Option<Sent>) -> Sent
    ensures { result ≡ sent_in cycle }
{
    cycle.unwrap_or(Sent {
        page: 0,
        first: 0,
        count: 0,
    })
}

// The same of the EEPROM's image; it has no erase.
pub(crate) fn change_eeprom(
    stroke: Stroke,
    pages: Pages,
    chip: Eeprom,
    values: &mut [u8],
    masks: &mut [u8],
)
    ensures { image_of values.new masks.new ≡ on_pages (store_by stroke (sent_in chip.cycle) chip.page) (λ i. i) pages (image_of values.old masks.old) }
{
    match (stroke, pages) {
        (Stroke::Whole, Pages::One(n)) => {
            let sent = sent_in(chip.cycle);
            image::store_page(
                values,
                masks,
                n as usize,
                sent.first as usize,
                sent.count as usize,
                chip.page,
            )
        }
        (Stroke::Cut, Pages::One(n)) => image::cut_store_page(values, masks, n as usize),
        (Stroke::Nothing, _) | (_, Pages::None | Pages::All) => {}
    }
}

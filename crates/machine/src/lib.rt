// One record on the machine: controls and lent images, with the reply and how it compares.
#![tactic(auto)]

ghost use Rattle.std.specs.Prelude.{◌≡◌};
ghost use Rattle.machine.specs.Lent.{images_in, Keeps};
ghost use Rattle.machine.specs.Turn.{turn, turn_of};

use controls::Controls;
use record::{Board, Chip, Record, Reply};
use times::Touched;

mod effects;
mod replies;

pub use replies::compare;

// The chips' images as a caller lends them: the values and the masks of doubtful bits of each.
#[derive(Drop)]
pub struct LentImages<'a> {
    pub flash: &'a mut [u8],
    pub flash_mask: &'a mut [u8],
    pub eeprom: &'a mut [u8],
    pub eeprom_mask: &'a mut [u8],
}

// The controls after a record, its reply, and the pages that it touches.
#[derive(Drop)]
pub struct Played {
    pub controls: Controls,
    pub reply: Reply,
    pub touched: Touched,
}

// One record, of any channel. What is read is read before the record's own effect: a record that reads ends no cycle.
pub fn play(board: Board, controls: Controls, rec: Record, images: &mut LentImages<'_>) -> Played
    ensures keeps { Keeps images.old images.new }
    ensures turns { turn result.controls (images_in images.new) result.reply result.touched
        ≡ turn_of board controls (images_in images.old) rec }
{
    let moved = controls.play(board, rec);
    let skeleton = moved.reply;
    let reply = replies::deliver_for(rec.event, images, skeleton);

    let on_flash = effects::stroke_for(Chip::Flash, controls.lines, rec.event, skeleton);
    let flash_pages = effects::flash_touched(
        on_flash,
        board.sector,
        controls.flash.cycle,
        controls.flash.status,
    );
    effects::change_flash(
        on_flash,
        flash_pages,
        controls.flash,
        images.flash,
        images.flash_mask,
    );

    let on_eeprom = effects::stroke_for(Chip::Eeprom, controls.lines, rec.event, skeleton);
    let eeprom_pages = effects::eeprom_touched(on_eeprom, controls.eeprom.cycle);
    effects::change_eeprom(
        on_eeprom,
        eeprom_pages,
        controls.eeprom,
        images.eeprom,
        images.eeprom_mask,
    );

    Played {
        controls: moved.controls,
        reply,
        touched: Touched {
            flash: flash_pages,
            eeprom: eeprom_pages,
        },
    }
}

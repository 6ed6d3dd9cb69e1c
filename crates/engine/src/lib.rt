// The second engine (document 02, request 4/12): the levels are played straight through, record by record as they arise, on the caller's own images. No trace is written and no stamp
// gathered, and no order tried.
#![tactic(auto)]

ghost use Rattle.std.specs.Prelude.{◌≡◌};
ghost use Rattle.machine.specs.Lent.{images_in, Keeps};
ghost use Rattle.engine.specs.Playing.{lent_of, played_as, Plays};
ghost use Rattle.engine.specs.Straight.{PlaysAll};

use controls::Controls;
use machine::LentImages;
use record::{Answer, Board};
use weave::Weave;

// All that is left, on the images: no more than the most that both texts can give.
fn play_all(left: Weave<'_>, board: Board, images: &mut LentImages<'_>)
    ensures keeps { Keeps images.old images.new }
    ensures plays { PlaysAll left.entry board (images_in images.old) (images_in images.new) }
{
    let mut cur = Controls::start(board);
    for rec in left.take(weave::MOST) {
        let played = machine::play(board, cur, rec, images);
        cur = played.controls;
    }
}

// Refusal 1, then both texts are judged, then played.
// Kept: a slice for each lent image, and a number for the answer, since desk_c exports the call to C.
pub fn play_levels(
    levels: &[u8],
    trace: &[u8],
    flash: &mut [u8],
    flash_mask: &mut [u8],
    eeprom: &mut [u8],
    eeprom_mask: &mut [u8],
    res: &mut [u8],
) -> u32
    ensures { Plays levels.now trace.now
        (lent_of flash.old flash_mask.old eeprom.old eeprom_mask.old res.old)
        (played_as result (lent_of flash.new flash_mask.new eeprom.new eeprom_mask.new res.new)) }
{
    if !buffers::fits_images(flash, flash_mask, eeprom, eeprom_mask, res) {
        return buffers::put_answer(res, Answer::BadBuffers.into(), 0, 0, 0);
    }
    let both = match judge::judge(levels, trace) {
        Ok(both) => both,
        Err(refused) => {
            return buffers::put_answer(res, refused.answer.into(), refused.line, 0, refused.field);
        }
    };
    let all = Weave::new(levels, trace, both.level, both.at, both.first);
    let mut images = LentImages {
        flash,
        flash_mask,
        eeprom,
        eeprom_mask,
    };
    play_all(all, both.board, &mut images);
    buffers::put_answer(res, Answer::Settled.into(), 0, 0, 0)
}

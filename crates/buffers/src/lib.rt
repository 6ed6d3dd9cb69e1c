// The lent buffers of a replay: whether they fit, and what is written to the result and to the replies; the table of times has a room of its own. And the result of a plan.
// A buffer of another length than the documents give it is left alone.
#![tactic(auto)]

ghost use Rattle.std.specs.Prelude.{◌≡◌, ◌+◌, ◌≤◌, length, replicate};
ghost use Rattle.std.proofs.lemmas.List.Edits.{sets};
ghost use Rattle.record.specs.Replies.{reply_bytes};
ghost use Rattle.record.specs.Word.{word};
ghost use Rattle.image.specs.Image.{image_of, spans};
ghost use Rattle.image.specs.Images.{images_of, kept_bytes};
ghost use Rattle.buffers.specs.Buffers.{buffers_of, clear, fit_images, fit, result_after, plan_result_after};
ghost use Rattle.buffers.specs.Put.{replies_with};

use record::{Chip, Match, Reply};

// None of the grounds of refusal 1 holds.
// Kept: the images are four slices here and below: hazelcrook_replay, which C calls, has them so, and they are asked before the machine takes them as one value.
#[tactic(auto, unfolding(crate::specs::Buffers::fit))]
pub fn fits_all(
    flash: &[u8],
    flash_mask: &[u8],
    eeprom: &[u8],
    eeprom_mask: &[u8],
    times: &[u8],
    replies: &[u8],
    res: &[u8],
) -> bool
    ensures { result ≡ fit (buffers_of flash.now flash_mask.now eeprom.now eeprom_mask.now times.now replies.now res.now) }
{
    times.len() == times::TIMES
        && replies.len() == record::REPLIES
        && fits_images(flash, flash_mask, eeprom, eeprom_mask, res)
}

// The same where only images and a result are lent.
#[tactic(auto, unfolding(crate::specs::Buffers::fit_images))]
pub fn fits_images(
    flash: &[u8],
    flash_mask: &[u8],
    eeprom: &[u8],
    eeprom_mask: &[u8],
    res: &[u8],
) -> bool
    ensures { result ≡ fit_images (images_of flash.now flash_mask.now eeprom.now eeprom_mask.now) res.now }
{
    image_fits(Chip::Flash, flash, flash_mask)
        && image_fits(Chip::Eeprom, eeprom, eeprom_mask)
        && res.len() == record::RESULT
        && is_clear(flash, flash_mask)
        && is_clear(eeprom, eeprom_mask)
}

// As many values and masks as bytes are kept of the chip.
#[tactic(auto, unfolding(image::specs::Image::spans))]
fn image_fits(chip: Chip, values: &[u8], masks: &[u8]) -> bool
    ensures { result ≡ spans (kept_bytes chip) (image_of values.now masks.now) }
{
    let kept = image::kept_bytes(chip);
    values.len() == kept && masks.len() == kept
}

// No bit is set in both. Every place is looked at: with no way out of the loop a machine tests many places at once.
fn is_clear(values: &[u8], masks: &[u8]) -> bool
    ensures { result ≡ clear values.now masks.now }
{
    values
        .iter()
        .zip(masks)
        .fold(0, |seen, (v, m)| seen | v & m)
        == 0
}

// The result: the answer's number, a line or a stamp, a count, the number of a line's first bad field.
// Kept: the answer is a number, and no enum: three enums of answers share the result's first word, and desk_c hands it to C as it is.
pub fn put_result(res: &mut [u8], answer: u32, number: usize, count: u32, field: u32)
    ensures { res.new ≡ result_after answer number count field res.old }
{
    if res.len() == record::RESULT {
        put_word(res, 0, answer as usize);
        put_word(res, 4, number);
        put_word(res, 8, count as usize);
        put_word(res, 12, field as usize);
    }
}

// The same, for a call that ends with it: the answer is given back.
pub fn put_answer(res: &mut [u8], answer: u32, number: usize, count: u32, field: u32) -> u32
    ensures { (result ≡ answer) × (res.new ≡ result_after answer number count field res.old) }
{
    put_result(res, answer, number, count, field);
    answer
}

// A plan's result: the answer's number, and how many entries the list has.
pub fn put_plan_result(res: &mut [u8], answer: u32, number: u32)
    ensures { res.new ≡ plan_result_after answer number res.old }
{
    if res.len() == record::PLAN_RESULT {
        put_word(res, 0, answer as usize);
        put_word(res, 4, number as usize);
    }
}

// Nothing is written yet, and nothing replied: all of s is 0.
pub fn clear_all(s: &mut [u8])
    ensures { s.new ≡ replicate (length s.old) 0 }
{
    s.fill(0);
}

// The reply of record `number`, counted from 0.
pub fn put_reply(replies: &mut [u8], number: usize, reply: Reply, m: Match)
    ensures { replies.new ≡ replies_with number (reply_bytes reply m) replies.old }
{
    if number < record::REPLY_PLACES && replies.len() == record::REPLIES {
        put_four(replies, 4 * number, reply.bytes(m));
    }
}

// A number's four low bytes, the lowest first.
fn put_word(s: &mut [u8], at: usize, a: usize)
    requires { at + 4 ≤ length s.old }
    ensures { s.new ≡ sets s.old at (word a) }
{
    let [a0, a1, a2, a3, ..] = a.to_le_bytes();
    put_four(s, at, [a0, a1, a2, a3]);
}

// Four bytes, one after the other.
fn put_four(s: &mut [u8], at: usize, bytes: [u8; 4])
    requires { at + 4 ≤ length s.old }
    ensures { s.new ≡ sets s.old at bytes }
{
    s[at..at + 4].copy_from_slice(&bytes);
}

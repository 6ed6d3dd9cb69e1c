// A reply as it is delivered from an image, and how it compares with what was recorded.
ghost use Rattle.std.specs.Prelude.{◌≡◌, get_or};
ghost use Rattle.image.specs.Image.{image_of};
ghost use Rattle.machine.specs.Replies.{delivered, agrees_if, compared_byte, compared_to, flash_seen, eeprom_seen, compared};
ghost use Rattle.machine.specs.Machine.{image_for};
ghost use Rattle.machine.specs.Lent.{images_in};

use crate::LentImages;
use cell::Cell;
use record::{EepromEvent, Event, FlashEvent, Match, Reply, Skeleton};

// The element at a place, 0 outside.
fn element(list: &[u8], p: u32) -> u8
    ensures { result ≡ get_or list.now p 0 }
{
    list.get(p as usize).copied().unwrap_or(0)
}

// A reply as it is delivered from an image.
#[tactic(auto, unfolding(crate::specs::Replies::delivered))]
fn deliver(values: &[u8], masks: &[u8], k: Skeleton) -> Reply
    ensures { result ≡ delivered (image_of values.now masks.now) k }
{
    match k {
        Skeleton::Silent => Reply::Silent,
        Skeleton::Given(b) => Reply::Byte(b, 0),
        Skeleton::Fetch(p) => Reply::Byte(element(values, p), element(masks, p)),
        Skeleton::Ack => Reply::Ack,
        Skeleton::NoAck => Reply::NoAck,
        Skeleton::Starts => Reply::Starts,
        Skeleton::Ends => Reply::Ends,
        Skeleton::NoCycle => Reply::NoCycle,
    }
}

pub(crate) fn deliver_for(event: Event, images: &LentImages<'_>, k: Skeleton) -> Reply
    ensures { result ≡ delivered (image_for event (images_in images.now)) k }
{
    match event {
        Event::Flash(_) | Event::Line(_) => deliver(images.flash, images.flash_mask, k),
        Event::Eeprom(_) => deliver(images.eeprom, images.eeprom_mask, k),
    }
}

// Agrees where the flag holds, else disagrees.
fn agrees_if(flag: bool) -> Match
    ensures { result ≡ agrees_if flag }
{
    if flag {
        Match::Agrees
    } else {
        Match::Disagrees
    }
}

fn compare_byte(value: u8, mask: u8, seen: u8) -> Match
    ensures { result ≡ compared_byte value mask seen }
{
    if mask == 255 {
        Match::Nothing
    } else {
        agrees_if(cell::agrees(Cell { value, mask }, seen))
    }
}

fn compare_to(seen: u8, ack: Match, lack: Match, reply: Reply) -> Match
    ensures { result ≡ compared_to seen ack lack reply }
{
    match reply {
        Reply::Byte(value, mask) => compare_byte(value, mask, seen),
        Reply::Ack => ack,
        Reply::NoAck => lack,
        _ => Match::Nothing,
    }
}

// How the reply to an event compares with what was recorded.
#[tactic(auto, unfolding(crate::specs::Replies::compared))]
pub fn compare(event: Event, reply: Reply) -> Match
    ensures { result ≡ compared event reply }
{
    match event {
        Event::Flash(FlashEvent::Byte(_, so)) => compare_to(
            so,
            Match::Nothing,
            Match::Nothing,
            reply,
        ),
        Event::Eeprom(EepromEvent::Byte(b, bit)) => {
            compare_to(b, agrees_if(!bit), agrees_if(bit), reply)
        }
        _ => Match::Nothing,
    }
}

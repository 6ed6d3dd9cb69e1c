// Frames, cycles and counters by themselves (document 01, 'EEPROM rules').
ghost use Rattle.std.specs.Prelude.{◌≡◌};
ghost use Rattle.eeprom.specs.Chip.{running_of, page_in, place_of};
ghost use Rattle.eeprom.specs.Frame.{own_address, opened_by, fetch_of, moved_on, after_read};
ghost use Rattle.eeprom.specs.Step.{voided_by};

use crate::{BLANK, EepromFrame, EepromPage, Sent};
use record::Skeleton;

pub(crate) fn running(cycle: Option<Sent>) -> bool
    ensures { result ≡ running_of cycle }
{
    cycle.is_some()
}

// What is left of the page where the frame has no data.
pub(crate) fn page_in(cycle: Option<Sent>, bytes: EepromPage) -> EepromPage
    ensures { result ≡ page_in cycle bytes }
{
    if running(cycle) { bytes } else { BLANK }
}

// The counter's place; a frame that takes data has one.
pub(crate) fn place_of(counter: Option<u32>) -> u32
    ensures { result ≡ place_of counter }
{
    counter.unwrap_or(0)
}

// 1010 A2 A1 A0 R/W.
pub(crate) fn own_address(b: u8, wired: u8) -> bool
    ensures { result ≡ own_address b wired }
{
    b / 2 == 80 + wired % 8
}

// The frame that R/W asks for.
pub(crate) fn opened_by(b: u8) -> EepromFrame
    ensures { result ≡ opened_by b }
{
    if b % 2 == 1 {
        EepromFrame::Reading
    } else {
        EepromFrame::Addressed
    }
}

// What a read delivers: the byte at the counter, or nothing where it is lost.
pub(crate) fn fetch(counter: Option<u32>) -> Skeleton
    ensures { result ≡ fetch_of counter }
{
    counter.map_or(Skeleton::Silent, Skeleton::Fetch)
}

// The counter after a byte was read: 7fff goes on to 0000.
pub(crate) fn moved_on(counter: Option<u32>) -> Option<u32>
    ensures { result ≡ moved_on counter }
{
    counter.map(|p| page::rolled(p, page::EEPROM_SIZE - 1))
}

// A read frame after a byte: a 1 acknowledge bit voids it.
pub(crate) fn after_read(bit: bool) -> EepromFrame
    ensures { result ≡ after_read bit }
{
    if bit {
        EepromFrame::Void
    } else {
        EepromFrame::Reading
    }
}

// An open frame is void.
pub(crate) fn voided(frame: EepromFrame) -> EepromFrame
    ensures { result ≡ voided_by frame }
{
    match frame {
        EepromFrame::Idle => EepromFrame::Idle,
        _ => EepromFrame::Void,
    }
}

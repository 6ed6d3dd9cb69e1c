// A frame: from `sel` to `des`, its bytes and the replies to them (document 01, 'Flash rules').
ghost use Rattle.std.specs.Prelude.{◌≡◌};
ghost use Rattle.flash.specs.Frame.{fact_at, served, opened_as, moved_on, next_sent, fetch_of, identity_of, status_reply, reply_to, put_byte, page_after, voided_by, locked_fact, locked_frame};

use crate::{FlashFrame, FlashPage, LockFact, Op, Sent, code};
use record::Skeleton;

// The lock fact at `sel`: the lock's level, where WPEN is 1 and no cycle runs.
pub(crate) fn fact_at(busy: bool, status: Option<u8>, lock: bool) -> LockFact
    ensures { result ≡ fact_at busy status lock }
{
    match status {
        Some(s) if !busy && 128 <= s => {
            if lock {
                LockFact::Locked
            } else {
                LockFact::Free
            }
        }
        _ => LockFact::Absent,
    }
}

// In a cycle only RDSR is served.
fn is_served(busy: bool, op: Op) -> bool
    ensures { result ≡ served busy op }
{
    !busy || op == Op::ReadStatus
}

// The frame after its first byte.
pub(crate) fn opened(busy: bool, si: u8, fact: LockFact) -> FlashFrame
    ensures { result ≡ opened_as busy si fact }
{
    match code::decode(si) {
        Some(op) if is_served(busy, op) => {
            FlashFrame::Command(op, Sent { count: 1, place: 0 }, fact)
        }
        _ => FlashFrame::Void,
    }
}

// The place after one: READ counts on, PROGRAM rolls over inside the page.
fn moved_on(op: Op, place: u32) -> u32
    ensures { result ≡ moved_on op place }
{
    match op {
        Op::Read => page::rolled(place, page::FLASH_SIZE - 1),
        Op::Program => place / page::FLASH_PAGE * page::FLASH_PAGE
            + page::rolled(place % page::FLASH_PAGE, page::FLASH_PAGE - 1),
        _ => place,
    }
}

// One byte more: three of an address, high first, then data.
pub(crate) fn next_sent(op: Op, sent: Sent, si: u8) -> Sent
    ensures { result ≡ next_sent op sent si }
{
    let Sent { count, place } = sent;
    if count < 4 {
        Sent {
            count: count + 1,
            place: (place % (page::FLASH_SIZE / 256) * 256 + si as u32) % page::FLASH_SIZE,
        }
    } else {
        Sent {
            count: 5,
            place: moved_on(op, place),
        }
    }
}

// What READ delivers: a place of the watched sector, or nothing.
fn fetch(sent: Sent, watched: u8) -> Skeleton
    ensures { result ≡ fetch_of sent watched }
{
    if 4 <= sent.count && code::sector_of(sent.place) == watched {
        Skeleton::Fetch(sent.place % page::FLASH_SECTOR)
    } else {
        Skeleton::Silent
    }
}

// What RDID delivers.
fn identity(count: u32) -> Skeleton
    ensures { result ≡ identity_of count }
{
    match count {
        1 => Skeleton::Given(0x1f),
        2 => Skeleton::Given(0x60),
        _ => Skeleton::Silent,
    }
}

// What RDSR delivers.
fn status_reply(busy: bool, status: Option<u8>) -> Skeleton
    ensures { result ≡ status_reply busy status }
{
    match status {
        None => Skeleton::Silent,
        Some(s) => Skeleton::Given(if busy { 0xff } else { s }),
    }
}

// The reply to a byte after the op-code.
pub(crate) fn reply_to(op: Op, sent: Sent, busy: bool, status: Option<u8>, watched: u8) -> Skeleton
    ensures { result ≡ reply_to op sent busy status watched }
{
    match op {
        Op::ReadStatus => status_reply(busy, status),
        Op::Read => fetch(sent, watched),
        Op::Identify => identity(sent.count),
        _ => Skeleton::Silent,
    }
}

// A data byte of PROGRAM is put at its place in the page.
fn put_byte(sent: Sent, si: u8, page: FlashPage) -> FlashPage
    ensures { result ≡ put_byte sent si page }
{
    let mut next = page;
    if 4 <= sent.count {
        next[(sent.place % page::FLASH_PAGE) as usize] = si;
    }
    next
}

// The page after a byte that follows the op-code.
pub(crate) fn page_after(op: Op, sent: Sent, si: u8, page: FlashPage) -> FlashPage
    ensures { result ≡ page_after op sent si page }
{
    match op {
        Op::Program => put_byte(sent, si, page),
        _ => page,
    }
}

// An open frame becomes void.
pub(crate) fn voided(frame: FlashFrame) -> FlashFrame
    ensures { result ≡ voided_by frame }
{
    match frame {
        FlashFrame::Idle => FlashFrame::Idle,
        _ => FlashFrame::Void,
    }
}

// Once on, the lock was on since `sel`: `free` does not undo it.
fn locked_fact(fact: LockFact) -> LockFact
    ensures { result ≡ locked_fact fact }
{
    match fact {
        LockFact::Free => LockFact::Locked,
        LockFact::Absent | LockFact::Locked => fact,
    }
}

// The frame once the lock came on in it.
pub(crate) fn locked(frame: FlashFrame) -> FlashFrame
    ensures { result ≡ locked_frame frame }
{
    match frame {
        FlashFrame::Idle | FlashFrame::Void => frame,
        FlashFrame::Selected(fact) => FlashFrame::Selected(locked_fact(fact)),
        FlashFrame::Command(op, sent, fact) => FlashFrame::Command(op, sent, locked_fact(fact)),
    }
}

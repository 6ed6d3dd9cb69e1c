// A cycle: what starts one at `des`, and what its end and a supply that goes off leave (document 01, 'Flash rules', 'Supply').
ghost use Rattle.std.specs.Prelude.{◌≡◌};
ghost use Rattle.flash.specs.Cycle.{page_in, may_start, lock_bars, starts_if, sets_if, known_effect, effect_of, end_status, off_status};

use crate::{BLANK, Effect, FlashCycle, FlashPage, LockFact, Op, Sent, code};

// The page that is left where no frame has data.
pub(crate) fn page_in(cycle: Option<FlashCycle>, page: FlashPage) -> FlashPage
    ensures { result ≡ page_in cycle page }
{
    match cycle {
        Some(FlashCycle::Program(_)) => page,
        _ => BLANK,
    }
}

// A cycle starts at exact length, with write enable, where nothing bars it.
fn may_start(whole: bool, status: u8, barred: bool) -> bool
    ensures { result ≡ may_start whole status barred }
{
    whole && !barred && status / 2 % 2 == 1
}

// Whether the lock bars a WRSR.
fn lock_bars(status: u8, fact: LockFact) -> bool
    ensures { result ≡ lock_bars status fact }
{
    match fact {
        LockFact::Free => false,
        LockFact::Absent | LockFact::Locked => 128 <= status,
    }
}

// What starts nothing leaves the status as it is.
fn start_if(may: bool, cycle: FlashCycle) -> Effect
    ensures { result ≡ starts_if may cycle }
{
    if may {
        Effect::Start(cycle)
    } else {
        Effect::Nothing
    }
}

// WREN and WRDI act at exact length.
fn set_if(whole: bool, status: u8) -> Effect
    ensures { result ≡ sets_if whole status }
{
    if whole {
        Effect::Status(status)
    } else {
        Effect::Nothing
    }
}

// What an instruction does at `des`, with a known status.
fn known_effect(op: Op, sent: Sent, fact: LockFact, s: u8) -> Effect
    ensures { result ≡ known_effect op sent fact s }
{
    let Sent { count, place } = sent;
    let sector = code::sector_of(place);
    let locked = crate::sector_locked(s, sector);
    match op {
        Op::WriteEnable => set_if(count == 1, code::with_enable(s)),
        Op::WriteDisable => set_if(count == 1, code::kept_bits(s)),
        Op::WriteStatus => {
            let bits = code::kept_bits((place % 256) as u8);
            let may = may_start(count == 2, s, lock_bars(s, fact));
            start_if(may, FlashCycle::WriteStatus(bits))
        }
        Op::Program => {
            let may = may_start(5 <= count, s, locked);
            start_if(may, FlashCycle::Program(place / page::FLASH_PAGE))
        }
        Op::SectorErase => {
            let may = may_start(count == 4, s, locked);
            start_if(may, FlashCycle::SectorErase(sector))
        }
        Op::ChipErase => {
            let may = may_start(count == 1, s, crate::sector_locked(s, 1));
            start_if(may, FlashCycle::ChipErase)
        }
        Op::ReadStatus | Op::Read | Op::Identify => Effect::Nothing,
    }
}

// What an instruction does at `des`: nothing with a lost status.
pub(crate) fn effect_of(op: Op, sent: Sent, fact: LockFact, status: Option<u8>) -> Effect
    ensures { result ≡ effect_of op sent fact status }
{
    let Some(s) = status else {
        return Effect::Nothing;
    };
    known_effect(op, sent, fact, s)
}

// The status after the end of a cycle.
pub(crate) fn end_status(cycle: Option<FlashCycle>, status: Option<u8>) -> Option<u8>
    ensures { result ≡ end_status cycle status }
{
    let s = status?;
    match cycle {
        None => Some(s),
        Some(FlashCycle::WriteStatus(bits)) => Some(bits),
        Some(_) => Some(code::kept_bits(s)),
    }
}

// The status after the supply went off.
pub(crate) fn off_status(cycle: Option<FlashCycle>, status: Option<u8>) -> Option<u8>
    ensures { result ≡ off_status cycle status }
{
    let s = status?;
    match cycle {
        Some(FlashCycle::WriteStatus(_)) => None,
        _ => Some(code::kept_bits(s)),
    }
}

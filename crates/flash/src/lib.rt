// The control of the flash chip AT25F1024A (document 01, 'Flash rules' and 'Supply'): frames, instructions, cycles and the status.
// No byte of the image is ever asked for: a read says only which place it delivers.
#![tactic(auto)]

ghost use Rattle.std.specs.Prelude.{◌≡◌};
ghost use Rattle.flash.specs.Code.{sector_locked};
ghost use Rattle.flash.specs.Step.{bare, silently, start_of, in_frame, select_of, further_of, byte_of, closed_by, deselect_of, end_of, powered_of, dark_of, step_of, supply_off_of, lock_on_of, line_of, lost_of};

use record::{FlashEvent, LineEvent, Lines, Skeleton};

mod code;
mod cycle;
mod frame;

// The nine instructions.
#[derive(Clone, Copy, Debug, PartialEq, Eq)]
pub enum Op {
    WriteEnable,
    WriteDisable,
    ReadStatus,
    WriteStatus,
    Read,
    Program,
    SectorErase,
    ChipErase,
    Identify,
}

// Whether the lock was on at any time since `sel`. A fact only in a frame whose `sel` found WPEN 1 and no cycle.
#[derive(Clone, Copy, Debug, PartialEq, Eq)]
pub enum LockFact {
    Absent,
    Free,
    Locked,
}

// The bytes of an instruction so far: how many, where 5 stands for five or more, and the place that those after the op-code name, then the one that comes next.
#[derive(Clone, Copy, Debug, PartialEq, Eq)]
pub struct Sent {
    pub count: u32,
    pub place: u32,
}

#[derive(Clone, Copy, Debug, PartialEq, Eq)]
pub enum FlashFrame {
    Idle,
    Void,
    Selected(LockFact),
    Command(Op, Sent, LockFact),
}

// A cycle that runs, with the page number of a PROGRAM (0 to 511), the sector of an erase (1 to 4), the bits of a WRSR.
#[derive(Clone, Copy, Debug, PartialEq, Eq)]
pub enum FlashCycle {
    Program(u32),
    SectorErase(u8),
    ChipErase,
    WriteStatus(u8),
}

pub type FlashPage = [u8; page::FLASH_PAGE as usize];

// A page to which nothing was sent.
pub(crate) const BLANK: FlashPage = [0xff; page::FLASH_PAGE as usize];

// The cycle is none where none runs. The status is none once it is lost: it stays lost, and nothing is kept beside it.
// The page holds the bytes of the PROGRAM that is sent or written, each at its place, and ff where none was sent.
#[derive(Clone, Copy, Debug, PartialEq, Eq)]
pub struct Flash {
    pub frame: FlashFrame,
    pub cycle: Option<FlashCycle>,
    pub status: Option<u8>,
    pub page: FlashPage,
}

#[derive(Clone, Copy, Debug, PartialEq, Eq)]
pub struct FlashStep {
    pub chip: Flash,
    pub reply: Skeleton,
}

// What a frame's instruction does at `des`.
#[derive(Clone, Copy, Debug, PartialEq, Eq)]
pub(crate) enum Effect {
    Nothing,
    Status(u8),
    Start(FlashCycle),
}

// Whether a sector (1 to 4) is locked out by BP1 BP0 of a status byte.
pub fn sector_locked(status: u8, sector: u8) -> bool
    ensures { result ≡ sector_locked status sector }
{
    match status / 4 % 4 {
        0 => false,
        1 => 4 <= sector,
        2 => 3 <= sector,
        _ => true,
    }
}

// A chip whose frame has no data: only a PROGRAM cycle keeps a page.
fn bare_chip(
    frame: FlashFrame,
    cycle: Option<FlashCycle>,
    status: Option<u8>,
    page: FlashPage,
) -> Flash
    ensures { result ≡ bare frame cycle status page }
{
    Flash {
        frame,
        cycle,
        status,
        page: cycle::page_in(cycle, page),
    }
}

fn silent(chip: Flash) -> FlashStep
    ensures { result ≡ silently chip }
{
    FlashStep {
        chip,
        reply: Skeleton::Silent,
    }
}

impl Flash {
    // The chip at the start, with a status of which bits 7, 3 and 2 count.
    pub fn start(status: u8) -> Flash
        ensures { result ≡ start_of status }
    {
        Flash {
            frame: FlashFrame::Idle,
            cycle: None,
            status: Some(code::kept_bits(status)),
            page: BLANK,
        }
    }

    // The same chip in another frame, one with no data.
    fn in_frame(self, frame: FlashFrame) -> Flash
        ensures { result ≡ in_frame self frame }
    {
        bare_chip(frame, self.cycle, self.status, self.page)
    }

    // `sel`.
    fn select(self, lock: bool) -> FlashStep
        ensures { result ≡ select_of self lock }
    {
        let fact = frame::fact_at(self.cycle.is_some(), self.status, lock);
        silent(self.in_frame(FlashFrame::Selected(fact)))
    }

    // A byte after the op-code.
    fn further(self, op: Op, sent: Sent, fact: LockFact, si: u8, watched: u8) -> FlashStep
        ensures { result ≡ further_of self op sent fact si watched }
    {
        FlashStep {
            chip: Flash {
                frame: FlashFrame::Command(op, frame::next_sent(op, sent, si), fact),
                page: frame::page_after(op, sent, si, self.page),
                ..self
            },
            reply: frame::reply_to(op, sent, self.cycle.is_some(), self.status, watched),
        }
    }

    // `x`.
    fn byte(self, si: u8, watched: u8) -> FlashStep
        ensures { result ≡ byte_of self si watched }
    {
        match self.frame {
            FlashFrame::Idle | FlashFrame::Void => silent(self),
            FlashFrame::Selected(fact) => {
                silent(self.in_frame(frame::opened(self.cycle.is_some(), si, fact)))
            }
            FlashFrame::Command(op, sent, fact) => self.further(op, sent, fact, si, watched),
        }
    }

    // What an effect does as the frame closes.
    fn closed(self, effect: Effect) -> FlashStep
        ensures { result ≡ closed_by self effect }
    {
        match effect {
            Effect::Nothing => silent(self.in_frame(FlashFrame::Idle)),
            Effect::Status(s) => {
                silent(bare_chip(FlashFrame::Idle, self.cycle, Some(s), self.page))
            }
            Effect::Start(started) => FlashStep {
                chip: bare_chip(FlashFrame::Idle, Some(started), self.status, self.page),
                reply: Skeleton::Starts,
            },
        }
    }

    // `des`.
    fn deselect(self) -> FlashStep
        ensures { result ≡ deselect_of self }
    {
        match self.frame {
            FlashFrame::Command(op, sent, fact) => {
                self.closed(cycle::effect_of(op, sent, fact, self.status))
            }
            _ => self.closed(Effect::Nothing),
        }
    }

    // `end`.
    fn end(self) -> FlashStep
        ensures { result ≡ end_of self }
    {
        if self.cycle.is_some() {
            let ended = cycle::end_status(self.cycle, self.status);
            FlashStep {
                chip: bare_chip(self.frame, None, ended, self.page),
                reply: Skeleton::Ends,
            }
        } else {
            FlashStep {
                chip: self,
                reply: Skeleton::NoCycle,
            }
        }
    }

    // A record with the supply on.
    fn powered(self, e: FlashEvent, lock: bool, watched: u8) -> FlashStep
        ensures { result ≡ powered_of self e lock watched }
    {
        match e {
            FlashEvent::Select => self.select(lock),
            FlashEvent::Byte(si, _) => self.byte(si, watched),
            FlashEvent::Cut => silent(self.in_frame(FlashFrame::Void)),
            FlashEvent::Deselect => self.deselect(),
            FlashEvent::End => self.end(),
        }
    }

    // A record with the supply off.
    fn dark(self, e: FlashEvent) -> FlashStep
        ensures { result ≡ dark_of self e }
    {
        match e {
            FlashEvent::Select | FlashEvent::Cut => silent(self.in_frame(FlashFrame::Void)),
            FlashEvent::Byte(_, _) => silent(self),
            FlashEvent::Deselect => silent(self.in_frame(FlashFrame::Idle)),
            FlashEvent::End => FlashStep {
                chip: self,
                reply: Skeleton::NoCycle,
            },
        }
    }

    // A record of channel F.
    pub fn step(self, e: FlashEvent, lines: Lines, watched: u8) -> FlashStep
        ensures { result ≡ step_of self e lines watched }
    {
        if lines.supply {
            self.powered(e, lines.lock, watched)
        } else {
            self.dark(e)
        }
    }

    // The supply goes off.
    fn supply_off(self) -> Flash
        ensures { result ≡ supply_off_of self }
    {
        let left = cycle::off_status(self.cycle, self.status);
        bare_chip(frame::voided(self.frame), None, left, self.page)
    }

    // The lock comes on.
    fn lock_on(self) -> Flash
        ensures { result ≡ lock_on_of self }
    {
        Flash {
            frame: frame::locked(self.frame),
            ..self
        }
    }

    // A record of channel L; `lines` are those before it. A repeated line state does nothing.
    pub fn line(self, e: LineEvent, lines: Lines) -> Flash
        ensures { result ≡ line_of self e lines }
    {
        if record::goes_off(lines, e) {
            self.supply_off()
        } else if record::lock_comes_on(lines, e) {
            self.lock_on()
        } else {
            self
        }
    }

    // Whether the status is lost.
    pub fn lost(self) -> bool
        ensures { result ≡ lost_of self }
    {
        self.status.is_none()
    }
}

// The vocabulary of document 01: events, records, the board, the two lines, replies and answers, with the paper's number for each case.
#![tactic(auto)]

ghost use Rattle.std.specs.Prelude.{◌≡◌};
ghost use Rattle.law.specs.Deciding.{Decides};
ghost use Rattle.record.specs.Answers.{answer_number, plan_answer_number, levels_answer_number};
ghost use Rattle.record.specs.Replies.{match_number, reply_bytes};
ghost use Rattle.record.specs.Status.{StatusOk};
ghost use Rattle.record.specs.LineRules.{lines_after, lines_at_start, goes_off, lock_comes_on};

// The chips whose bytes are kept.
#[derive(Clone, Copy, Debug, PartialEq, Eq)]
pub enum Chip {
    Flash,
    Eeprom,
}

// Channel F. A byte goes each way: SI, then SO.
#[derive(Clone, Copy, Debug, PartialEq, Eq)]
pub enum FlashEvent {
    Select,
    Byte(u8, u8),
    Cut,
    Deselect,
    End,
}

// Channel E. A byte comes with its acknowledge bit: true is 1, not acknowledged.
#[derive(Clone, Copy, Debug, PartialEq, Eq)]
pub enum EepromEvent {
    Start,
    Byte(u8, bool),
    Cut,
    Stop,
    End,
}

// Channel L.
#[derive(Clone, Copy, Debug, PartialEq, Eq)]
pub enum LineEvent {
    SupplyOn,
    SupplyOff,
    LockOn,
    LockOff,
}

#[derive(Clone, Copy, Debug, PartialEq, Eq)]
pub enum Event {
    Flash(FlashEvent),
    Eeprom(EepromEvent),
    Line(LineEvent),
}

#[derive(Clone, Copy, Debug, PartialEq, Eq)]
pub struct Record {
    pub stamp: u32,
    pub event: Event,
}

// Line 1 of a trace: the flash's status at the start, the watched sector, the EEPROM's wired address.
#[derive(Clone, Copy, Debug, PartialEq, Eq)]
pub struct Board {
    pub status: u8,
    pub sector: u8,
    pub address: u8,
}

// Whether a status has only bits that may be set: 7, 3 and 2.
pub fn status_ok(status: u8) -> bool
    ensures { Decides result (StatusOk status) }
{
    status % 4 == 0 && status / 16 % 8 == 0
}

// The common supply and the lock net.
#[derive(Clone, Copy, Debug, PartialEq, Eq)]
pub struct Lines {
    pub supply: bool,
    pub lock: bool,
}

// A chip's reply as far as its control knows it: a fetched byte is only told by its place.
#[derive(Clone, Copy, Debug, PartialEq, Eq)]
pub enum Skeleton {
    Silent,
    Given(u8),
    Fetch(u32),
    Ack,
    NoAck,
    Starts,
    Ends,
    NoCycle,
}

// A record's reply. A byte has a value and a mask of its doubtful bits.
#[derive(Clone, Copy, Debug, PartialEq, Eq)]
pub enum Reply {
    NotPlayed,
    Silent,
    Byte(u8, u8),
    Ack,
    NoAck,
    Starts,
    Ends,
    NoCycle,
}

// How a reply compares with what was recorded.
#[derive(Clone, Copy, Debug, PartialEq, Eq)]
pub enum Match {
    Nothing,
    Agrees,
    Disagrees,
}

// At the start the supply is on and the lock off.
pub fn lines_at_start() -> Lines
    ensures { result ≡ lines_at_start }
{
    Lines {
        supply: true,
        lock: false,
    }
}

// The lines after a line record.
pub fn lines_after(lines: Lines, e: LineEvent) -> Lines
    ensures { result ≡ lines_after lines e }
{
    match e {
        LineEvent::SupplyOn => Lines {
            supply: true,
            ..lines
        },
        LineEvent::SupplyOff => Lines {
            supply: false,
            ..lines
        },
        LineEvent::LockOn => Lines {
            lock: true,
            ..lines
        },
        LineEvent::LockOff => Lines {
            lock: false,
            ..lines
        },
    }
}

// Whether the supply goes off: where it is off already, nothing does.
pub fn goes_off(lines: Lines, e: LineEvent) -> bool
    ensures { result ≡ goes_off lines e }
{
    lines.supply && e == LineEvent::SupplyOff
}

// Whether the lock comes on: where it is on already, nothing does.
pub fn lock_comes_on(lines: Lines, e: LineEvent) -> bool
    ensures { result ≡ lock_comes_on lines e }
{
    !lines.lock && e == LineEvent::LockOn
}

// How many bytes the replies take, four to a record, and the result.
pub const REPLIES: usize = 40000;

pub const REPLY_PLACES: usize = REPLIES / 4;

pub const RESULT: usize = 16;

pub const PLAN_RESULT: usize = 8;

// What a replay answers.
#[derive(Clone, Copy, Debug, PartialEq, Eq)]
pub enum Answer {
    Settled,
    BadBuffers,
    TooLong,
    BadLine,
    BackInTime,
    Impossible,
    Crowded,
    OrdersDiffer,
    StatusLost,
}

// The paper's number of an answer.
impl From<Answer> for u32 {
    ghost from_gives = { λ a n. n ≡ answer_number a };

    fn from(a: Answer) -> u32 {
        match a {
            Answer::Settled => 0,
            Answer::BadBuffers => 1,
            Answer::TooLong => 2,
            Answer::BadLine => 3,
            Answer::BackInTime => 4,
            Answer::Impossible => 5,
            Answer::Crowded => 6,
            Answer::OrdersDiffer => 7,
            Answer::StatusLost => 8,
        }
    }
}

// What a plan answers.
#[derive(Clone, Copy, Debug, PartialEq, Eq)]
pub enum PlanAnswer {
    Planned,
    Unfit,
    Locked,
    NoRoom,
}

// The paper's number of such an answer.
impl From<PlanAnswer> for u32 {
    ghost from_gives = { λ a n. n ≡ plan_answer_number a };

    fn from(a: PlanAnswer) -> u32 {
        match a {
            PlanAnswer::Planned => 0,
            PlanAnswer::Unfit => 14,
            PlanAnswer::Locked => 15,
            PlanAnswer::NoRoom => 16,
        }
    }
}

// What is answered to levels and a logger's trace beside 0 to 5.
#[derive(Clone, Copy, Debug, PartialEq, Eq)]
pub enum LevelsAnswer {
    BadLevel,
    Together,
    TooShort,
}

// The paper's number of such an answer.
impl From<LevelsAnswer> for u32 {
    ghost from_gives = { λ a n. n ≡ levels_answer_number a };

    fn from(a: LevelsAnswer) -> u32 {
        match a {
            LevelsAnswer::BadLevel => 12,
            LevelsAnswer::Together => 13,
            LevelsAnswer::TooShort => 10,
        }
    }
}

// The fourth byte of a reply.
impl From<Match> for u8 {
    ghost from_gives = { λ m n. n ≡ match_number m };

    fn from(m: Match) -> u8 {
        match m {
            Match::Nothing => 0,
            Match::Agrees => 1,
            Match::Disagrees => 2,
        }
    }
}

impl Reply {
    // Its four bytes: the kind, value and mask, which are 0 for other kinds than 2, and how it compares with what was recorded.
    pub fn bytes(self, found: Match) -> [u8; 4]
        ensures { result ≡ reply_bytes self found }
    {
        let (kind, value, mask) = match self {
            Reply::NotPlayed => (0, 0, 0),
            Reply::Silent => (1, 0, 0),
            Reply::Byte(value, mask) => (2, value, mask),
            Reply::Ack => (3, 0, 0),
            Reply::NoAck => (4, 0, 0),
            Reply::Starts => (5, 0, 0),
            Reply::Ends => (6, 0, 0),
            Reply::NoCycle => (7, 0, 0),
        };
        [kind, value, mask, u8::from(found)]
    }
}

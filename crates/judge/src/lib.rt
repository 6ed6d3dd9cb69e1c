// Both texts are judged before anything is written or played: the logger's trace whole, then the level text's length, then its first bad line (document 02, request 4/12).
#![tactic(auto)]

ghost use Rattle.std.specs.Prelude.{◌≡◌};
ghost use Rattle.capture.specs.Captures.{first_fault, later_fault};
ghost use Rattle.judge.specs.Checking.{hits, free_of, reached_by, Reaches, ChecksLevels};
ghost use Rattle.judge.specs.Judging.{judge_number, Judging};
ghost use Rattle.judge.specs.declared.JudgeAnswer.TheVariants.{Text, Levels};

use field::Cursor;
use level::Level;
use record::{Answer, Board, LevelsAnswer, Record};
use text::Refusal;

// Both texts can be used: the board and the place of the first record in the trace; the first level line and the place behind it.
#[derive(Clone, Copy, Debug, PartialEq, Eq)]
pub struct Accepted {
    pub board: Board,
    pub first: usize,
    pub level: Level,
    pub at: usize,
}

// The answer to texts of which one is refused: an answer that a replay has too, or one that only levels have.
#[derive(Clone, Copy, Debug, PartialEq, Eq)]
pub enum JudgeAnswer {
    Text(Answer),
    Levels(LevelsAnswer),
}

// The paper's number of such an answer.
impl From<JudgeAnswer> for u32 {
    ghost from_gives = { λ a n. n ≡ judge_number a };

    fn from(a: JudgeAnswer) -> u32 {
        match a {
            JudgeAnswer::Text(answer) => u32::from(answer),
            JudgeAnswer::Levels(answer) => u32::from(answer),
        }
    }
}

// One text is refused: the answer, the line's number, counted from 1, and the field's.
#[derive(Clone, Copy, Debug, PartialEq, Eq)]
pub struct Refused {
    pub answer: JudgeAnswer,
    pub line: usize,
    pub field: u32,
}

impl From<Refusal> for Refused {
    ghost from_gives = { λ r e. e ≡ record { answer = Text r.answer; line = r.line; field = r.field } };

    fn from(r: Refusal) -> Refused {
        Refused {
            answer: JudgeAnswer::Text(r.answer),
            line: r.line,
            field: r.field,
        }
    }
}

// A bad line of the level text: the refusal, and the line's number.
#[derive(Clone, Copy, Debug, PartialEq, Eq)]
struct LevelsRefusal {
    answer: LevelsAnswer,
    line: usize,
}

impl From<LevelsRefusal> for Refused {
    ghost from_gives = { λ r e. e ≡ record { answer = Levels r.answer; line = r.line; field = 0 } };

    fn from(r: LevelsRefusal) -> Refused {
        Refused {
            answer: JudgeAnswer::Levels(r.answer),
            line: r.line,
            field: 0,
        }
    }
}

// Either text has more bytes than a text may have.
const TOO_LONG: Refused = Refused {
    answer: JudgeAnswer::Text(Answer::TooLong),
    line: 0,
    field: 0,
};

// The first record taken from the logger whose stamp is not below one: its place and its stamp. With no stamp none is left.
#[derive(Clone, Copy, Debug, PartialEq, Eq)]
struct Reach {
    at: usize,
    stamp: Option<u32>,
}

impl Reach {
    // Whether the record has a stamp.
    fn hits(self, t: u32) -> bool
        ensures { result ≡ hits self.stamp t }
    {
        self.stamp == Some(t)
    }
}

fn reached_by(rec: Record, t: u32) -> bool
    ensures { result ≡ reached_by rec t }
{
    capture::is_taken(rec.event) && t <= rec.stamp
}

// Both texts' stamps rise, so each search goes on where the last one stopped: no record is read more than twice in all, one that was stopped at and is then passed.
fn reach_from(trace: &[u8], from: usize, t: u32) -> Reach
    ensures { Reaches trace.now from 0 t result }
{
    let mut at = from;
    while at < trace.len() {
        let Ok((rec, next)) = text::record_at(trace, at) else {
            return Reach { at, stamp: None };
        };
        if reached_by(rec, t) {
            return Reach {
                at,
                stamp: Some(rec.stamp),
            };
        }
        at = next.at;
    }
    Reach { at, stamp: None }
}

// Many level lines stand between two records: for a stamp below the record's own nothing is read.
fn reach_on(trace: &[u8], last: Reach, t: u32) -> Reach
    ensures { Reaches trace.now last.at (free_of last.stamp) t result }
{
    match last.stamp {
        Some(free) if t < free => last,
        _ => reach_from(trace, last.at, t),
    }
}

// What is wrong with the first line; hit: a record that is taken has its stamp.
fn first_fault(l: Level, hit: bool) -> Result<(), LevelsAnswer>
    ensures { result ≡ first_fault l hit }
{
    if level::rests(l) && !hit {
        Ok(())
    } else {
        Err(LevelsAnswer::BadLevel)
    }
}

// What is wrong with the line l behind the line a: '12 first on one line'.
fn later_fault(a: Level, l: Level, hit: bool) -> Result<(), LevelsAnswer>
    ensures { result ≡ later_fault a l hit }
{
    if l.stamp < a.stamp || hit {
        return Err(LevelsAnswer::BadLevel);
    }
    if level::clashes(a, l) {
        return Err(LevelsAnswer::Together);
    }
    Ok(())
}

// The first line of a level text and the place behind it, or the text's first bad line, beside a readable trace whose first record stands at a place.
fn check_levels(levels: &[u8], trace: &[u8], first: usize) -> Result<(Level, Cursor), LevelsRefusal>
    ensures { ChecksLevels levels.now trace.now first result }
{
    let Some((l, next)) = level::read_level(levels, Cursor { at: 0 }) else {
        return Err(LevelsRefusal {
            answer: LevelsAnswer::BadLevel,
            line: 1,
        });
    };
    let start = reach_from(trace, first, l.stamp);
    if let Err(answer) = first_fault(l, start.hits(l.stamp)) {
        return Err(LevelsRefusal { answer, line: 1 });
    }
    let mut at = next.at;
    let mut last = l;
    let mut number: usize = 2;
    let mut place = start;
    // Kept: the place goes on by what was read, so no range gives it; the line's number goes beside it.
    while at < levels.len() {
        let Some((k, after)) = level::read_level(levels, Cursor { at }) else {
            return Err(LevelsRefusal {
                answer: LevelsAnswer::BadLevel,
                line: number,
            });
        };
        let here = reach_on(trace, place, k.stamp);
        if let Err(answer) = later_fault(last, k, here.hits(k.stamp)) {
            return Err(LevelsRefusal {
                answer,
                line: number,
            });
        }
        at = after.at;
        last = k;
        number += 1;
        place = here;
    }
    Ok((l, next))
}

// How both texts are judged.
pub fn judge(levels: &[u8], trace: &[u8]) -> Result<Accepted, Refused>
    ensures { Judging levels.now trace.now result }
{
    if text::too_long(trace) {
        return Err(TOO_LONG);
    }
    let (board, first) = text::check_text(trace)?;
    if text::too_long(levels) {
        return Err(TOO_LONG);
    }
    let (level, behind) = check_levels(levels, trace, first.at)?;
    Ok(Accepted {
        board,
        first: first.at,
        level,
        at: behind.at,
    })
}

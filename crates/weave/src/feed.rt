// A feed: the records of one text and one channel, one after another. It holds its next record, and the place from which it goes on; or nothing is left.
ghost use Rattle.std.specs.Prelude.{◌≡◌, ◌≤◌, List, ℕ, Option};
ghost use Rattle.record.specs.declared.Record.{Record};
ghost use Rattle.weave.specs.Feeding.{give_of, letter_of, Passes, FeedsLevels, FeedsTrace};
ghost use Rattle.weave.specs.Weaving.{number_ahead, TakesHead};

use capture::Part;
use decode::{Bits, Out};
use field::Cursor;
use level::Level;
use record::Record;

// From where a feed goes on in its text.
pub trait Source: Copy {
    // What the next record is, and the place behind it.
    ghost feeds: { List ℕ → Self → Option (Record × Self) → Type 0 };

    fn next(self, text: &[u8]) -> Option<(Record, Self)>
        ensures { feeds text.now self result };
}

// Behind a line of the capture: the place of the next line, the line itself, the bits so far, and what the line still gives.
#[derive(Clone, Copy, Debug, PartialEq, Eq)]
pub struct Behind {
    pub at: usize,
    pub last: Level,
    pub bits: Bits,
    pub more: Out,
}

// In the logger's trace, and which part of what is taken from it.
#[derive(Clone, Copy, Debug, PartialEq, Eq)]
pub struct Within {
    pub part: Part,
    pub at: usize,
}

// The feeds of the two texts are of two types: one of the trace is much smaller.
pub type LevelFeed = Option<(Record, Behind)>;

pub type TraceFeed = Option<(Record, Within)>;

impl Behind {
    // What the line still gives.
    fn give(self) -> LevelFeed
        ensures { result ≡ give_of self }
    {
        let (event, more) = match self.more {
            Out::Nothing => return None,
            Out::One(e) => (e, Out::Nothing),
            Out::Two(d, e) => (d, Out::One(e)),
        };
        let stamp = self.last.stamp;
        Some((Record { stamp, event }, Behind { more, ..self }))
    }
}

impl Source for Behind {
    ghost feeds = { FeedsLevels };

    // The next record of the capture. The parts of the place go on by themselves: put together for each line they would be copied for each.
    fn next(self, levels: &[u8]) -> LevelFeed {
        let Behind {
            mut at,
            mut last,
            mut bits,
            mut more,
        } = self;
        'lines: while let Out::Nothing = more {
            if levels.len() <= at {
                return None;
            }
            let (line, next) = level::read_level(levels, Cursor { at })?;
            let turn = bits.turn(last, line);
            at = next.at;
            last = line;
            bits = turn.bits;
            more = turn.out;
        }
        Behind {
            at,
            last,
            bits,
            more,
        }
        .give()
    }
}

// The letter of a part's channel.
fn letter_of(part: Part) -> u8
    ensures { result ≡ letter_of part }
{
    match part {
        Part::FlashEnds => b'F',
        Part::EepromEnds => b'E',
        Part::Lines => b'L',
    }
}

// From a line's start on the start of the first line that has a letter, or the end. To pass over a record costs less than to read it.
fn line_with(trace: &[u8], from: usize, letter: u8) -> usize
    ensures { Passes trace.now letter from result × (from ≤ result) }
{
    let mut start = from;
    for k in from..trace.len() {
        let b = trace[k];
        if b == letter {
            return start;
        }
        if b == b'\n' {
            start = k + 1;
        }
    }
    start
}

impl Source for Within {
    ghost feeds = { FeedsTrace };

    // The next record of one part of what is taken from the logger's trace.
    fn next(self, trace: &[u8]) -> TraceFeed {
        let part = self.part;
        let letter = letter_of(part);
        let mut at = line_with(trace, self.at, letter);
        while at < trace.len() {
            let Ok((rec, next)) = text::record_at(trace, at) else {
                return None;
            };
            if capture::is_of(part, rec.event) {
                return Some((rec, Within { part, at: next.at }));
            }
            at = line_with(trace, next.at, letter);
        }
        None
    }
}

// The number of a feed's head; a feed that has none is above all records.
pub fn number_ahead<P: Source>(feed: &Option<(Record, P)>) -> u64
    ensures { result ≡ number_ahead feed.now }
{
    match feed {
        None => crate::ABOVE,
        Some((rec, _)) => crate::number_of(*rec),
    }
}

// A feed's head, and the number of the one behind it: the feed goes on.
pub fn take_head<P: Source>(feed: &mut Option<(Record, P)>, text: &[u8]) -> Option<(Record, u64)>
    ensures { TakesHead (P.feeds text.now) feed.old result feed.new }
{
    let (rec, from) = (*feed)?;
    *feed = from.next(text);
    Some((rec, number_ahead(feed)))
}

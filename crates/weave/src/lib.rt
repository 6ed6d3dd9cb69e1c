// The records of both texts in one order: a feed for each part, each by itself in order, and the first of the least heads is next.
#![tactic(auto)]

ghost use Rattle.std.specs.Prelude.{◌≡◌, ◌<◌};
ghost use Rattle.capture.specs.Merge.{number_of};
ghost use Rattle.weave.specs.Weaving.{Least, Weaves, Starts};

use capture::Part;
use decode::{Bits, Out};
use feed::{Behind, LevelFeed, Source, TraceFeed, Within};
use level::Level;
use record::{Event, Record};

mod feed;

// Both buses of the capture, the cycle ends of each chip, the line records.
pub const FEEDS: usize = 5;

// No more records than these can both texts give: four of each level line behind the first, one of each record of the trace.
pub const MOST: usize = 25740;

// Above the number of every record: 3 * 2^32. It stands for a feed that has none left.
pub const ABOVE: u64 = 12884901888;

// Both texts, and the feeds; before these the numbers of their heads, so that the search for the next one looks at no feed.
// Kept: the numbers stand beside the feeds, since feeds of two types are in no array: with its number in each, they would be gathered anew for each record.
#[derive(Clone, Copy)]
pub struct Weave<'a> {
    pub levels: &'a [u8],
    pub trace: &'a [u8],
    pub numbers: [u64; FEEDS],
    pub flash: LevelFeed,
    pub eeprom: LevelFeed,
    pub flash_ends: TraceFeed,
    pub eeprom_ends: TraceFeed,
    pub lines: TraceFeed,
}

// By stamp, and at one stamp F, E, L.
// Kept: a derived order would tell events of one channel apart too, where the first feed comes first; and numbers are compared at once.
fn number_of(r: Record) -> u64
    ensures { result ≡ number_of r }
{
    let stamp = u64::from(r.stamp);
    match r.event {
        Event::Flash(_) => stamp * 3,
        Event::Eeprom(_) => stamp * 3 + 1,
        Event::Line(_) => stamp * 3 + 2,
    }
}

// The first of the numbers that no other is below.
fn first_least(numbers: &[u64; FEEDS]) -> usize
    ensures least { Least numbers.now result }
    ensures upper_bound { result < 5 }
{
    let mut best = 0;
    let mut least = numbers[0];
    for k in 1..FEEDS {
        let n = numbers[k];
        if n < least {
            best = k;
            least = n;
        }
    }
    best
}

impl<'a> Weave<'a> {
    // All feeds at their first records: a is the capture's first line, at the place after it, first the place of the trace's first record.
    pub fn new(levels: &'a [u8], trace: &'a [u8], a: Level, at: usize, first: usize) -> Weave<'a>
        ensures starts { Starts levels.now trace.now a at first result }
        ensures texts { (result.levels ≡ levels.entry) × (result.trace ≡ trace.entry) }
    {
        let behind = |bits| Behind {
            at,
            last: a,
            bits,
            more: Out::Nothing,
        };
        let within = |part| Within { part, at: first };
        let flash = behind(Bits::of_flash()).next(levels);
        let eeprom = behind(Bits::of_wires()).next(levels);
        let flash_ends = within(Part::FlashEnds).next(trace);
        let eeprom_ends = within(Part::EepromEnds).next(trace);
        let lines = within(Part::Lines).next(trace);
        let numbers = [
            feed::number_ahead(&flash),
            feed::number_ahead(&eeprom),
            feed::number_ahead(&flash_ends),
            feed::number_ahead(&eeprom_ends),
            feed::number_ahead(&lines),
        ];
        Weave {
            levels,
            trace,
            numbers,
            flash,
            eeprom,
            flash_ends,
            eeprom_ends,
            lines,
        }
    }
}

// Of all records the next.
impl<'a> Iterator for Weave<'a> {
    type Item = Record;

    ghost next_gives = { Weaves };

    fn next(&mut self) -> Option<Record> {
        let i = first_least(&self.numbers);
        // Kept: an arm for each feed, since feeds of two types are in no array (above).
        let (rec, number) = match i {
            0 => feed::take_head(&mut self.flash, self.levels),
            1 => feed::take_head(&mut self.eeprom, self.levels),
            2 => feed::take_head(&mut self.flash_ends, self.trace),
            3 => feed::take_head(&mut self.eeprom_ends, self.trace),
            _ => feed::take_head(&mut self.lines, self.trace),
        }?;
        self.numbers[i] = number;
        Some(rec)
    }
}

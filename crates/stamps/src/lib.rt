// One stamp of a text: its records are read, held together and judged, before anything is played.
#![tactic(auto)]

ghost use Rattle.std.specs.Prelude.{◌≡◌, true, [], ◌≤◌, replicate};
ghost use Rattle.meaning.specs.Channels.{most_in_all};
ghost use Rattle.stamps.specs.Gathering.{kept_array, kept_count, held_with, gathered_with, no_record, nothing_gathered, Shares, Gathers};
ghost use Rattle.stamps.specs.Judging.{JudgesAt, JudgesAll};
ghost use Rattle.stamps.specs.Lone.{lost_after, alone_verdict, alone_judgement};

use controls::Controls;
use field::Cursor;
use orders::{Held, Records, Verdict};
use record::{Board, Event, LineEvent, Record};
use text::Reader;

// The records of one stamp by channel and as they are written, and the place after them.
#[derive(Clone, Copy)]
pub struct Gathered {
    pub held: Held,
    pub records: Records<{ orders::MOST_IN_ALL }>,
    pub next: usize,
}

// One record more, where there is room; where there is none, the count says one more than the most.
fn keep<const N: usize>(kept: &mut Records<N>, rec: Record)
    requires { N ≤ most_in_all }
    ensures { kept.new ≡ record { records = kept_array N kept.old.records kept.old.count rec; count = kept_count N kept.old.count } }
{
    if kept.count < N {
        kept.records[kept.count] = rec;
        kept.count += 1;
    } else {
        kept.count = N + 1;
    }
}

// One record more of the stamp goes to its channel.
fn hold(held: &mut Held, rec: Record)
    ensures { held.new ≡ held_with held.old rec }
{
    match rec.event {
        Event::Flash(_) => keep(&mut held.flash, rec),
        Event::Eeprom(_) => keep(&mut held.eeprom, rec),
        Event::Line(_) => keep(&mut held.lines, rec),
    }
}

// The same, with those as they are written; the next one stands at `next`.
fn gather_one(g: &mut Gathered, rec: Record, next: usize)
    ensures { g.new ≡ gathered_with g.old rec next }
{
    hold(&mut g.held, rec);
    keep(&mut g.records, rec);
    g.next = next;
}

// A record that stands for none.
fn no_record() -> Record
    ensures { result ≡ no_record }
{
    Record {
        stamp: 0,
        event: Event::Line(LineEvent::SupplyOn),
    }
}

// None yet.
fn none<const N: usize>() -> Records<N>
    ensures { result ≡ record { records = replicate N no_record; count = 0 } }
{
    Records {
        records: [no_record(); N],
        count: 0,
    }
}

// Nothing yet; the first record stands at `next`.
fn none_gathered(next: usize) -> Gathered
    ensures { result ≡ nothing_gathered next }
{
    Gathered {
        held: Held {
            flash: none(),
            eeprom: none(),
            lines: none(),
        },
        records: none(),
        next,
    }
}

// The records of a stamp, from those that `first` has on: the reader reads, and is moved behind what it read.
fn gather(text: &[u8], first: Gathered, stamp: u32) -> Gathered
    ensures { Gathers text.now stamp first result }
{
    let mut g = first;
    let mut reader = Reader::new(text, first.next);
    while let Ok((rec, after)) = reader.next_record() {
        if rec.stamp != stamp {
            break;
        }
        gather_one(&mut g, rec, after.at);
        reader = reader.moved_to(after.at);
    }
    g
}

// What is found at the stamp of the record at a place, its records as they are written, and the place after them.
#[derive(Clone, Copy)]
pub struct Judgement {
    pub verdict: Verdict,
    pub records: Records<{ orders::MOST_IN_ALL }>,
    pub next: usize,
    pub stamp: u32,
}

// Whether a stamp is over at a place, as far as the stamp of the line there tells it; where it does not, the gathering reads on and decides.
fn over_at(text: &[u8], place: usize, stamp: u32) -> bool
    ensures { result ≡ true → Shares text.now stamp place [] }
{
    match field::read_decimal(text, Cursor { at: place }, line::STAMP) {
        Ok((other, _)) => other != stamp,
        Err(_) => true,
    }
}

// Whether the status is lost after a record, which is played for it.
fn lost_played(rec: Record, board: Board, controls: Controls) -> bool
    ensures { result ≡ lost_after board controls rec }
{
    let next = controls.play(board, rec).controls;
    next.lost()
}

// The same: only a line record can lose it, so only that one is played.
fn lost_by(rec: Record, board: Board, controls: Controls) -> bool
    ensures { result ≡ lost_after board controls rec }
{
    match rec.event {
        Event::Flash(_) | Event::Eeprom(_) => controls.lost(),
        Event::Line(_) => lost_played(rec, board, controls),
    }
}

// What is found at a stamp of one record: it is not crowded, and has one order.
fn judge_alone(rec: Record, board: Board, controls: Controls) -> Verdict
    ensures { result ≡ alone_verdict board controls rec }
{
    if lost_by(rec, board, controls) {
        Verdict::Lost
    } else {
        Verdict::Passes
    }
}

// The judgement on a stamp of one record; nothing is gathered by channel.
fn found_alone(rec: Record, next: usize, board: Board, controls: Controls) -> Judgement
    ensures { result ≡ alone_judgement board controls rec next }
{
    let mut records = [no_record(); orders::MOST_IN_ALL];
    records[0] = rec;
    Judgement {
        verdict: judge_alone(rec, board, controls),
        records: Records { records, count: 1 },
        next,
        stamp: rec.stamp,
    }
}

// The judgement on a stamp of more, whose first record stands at the place. That record is read again with the others: records are then taken in at one place, and the compiler spares their copies.
fn found_together(
    text: &[u8],
    place: usize,
    stamp: u32,
    board: Board,
    controls: Controls,
) -> Judgement
    ensures { JudgesAll text.now place stamp board controls result }
{
    let g = gather(text, none_gathered(place), stamp);
    Judgement {
        verdict: orders::judge(g.held, board, controls),
        records: g.records,
        next: g.next,
        stamp,
    }
}

// Where no record stands the stamp does not pass: nothing comes next. In a readable text one stands at every place that this is asked of.
pub fn judge_at(text: &[u8], place: usize, board: Board, controls: Controls) -> Judgement
    ensures { JudgesAt text.now place board controls result }
{
    let Ok((first, after)) = text::record_at(text, place) else {
        return Judgement {
            verdict: Verdict::Crowded,
            records: none(),
            next: place,
            stamp: 0,
        };
    };
    if over_at(text, after.at, first.stamp) {
        return found_alone(first, after.at, board, controls);
    }
    found_together(text, place, first.stamp, board, controls)
}

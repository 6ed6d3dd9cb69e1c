// Every order of one stamp's records: at each place either the next line record or the next bus record comes first.
// Only control is played, by value; no image is looked at.
#![tactic(auto)]

ghost use Rattle.std.specs.Prelude.{◌≡◌, true, not, ◌+◌, ◌<◌, ◌≤◌, take, set};
ghost use Rattle.std.specs.List.{list_all};
ghost use Rattle.law.specs.Deciding.{Decides};
ghost use Rattle.controls.specs.Play.{moved_of, lost_of};
ghost use Rattle.tied.specs.Orders.{after_lines};
ghost use Rattle.orders.specs.Verdicts.{last_tied, Judged};
ghost use Rattle.meaning.specs.Meaning.{L, most};
ghost use Rattle.orders.specs.Stamp.{played, line, Within, BusesPlayed, Reference, Settled, LineAgrees, BusAgrees, Met, buses_from, lines_from};
ghost use Rattle.orders.specs.Lost.{is_off, TiedStays};
ghost use Rattle.orders.specs.LineStates.{of_line, repeats_of, lines_next, told_with, OnlyTelling};

use controls::Controls;
use record::{Board, Event, LineEvent, Lines, Record, Skeleton};
use tying::{Outcome, Tied};

mod tying;

// The most records that may share a stamp: of F or of E, of L, and together.
pub const MOST_BUS: usize = 8;

pub const MOST_LINE: usize = 2;

pub const MOST_IN_ALL: usize = 2 * MOST_BUS + MOST_LINE;

// Records, as many as the count says. It may say more than there is room for: then the stamp is crowded.
// Kept: an array with its count, since document 01 prescribes arrays of record structs, passed and copied by value for each order of one stamp.
#[derive(Clone, Copy)]
pub struct Records<const N: usize> {
    pub records: [Record; N],
    pub count: usize,
}

impl<const N: usize> Records<N> {
    // The records that there are.
    pub fn as_slice(&self) -> &[Record]
        ensures { result.now ≡ take self.now.count self.now.records }
    {
        &self.records[..self.count.min(N)]
    }

    // One record more, for which there is room.
    fn push(&mut self, rec: Record)
        requires { self.old.count < N }
        ensures { self.new ≡ record { records = set self.old.records self.old.count rec; count = self.old.count + 1 } }
    {
        self.records[self.count] = rec;
        self.count += 1;
    }
}

// The records of one stamp by channel.
#[derive(Clone, Copy)]
pub struct Held {
    pub flash: Records<MOST_BUS>,
    pub eeprom: Records<MOST_BUS>,
    pub lines: Records<MOST_LINE>,
}

// The line records that are kept, of those looked at so far, and the lines after these.
#[derive(Clone, Copy)]
struct Told {
    kept: Records<MOST_LINE>,
    lines: Lines,
}

// What is found at a stamp, the first that holds: too many records, orders that differ, a status lost after it.
#[derive(Clone, Copy, Debug, PartialEq, Eq)]
pub enum Verdict {
    Crowded,
    Differ,
    Lost,
    Passes,
}

// Where a bus record and then a line record lead.
fn meeting(bus: Record, line: Record, board: Board, controls: Controls) -> Controls
    ensures { result ≡ played board (played board controls bus) line }
{
    let one = controls.play(board, bus);
    one.controls.play(board, line).controls
}

// Whether this bus record, played after a line record, leads where the two lead the other way round, and says what it should.
fn closes(rec: Record, board: Board, controls: Controls, wanted: Skeleton, met: &Controls) -> bool
    ensures { result ≡ true → moved_of board controls rec ≡ record { controls = met.now; reply = wanted } }
{
    let step = controls.play(board, rec);
    let reply = step.reply;
    if reply != wanted {
        return false;
    }
    step.controls == *met
}

// The line record comes first, and then either kind.
// Where a bus record is left, it and then this line record lead to `met`, and from there every order of the rest is known to agree: where the two lead there the other way round too, nothing is tried twice.
// Kept: places in the two arrays go along with the record, since document 01 prescribes two functions, one taking a line record and one a bus record, that call each other.
#[cycle(bus_next_line_next)]
fn line_next(
    rec: Record,
    tied: Tied,
    ib: usize,
    il: usize,
    controls: Controls,
    met: &Controls,
    want: &Outcome,
) -> bool
    requires within { Within tied ib (il + 1) }
    requires met { Met tied ib il met.now want.now }
    ensures { Decides result (LineAgrees rec tied ib il controls want.now) }
{
    let step = controls.play(tied.board, rec);
    let next = step.controls;
    let at = il + 1;
    if ib < tied.buses.count {
        let b = tied.buses.records[ib];
        if !closes(b, tied.board, next, want.replies[ib], met) {
            if !bus_next(b, tied, ib, at, next, want) {
                return false;
            }
        }
        if at < tied.lines.count {
            let l = tied.lines.records[at];
            let on = met.play(tied.board, l);
            return line_next(l, tied, ib, at, next, &on.controls, want);
        }
        return true;
    }
    if at < tied.lines.count {
        let l = tied.lines.records[at];
        return line_next(l, tied, ib, at, next, met, want);
    }
    next == want.controls
}

// The bus record comes first, and then either kind.
#[cycle(bus_next_line_next)]
fn bus_next(
    rec: Record,
    tied: Tied,
    ib: usize,
    il: usize,
    controls: Controls,
    want: &Outcome,
) -> bool
    requires { Within tied (ib + 1) il }
    ensures { Decides result (BusAgrees rec tied ib il controls want.now) }
{
    let step = controls.play(tied.board, rec);
    let reply = step.reply;
    let expected = want.replies[ib];
    if reply != expected {
        return false;
    }
    let next = step.controls;
    let at = ib + 1;
    if at < tied.buses.count {
        let b = tied.buses.records[at];
        if !bus_next(b, tied, at, il, next, want) {
            return false;
        }
        if il < tied.lines.count {
            let l = tied.lines.records[il];
            let met = meeting(b, l, tied.board, next);
            return line_next(l, tied, at, il, next, &met, want);
        }
        return true;
    }
    if il < tied.lines.count {
        let l = tied.lines.records[il];
        return line_next(l, tied, at, il, next, &next, want);
    }
    next == want.controls
}

// All bus records, and their replies.
fn play_buses(tied: Tied, controls: Controls) -> Outcome
    ensures { BusesPlayed tied controls result }
{
    let mut replies = [Skeleton::Silent; MOST_BUS];
    let mut cur = controls;
    for (i, rec) in tied.buses.as_slice().iter().enumerate() {
        let step = cur.play(tied.board, *rec);
        replies[i] = step.reply;
        cur = step.controls;
    }
    Outcome {
        controls: cur,
        replies,
    }
}

// All line records.
fn play_lines(tied: Tied, controls: Controls) -> Controls
    ensures { result ≡ after_lines (line tied) (lines_from tied 0) controls }
{
    let mut cur = controls;
    for rec in tied.lines.as_slice() {
        let step = cur.play(tied.board, *rec);
        cur = step.controls;
    }
    cur
}

// The reference order: all bus records first.
fn reference(tied: Tied, controls: Controls) -> Outcome
    ensures { Reference tied controls result }
{
    let played = play_buses(tied, controls);
    let replies = played.replies;
    Outcome {
        controls: play_lines(tied, played.controls),
        replies,
    }
}

// Whether any two orders give the same replies and the same controls: every order is tried or known to agree. With no line record, or no bus record, there is only one.
fn tried(tied: Tied, controls: Controls) -> bool
    ensures { Decides result (Settled tied controls) }
{
    if tied.lines.count == 0 {
        return true;
    }
    if tied.buses.count == 0 {
        return true;
    }
    let want = reference(tied, controls);
    let b = tied.buses.records[0];
    if !bus_next(b, tied, 0, 0, controls, &want) {
        return false;
    }
    let l = tied.lines.records[0];
    let met = meeting(b, l, tied.board, controls);
    line_next(l, tied, 0, 0, controls, &met, &want)
}

fn of_line(rec: Record) -> bool
    ensures { result ≡ of_line rec.event }
{
    matches!(rec.event, Event::Line(_))
}

// Whether no line record stands among the bus records: then these leave the lines as they are. It is so of what `stamps` gathers; `judge` takes any arrays.
fn own(tied: Tied) -> bool
    ensures { result ≡ list_all (λ r. not (of_line r.event)) (buses_from tied 0) }
{
    tied.buses.as_slice().iter().all(|rec| !of_line(*rec))
}

// Whether a record repeats the state of its line.
fn repeats(lines: Lines, rec: Record) -> bool
    ensures { result ≡ repeats_of lines rec.event }
{
    match rec.event {
        Event::Line(LineEvent::SupplyOn) => lines.supply,
        Event::Line(LineEvent::SupplyOff) => !lines.supply,
        Event::Line(LineEvent::LockOn) => lines.lock,
        Event::Line(LineEvent::LockOff) => !lines.lock,
        Event::Flash(_) | Event::Eeprom(_) => false,
    }
}

// The lines after any record.
fn lines_next(lines: Lines, rec: Record) -> Lines
    ensures { result ≡ lines_next lines rec.event }
{
    match rec.event {
        Event::Line(e) => record::lines_after(lines, e),
        Event::Flash(_) | Event::Eeprom(_) => lines,
    }
}

// The next record of the lines is kept, unless it repeats a state.
fn tell(told: Told, rec: Record) -> Told
    requires { told.kept.count < most L }
    ensures { result ≡ told_with told rec }
{
    if repeats(told.lines, rec) {
        return told;
    }
    let next = lines_next(told.lines, rec);
    let mut kept = told.kept;
    kept.push(rec);
    Told { kept, lines: next }
}

// The same records without those of the lines that repeat a state, which do nothing.
fn telling(tied: Tied, lines: Lines) -> Tied
    ensures { OnlyTelling tied lines result }
{
    let mut told = Told {
        kept: Records {
            count: 0,
            ..tied.lines
        },
        lines,
    };
    for rec in tied.lines.as_slice() {
        told = tell(told, *rec);
    }
    Tied {
        buses: tied.buses,
        lines: told.kept,
        board: tied.board,
    }
}

// As `tried`, without the line records that repeat a state, where only line records change the lines.
fn agree(tied: Tied, controls: Controls) -> bool
    ensures { Decides result (Settled tied controls) }
{
    if own(tied) {
        tried(telling(tied, controls.lines), controls)
    } else {
        tried(tied, controls)
    }
}

// The controls after all records of F, of E and of L.
fn last(flash: Tied, eeprom: Tied, controls: Controls) -> Controls
    ensures { result ≡ last_tied flash eeprom controls }
{
    let first = play_buses(flash, controls);
    let second = play_buses(eeprom, first.controls);
    play_lines(flash, second.controls)
}

fn is_off(rec: Record) -> bool
    ensures { result ≡ is_off rec.event }
{
    matches!(rec.event, Event::Line(LineEvent::SupplyOff))
}

// Whether no line record is `off`.
fn none_off(tied: Tied) -> bool
    ensures { result ≡ list_all (λ r. not (is_off r.event)) (lines_from tied 0) }
{
    tied.lines.as_slice().iter().all(|rec| !is_off(*rec))
}

// Whether no record can lose the status: only `off` can.
fn status_stays(flash: Tied, eeprom: Tied) -> bool
    ensures { result ≡ true → TiedStays flash eeprom }
{
    own(flash) && own(eeprom) && none_off(flash)
}

// Whether the status is lost after all records.
fn lost_after(flash: Tied, eeprom: Tied, controls: Controls) -> bool
    ensures { result ≡ lost_of (last_tied flash eeprom controls) }
{
    if status_stays(flash, eeprom) {
        return controls.lost();
    }
    let after = last(flash, eeprom, controls);
    after.lost()
}

// What is found at the stamp of these records, from these controls.
pub fn judge(held: Held, board: Board, controls: Controls) -> Verdict
    ensures { Judged board held controls result }
{
    if MOST_BUS < held.flash.count {
        return Verdict::Crowded;
    }
    if MOST_BUS < held.eeprom.count {
        return Verdict::Crowded;
    }
    if MOST_LINE < held.lines.count {
        return Verdict::Crowded;
    }
    let flash = Tied {
        buses: held.flash,
        lines: held.lines,
        board,
    };
    if !agree(flash, controls) {
        return Verdict::Differ;
    }
    let eeprom = Tied {
        buses: held.eeprom,
        lines: held.lines,
        board,
    };
    if !agree(eeprom, controls) {
        return Verdict::Differ;
    }
    if lost_after(flash, eeprom, controls) {
        return Verdict::Lost;
    }
    Verdict::Passes
}

// How long the lines of the merged text are, counted part by part, with nothing spelled: no order of the records is needed for it.
ghost use Rattle.std.specs.Prelude.{◌≡◌, ◌*◌, ◌≤◌, length};
ghost use Rattle.record.specs.declared.Event.{Event};
ghost use Rattle.field.specs.Decimal.{decimal};
ghost use Rattle.line.specs.Records.{spelled_event, spelled};
ghost use Rattle.text.specs.Texts.{text_limit, spelled_all};
ghost use Rattle.decode.specs.Bits.{events_of};
ghost use Rattle.decode.specs.Decoded.{records_at};
ghost use Rattle.merged.specs.Writing.{longest, CountsLevels, CountsTaken};

use decode::{Bits, Out};
use field::Cursor;
use level::Level;
use record::{EepromEvent, Event, FlashEvent, LineEvent, Record};

// A tab's length.
const TAB: usize = 1;

// How many digits a number has.
fn digits(value: u32) -> usize
    ensures { result ≡ length (decimal value) }
{
    if value == 0 {
        return 1;
    }
    1 + value.ilog10() as usize
}

// The rest of the line after the stamp and its tab: the channel's letter and a tab, then a word of two to four letters and the LF, or a byte's word, the byte and what goes with it.
#[tactic(auto, unfolding(line::specs::Records::spelled_event, line::specs::ChannelF::spelled_flash, line::specs::ChannelE::spelled_eeprom, line::specs::ChannelL::spelled_line, field::specs::Hex::hex_field))]
fn event_length(event: Event) -> usize
    ensures { result ≡ length (spelled_event event) }
{
    match event {
        Event::Flash(e) => match e {
            FlashEvent::Byte(_, _) => 10,
            FlashEvent::Select | FlashEvent::Cut | FlashEvent::Deselect | FlashEvent::End => 6,
        },
        Event::Eeprom(e) => match e {
            EepromEvent::Byte(_, _) => 9,
            EepromEvent::Start | EepromEvent::Cut | EepromEvent::Stop | EepromEvent::End => 6,
        },
        Event::Line(e) => match e {
            LineEvent::SupplyOn => 5,
            LineEvent::SupplyOff => 6,
            LineEvent::LockOn | LineEvent::LockOff => 7,
        },
    }
}

// A record's line: the stamp's digits, a tab, and the rest.
fn line_length(rec: Record) -> usize
    ensures { (result ≡ length (spelled rec)) × (result ≤ longest) }
{
    digits(rec.stamp) + TAB + event_length(rec.event)
}

// The lines of what is given at a stamp.
fn out_length(stamp: u32, out: Out) -> usize
    ensures { (result ≡ length (spelled_all (records_at stamp (events_of out)))) × (result ≤ longest * 2) }
{
    match out {
        Out::Nothing => 0,
        Out::One(e) => line_length(Record { stamp, event: e }),
        Out::Two(d, e) => {
            line_length(Record { stamp, event: d }) + line_length(Record { stamp, event: e })
        }
    }
}

// The lines of all that the capture gives, of both buses, behind its line a.
pub(crate) fn levels_length(levels: &[u8], a: Level, from: usize) -> usize
    requires { length levels.now ≤ text_limit }
    ensures { CountsLevels levels.now a from result × (result ≤ longest * 4 * text_limit) }
{
    let mut at = from;
    let mut last = a;
    let mut flash = Bits::of_flash();
    let mut wires = Bits::of_wires();
    let mut sum: usize = 0;
    while at < levels.len() {
        let Some((l, next)) = level::read_level(levels, Cursor { at }) else {
            return sum;
        };
        let of_flash = flash.turn(last, l);
        let of_wires = wires.turn(last, l);
        sum += out_length(l.stamp, of_flash.out) + out_length(l.stamp, of_wires.out);
        at = next.at;
        last = l;
        flash = of_flash.bits;
        wires = of_wires.bits;
    }
    sum
}

// The lines of all that is taken from the logger's trace: they stand there as they are written.
pub(crate) fn taken_length(trace: &[u8], from: usize) -> usize
    requires { length trace.now ≤ text_limit }
    ensures { CountsTaken trace.now from result × (result ≤ text_limit) }
{
    let mut at = from;
    let mut sum: usize = 0;
    while at < trace.len() {
        let Ok((rec, next)) = text::record_at(trace, at) else {
            return sum;
        };
        if capture::is_taken(rec.event) {
            sum += next.at - at;
        }
        at = next.at;
    }
    sum
}

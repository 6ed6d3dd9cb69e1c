// The replay on the caller's own buffers, and what else the desk's viewer and the repair shop's programs call: the page view, the plan, the merge and the second engine. The crate desk_c exports each for C.
// A stamp is judged before a byte of it is played, so nothing is ever undone and no image is copied.
#![tactic(auto)]

ghost use Rattle.std.specs.Prelude.{◌≡◌, ◌+◌, ◌≤◌, length, replicate};
ghost use Rattle.text.specs.Texts.{text_limit};
ghost use Rattle.image.specs.Images.{per_chip};
ghost use Rattle.image.specs.View.{view_place, view_length};
ghost use Rattle.record.specs.Lengths.{replies_length, result_length};
ghost use Rattle.times.specs.Times.{times_length};
ghost use Rattle.buffers.specs.Buffers.{buffers_of, result_after};
ghost use Rattle.record.specs.Answers.{answer_number};
ghost use Rattle.machine.specs.Lent.{images_in};
ghost use Rattle.machine.specs.Lent as lent;
ghost use Rattle.call.specs.Steps.{run_desk};
ghost use Rattle.call.specs.Replay.{ended_as, Replays, chip_of};
ghost use Rattle.call.specs.Run.{ended_with, Runs, Stops};
ghost use Rattle.desk.specs.Desk.{desk_in, buffers_left, Keeps, Notes, IsFresh};
ghost use Rattle.fewest.specs.Call.{left_as, Plans};
ghost use Rattle.merged.specs.Merging.{outputs_of, wrote_as, Merges};
ghost use Rattle.engine.specs.Playing.{lent_of, played_as, Plays};

use controls::Controls;
use machine::LentImages;
use orders::Verdict;
use record::{Answer, Board, Chip, Match, Record, Reply};
use text::Refusal;
use times::Touched;

// The desk while records are played as they are written: what is lent, how many records were played, and how many replies disagree.
// The controls go beside it by value, as the machine takes them: behind the desk's reference each record would copy them once more.
#[derive(Drop)]
struct Desk<'b, 'i> {
    board: Board,
    images: &'b mut LentImages<'i>,
    times: &'b mut [u8],
    replies: &'b mut [u8],
    number: usize,
    count: u32,
}

// How the loop over the stamps ends.
#[derive(Clone, Copy)]
struct End {
    answer: Answer,
    stamp: u32,
}

// What a verdict ends the replay with, where it does.
fn stop_of(v: Verdict) -> Option<Answer>
    ensures { Stops v result }
{
    match v {
        Verdict::Crowded => Some(Answer::Crowded),
        Verdict::Differ => Some(Answer::OrdersDiffer),
        Verdict::Lost => Some(Answer::StatusLost),
        Verdict::Passes => None,
    }
}

impl Desk<'_, '_> {
    // What a record gave is written: its pages' times and its reply.
    fn note(&mut self, rec: Record, reply: Reply, touched: Touched)
        requires { (self.old.number ≤ 1000000) × (self.old.count ≤ 1000000) }
        ensures keeps { Keeps self.old self.new }
        ensures notes { Notes rec reply touched self.old self.new }
        ensures counts { self.new.count ≤ self.old.count + 1 }
    {
        times::put_times(self.times, rec.stamp, touched);
        let found = machine::compare(rec.event, reply);
        let number = self.number;
        buffers::put_reply(self.replies, number, reply, found);
        self.number = number + 1;
        self.count += u32::from(found == Match::Disagrees);
    }

    // The records of one stamp, as they are written; the controls after them.
    fn play_all(&mut self, controls: Controls, records: &[Record]) -> Controls
        requires { (self.old.number + length records.now ≤ 1000000) × (self.old.count + length records.now ≤ 1000000) }
        ensures keeps { Keeps self.old self.new }
        ensures runs { desk_in result self.new ≡ run_desk self.old.board records.now (desk_in controls self.old) }
        ensures counts { (self.new.number ≤ self.old.number + length records.now) × (self.new.count ≤ self.old.count + length records.now) }
    {
        let mut cur = controls;
        for rec in records {
            let played = machine::play(self.board, cur, *rec, self.images);
            self.note(*rec, played.reply, played.touched);
            cur = played.controls;
        }
        cur
    }

    // Stamp by stamp: judged on the controls, then played. A stamp of one record, as most are, is played without a loop of its own.
    fn run(&mut self, text: &[u8], first: usize) -> End
        requires short { length text.now ≤ text_limit }
        requires fresh { IsFresh self.old }
        ensures keeps { Keeps self.old self.new }
        ensures runs { Runs text.now first self.old.board (images_in self.old.images.now) self.old.times.now self.old.replies.now
            (ended_with result.answer result.stamp self.new.count (images_in self.new.images.now) self.new.times.now self.new.replies.now) }
    {
        let mut cur = Controls::start(self.board);
        let mut place = first;
        while place < text.len() {
            let j = stamps::judge_at(text, place, self.board, cur);
            if let Some(answer) = stop_of(j.verdict) {
                return End {
                    answer,
                    stamp: j.stamp,
                };
            }
            let records = j.records.records;
            if j.records.count == 1 {
                let alone = records[0];
                let played = machine::play(self.board, cur, alone, self.images);
                self.note(alone, played.reply, played.touched);
                cur = played.controls;
            } else {
                let many = j.records.count.min(orders::MOST_IN_ALL);
                cur = self.play_all(cur, &records[..many]);
            }
            place = j.next;
        }
        End {
            answer: Answer::Settled,
            stamp: 0,
        }
    }
}

// A readable text on buffers that fit.
fn replay(
    text: &[u8],
    first: usize,
    board: Board,
    images: &mut LentImages<'_>,
    times: &mut [u8],
    replies: &mut [u8],
    res: &mut [u8],
) -> u32
    requires short { length text.now ≤ text_limit }
    requires fits { (length times.old ≡ times_length) × (length replies.old ≡ replies_length) × (length res.old ≡ result_length) }
    ensures keeps { lent.Keeps images.old images.new }
    ensures runs { Runs text.now first board (images_in images.old) (replicate times_length 0) (replicate replies_length 0)
        (ended_as result (buffers_left images.new times.new replies.new res.new)) }
{
    buffers::clear_all(times);
    buffers::clear_all(replies);
    let mut desk = Desk {
        board,
        images,
        times,
        replies,
        number: 0,
        count: 0,
    };
    let end = desk.run(text, first);
    buffers::put_answer(
        res,
        u32::from(end.answer),
        end.stamp as usize,
        desk.count,
        0,
    )
}

// A refusal writes only the result: the answer, the line, no count, the field.
fn refuse(res: &mut [u8], refusal: Refusal) -> u32
    ensures { (result ≡ answer_number refusal.answer) × (res.new ≡ result_after (answer_number refusal.answer) refusal.line 0 refusal.field res.old) }
{
    buffers::put_answer(
        res,
        u32::from(refusal.answer),
        refusal.line,
        0,
        refusal.field,
    )
}

// A refusal of the whole call, with no line.
fn refuse_whole(res: &mut [u8], answer: Answer) -> u32
    ensures { (result ≡ answer_number answer) × (res.new ≡ result_after (answer_number answer) 0 0 0 res.old) }
{
    refuse(
        res,
        Refusal {
            answer,
            line: 0,
            field: 0,
        },
    )
}

// Kept: the lent buffers are a slice each, and the answer a number here and in what this calls: desk_c exports the call to C.
// The call: document 01's table of answers 0 to 8, on the caller's own buffers; with the pages' times, and a 3 with its field (document 02, requests 1/12 and 2/12).
pub fn hazelcrook_replay(
    text: &[u8],
    flash: &mut [u8],
    flash_mask: &mut [u8],
    eeprom: &mut [u8],
    eeprom_mask: &mut [u8],
    times: &mut [u8],
    replies: &mut [u8],
    res: &mut [u8],
) -> u32
    ensures { Replays text.now
        (buffers_of flash.old flash_mask.old eeprom.old eeprom_mask.old times.old replies.old res.old)
        (ended_as result (buffers_of flash.new flash_mask.new eeprom.new eeprom_mask.new times.new replies.new res.new)) }
{
    if !buffers::fits_all(flash, flash_mask, eeprom, eeprom_mask, times, replies, res) {
        return refuse_whole(res, Answer::BadBuffers);
    }
    if text::too_long(text) {
        return refuse_whole(res, Answer::TooLong);
    }
    match text::check_text(text) {
        Ok((board, first)) => {
            let mut images = LentImages {
                flash,
                flash_mask,
                eeprom,
                eeprom_mask,
            };
            replay(text, first.at, board, &mut images, times, replies, res)
        }
        Err(refusal) => refuse(res, refusal),
    }
}

// Kept: C gives a chip as a number, and any number names one (call's chip_of): there is none that a TryFrom would refuse.
fn chip_of(chip: u32) -> Chip
    ensures { result ≡ chip_of chip }
{
    if chip == 0 { Chip::Flash } else { Chip::Eeprom }
}

// Where a page stands in its image, by the images' lengths: the page view for a C caller.
pub fn hazelcrook_page_place(flash: usize, eeprom: usize, chip: u32, number: usize) -> usize
    ensures { result ≡ view_place (per_chip flash eeprom) (chip_of chip) number }
{
    image::view::view_place(flash, eeprom, chip_of(chip), number)
}

// How long the page is; 0 is refusal 11.
pub fn hazelcrook_page_length(flash: usize, eeprom: usize, chip: u32, number: usize) -> usize
    ensures { result ≡ view_length (per_chip flash eeprom) (chip_of chip) number }
{
    image::view::view_length(flash, eeprom, chip_of(chip), number)
}

// The plan that refills the flash in the fewest write cycles: answers 0, 14, 15 and 16 (document 02, request 6/12).
pub fn hazelcrook_plan(
    present: &[u8],
    wanted: &[u8],
    status: u8,
    list: &mut [u8],
    res: &mut [u8],
) -> u32
    ensures { Plans status present.now wanted.now list.old res.old (left_as result list.new res.new) }
{
    planner::plan(present, wanted, status, list, res)
}

// One trace of a capture and a logger's trace: answers 0 to 5, 10, 12 and 13 (document 02, request 4/12).
pub fn hazelcrook_merge(levels: &[u8], trace: &[u8], output: &mut [u8], res: &mut [u8]) -> u32
    ensures { Merges levels.now trace.now (outputs_of output.old res.old) (wrote_as result (outputs_of output.new res.new)) }
{
    merged::merge(levels, trace, output, res)
}

// Kept: a slice for each lent buffer, and a number for the answer, as above: desk_c exports it to C.
// The second engine, which plays the levels straight through: answers 0 to 5, 12 and 13 (document 02, request 4/12).
pub fn hazelcrook_play_levels(
    levels: &[u8],
    trace: &[u8],
    flash: &mut [u8],
    flash_mask: &mut [u8],
    eeprom: &mut [u8],
    eeprom_mask: &mut [u8],
    res: &mut [u8],
) -> u32
    ensures { Plays levels.now trace.now
        (lent_of flash.old flash_mask.old eeprom.old eeprom_mask.old res.old)
        (played_as result (lent_of flash.new flash_mask.new eeprom.new eeprom_mask.new res.new)) }
{
    engine::play_levels(levels, trace, flash, flash_mask, eeprom, eeprom_mask, res)
}

// The merged text (document 02, request 4/12): whether there is room for it first, then its lines, so that an output that is too short stays as it is.
#![tactic(auto)]

ghost use Rattle.std.specs.Prelude.{◌≡◌, ◌≤◌, length};
ghost use Rattle.text.specs.Texts.{text_limit};
ghost use Rattle.merged.specs.Merging.{outputs_of, wrote_as, Merges};
ghost use Rattle.merged.specs.Writing.{HasRoom, WritesLine, WritesAll, WritesText};

use judge::Accepted;
use record::{Answer, Board, LevelsAnswer, Record};
use weave::Weave;

mod length;

// The board's line has always the same length.
const BOARD_LINE: usize = 13;

// No merged text is longer: the board's line, and as many of the longest lines as both texts can give.
pub const ROOM: usize = 540553;

// Whether so many bytes have room for the text. Lines are only counted where they may not have it. No order is asked: behind the first line of each text every line is read once.
fn has_room(levels: &[u8], trace: &[u8], both: Accepted, bytes: usize) -> bool
    requires { (length levels.now ≤ text_limit) × (length trace.now ≤ text_limit) }
    ensures { HasRoom levels.now trace.now both.level both.at both.first bytes result }
{
    if ROOM <= bytes {
        return true;
    }
    let decoded = length::levels_length(levels, both.level, both.at);
    let taken = length::taken_length(trace, both.first);
    BOARD_LINE + decoded + taken <= bytes
}

// A record's line from a place of the output on, and the place after it.
fn write_line(rec: Record, output: &mut [u8], at: usize) -> usize
    ensures { WritesLine rec at output.old output.new result }
{
    if output.len() < at {
        return at;
    }
    at + line::write_record(rec, &mut output[at..]).unwrap_or(0)
}

// The lines of all records that are left, and the place after the last.
fn write_all(left: Weave<'_>, from: usize, output: &mut [u8]) -> usize
    ensures { WritesAll left.entry from output.old output.new result }
{
    let mut at = from;
    for rec in left.take(weave::MOST) {
        at = write_line(rec, output, at);
    }
    at
}

// The board's line, then all records' lines; the length of the text.
fn write_text(left: Weave<'_>, board: Board, output: &mut [u8]) -> usize
    ensures { WritesText left.entry board output.old output.new result }
{
    let Ok(n) = line::write_board(board, output) else {
        return 0;
    };
    write_all(left, n, output)
}

// Refusal 1, then both texts are judged, then 10, then the text is written.
// Kept: the answer is a number by the C interface, which `desk_c` hands on.
pub fn merge(levels: &[u8], trace: &[u8], output: &mut [u8], res: &mut [u8]) -> u32
    ensures { Merges levels.now trace.now (outputs_of output.old res.old) (wrote_as result (outputs_of output.new res.new)) }
{
    if res.len() != record::RESULT {
        return buffers::put_answer(res, Answer::BadBuffers.into(), 0, 0, 0);
    }
    let both = match judge::judge(levels, trace) {
        Ok(both) => both,
        Err(refused) => {
            return buffers::put_answer(res, refused.answer.into(), refused.line, 0, refused.field);
        }
    };
    if !has_room(levels, trace, both, output.len()) {
        return buffers::put_answer(res, LevelsAnswer::TooShort.into(), 0, 0, 0);
    }
    let all = Weave::new(levels, trace, both.level, both.at, both.first);
    let length = write_text(all, both.board, output);
    buffers::put_answer(res, Answer::Settled.into(), 0, length as u32, 0)
}

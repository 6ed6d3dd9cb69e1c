// The lines of the listings, each put together before it is copied out.
// Kept: by the spelling's own methods, word, decimal and hex, and no Display, which would promise less: put_all says which bytes are appended.
ghost use Rattle.std.specs.Prelude.{◌≡◌};
ghost use Rattle.field.specs.Spelling.{no_bytes, put_all};
ghost use Rattle.listing.specs.Pages.{pages_heading, chip_text, page_line};
ghost use Rattle.listing.specs.Lines.{heading, byte_text, reply_text, match_text, record_line, settled_line, stop_line, last_line, refused_line};

use field::Spelling;
use record::{Chip, Match, Reply};

#[tactic(auto, unfolding(crate::specs::Lines::heading))]
pub fn heading_line() -> Spelling
    ensures { result ≡ put_all no_bytes heading }
{
    Spelling::new().word(b"line\tstamp\treply\tmatch\n")
}

// value/mask
#[tactic(auto, using(field::proofs::SpellingLaws::put_then), unfolding(crate::specs::Lines::byte_text))]
fn put_byte(s: Spelling, value: u8, mask: u8) -> Spelling
    ensures { result ≡ put_all s (byte_text value mask) }
{
    s.hex(value).word(b"/").hex(mask)
}

#[tactic(auto, unfolding(crate::specs::Lines::reply_text, field::specs::Spelling::put_all))]
fn put_reply(s: Spelling, reply: Reply) -> Spelling
    ensures { result ≡ put_all s (reply_text reply) }
{
    match reply {
        Reply::NotPlayed => s,
        Reply::Silent => s.word(b"-"),
        Reply::Byte(value, mask) => put_byte(s, value, mask),
        Reply::Ack => s.word(b"ack"),
        Reply::NoAck => s.word(b"no"),
        Reply::Starts => s.word(b"starts"),
        Reply::Ends => s.word(b"ends"),
        Reply::NoCycle => s.word(b"idle"),
    }
}

#[tactic(auto, unfolding(crate::specs::Lines::match_text))]
fn put_match(s: Spelling, found: Match) -> Spelling
    ensures { result ≡ put_all s (match_text found) }
{
    match found {
        Match::Nothing => s.word(b"."),
        Match::Agrees => s.word(b"="),
        Match::Disagrees => s.word(b"!"),
    }
}

// Line number, stamp, reply and match.
#[tactic(auto, using(field::proofs::SpellingLaws::put_then), unfolding(crate::specs::Lines::record_line))]
pub fn record_line(number: u32, stamp: u32, reply: Reply, found: Match) -> Spelling
    ensures { result ≡ put_all no_bytes (record_line number stamp reply found) }
{
    let s = Spelling::new().decimal(number).word(b"\t").decimal(stamp);
    let s = put_reply(s.word(b"\t"), reply);
    put_match(s.word(b"\t"), found).word(b"\n")
}

#[tactic(auto, using(field::proofs::SpellingLaws::put_then), unfolding(crate::specs::Lines::settled_line))]
fn settled_line(count: u32) -> Spelling
    ensures { result ≡ put_all no_bytes (settled_line count) }
{
    Spelling::new()
        .word(b"settled\t")
        .decimal(count)
        .word(b"\n")
}

#[tactic(auto, using(field::proofs::SpellingLaws::put_then), unfolding(crate::specs::Lines::stop_line))]
fn stop_line(number: u32, stamp: u32) -> Spelling
    ensures { result ≡ put_all no_bytes (stop_line number stamp) }
{
    let s = Spelling::new().word(b"stop\t").decimal(number);
    s.word(b"\t").decimal(stamp).word(b"\n")
}

// The last line of what was played.
// Kept: an answer is a number here and in `refused_line`, as in `Told`.
#[tactic(auto, unfolding(crate::specs::Lines::last_line))]
pub fn last_line(answer: u32, stamp: u32, count: u32) -> Spelling
    ensures { result ≡ put_all no_bytes (last_line answer stamp count) }
{
    if answer == 0 {
        return settled_line(count);
    }
    stop_line(answer, stamp)
}

// A refusal's number, its line, and the line's first bad field.
#[tactic(auto, using(field::proofs::SpellingLaws::put_then), unfolding(crate::specs::Lines::refused_line))]
pub fn refused_line(number: u32, line: u32, bad: u32) -> Spelling
    ensures { result ≡ put_all no_bytes (refused_line number line bad) }
{
    let s = Spelling::new().word(b"refused\t").decimal(number);
    let s = s.word(b"\t").decimal(line);
    s.word(b"\t").decimal(bad).word(b"\n")
}

#[tactic(auto, unfolding(crate::specs::Pages::pages_heading))]
pub fn pages_heading_line() -> Spelling
    ensures { result ≡ put_all no_bytes pages_heading }
{
    Spelling::new().word(b"chip\tpage\tstamp\n")
}

fn put_chip(s: Spelling, chip: Chip) -> Spelling
    ensures { result ≡ put_all s (chip_text chip) }
{
    match chip {
        Chip::Flash => s.word(b"flash"),
        Chip::Eeprom => s.word(b"eeprom"),
    }
}

// Chip, page number and stamp.
#[tactic(auto, using(field::proofs::SpellingLaws::put_then), unfolding(crate::specs::Pages::page_line))]
pub fn page_line(chip: Chip, number: u32, stamp: u32) -> Spelling
    ensures { result ≡ put_all no_bytes (page_line chip number stamp) }
{
    let s = put_chip(Spelling::new(), chip).word(b"\t");
    s.decimal(number).word(b"\t").decimal(stamp).word(b"\n")
}

// Every malformed form, each impossible record and falling stamps, each printed with the number, the line and the field that it is refused with (0, 0 and 0
// where the text can be replayed); then lines that are read and written back, and boards that are written. What is printed is compared with `stdout`.
#![tactic(auto)]

mod show;

use show::{again, answer, board};
use std::io;

fn first_line<R: Print>(rt: &R) -> io::Result<()> {
    answer(rt, "no text", b"")?;
    answer(rt, "a board alone", b"board\t00\t1\t0\n")?;
    answer(rt, "board, no LF", b"board\t00\t1\t0")?;
    answer(rt, "empty line 1", b"\n")
}

fn board_separators<R: Print>(rt: &R) -> io::Result<()> {
    answer(rt, "board, two tabs", b"board\t\t00\t1\t0\n")?;
    answer(rt, "board, no tab", b"board00\t1\t0\n")?;
    answer(rt, "board, blank", b"board 00\t1\t0\n")?;
    answer(rt, "board, CR", b"board\t00\t1\t0\r\n")
}

fn board_words<R: Print>(rt: &R) -> io::Result<()> {
    answer(rt, "Board", b"Board\t00\t1\t0\n")?;
    answer(rt, "board2", b"board2\t00\t1\t0\n")?;
    answer(rt, "board, extra field", b"board\t00\t1\t0\t1\n")?;
    answer(rt, "board, missing field", b"board\t00\t1\n")?;
    answer(rt, "record first", b"10\tF\tsel\n")
}

fn statuses<R: Print>(rt: &R) -> io::Result<()> {
    answer(rt, "status 8c", b"board\t8c\t1\t0\n")?;
    answer(rt, "status 8C", b"board\t8C\t1\t0\n")?;
    answer(rt, "status 01", b"board\t01\t1\t0\n")?;
    answer(rt, "status 02", b"board\t02\t1\t0\n")
}

fn status_bits<R: Print>(rt: &R) -> io::Result<()> {
    answer(rt, "status 10", b"board\t10\t1\t0\n")?;
    answer(rt, "status 20", b"board\t20\t1\t0\n")?;
    answer(rt, "status 40", b"board\t40\t1\t0\n")?;
    answer(rt, "status 0", b"board\t0\t1\t0\n")
}

fn sectors<R: Print>(rt: &R) -> io::Result<()> {
    answer(rt, "sector 0", b"board\t00\t0\t0\n")?;
    answer(rt, "sector 1", b"board\t00\t1\t0\n")?;
    answer(rt, "sector 4", b"board\t00\t4\t0\n")?;
    answer(rt, "sector 5", b"board\t00\t5\t0\n")?;
    answer(rt, "sector 01", b"board\t00\t01\t0\n")
}

fn addresses<R: Print>(rt: &R) -> io::Result<()> {
    answer(rt, "address 7", b"board\t00\t1\t7\n")?;
    answer(rt, "address 8", b"board\t00\t1\t8\n")?;
    answer(rt, "address 00", b"board\t00\t1\t00\n")
}

fn tabs<R: Print>(rt: &R) -> io::Result<()> {
    answer(rt, "good line", b"board\t00\t1\t0\n10\tF\tsel\n")?;
    answer(rt, "two tabs", b"board\t00\t1\t0\n10\t\tF\tsel\n")?;
    answer(rt, "two tabs later", b"board\t00\t1\t0\n10\tF\t\tsel\n")?;
    answer(rt, "no tab", b"board\t00\t1\t0\n10F\tsel\n")?;
    answer(rt, "no tab later", b"board\t00\t1\t0\n10\tFsel\n")
}

fn blanks<R: Print>(rt: &R) -> io::Result<()> {
    answer(rt, "blank", b"board\t00\t1\t0\n10 F\tsel\n")?;
    answer(rt, "blank before", b"board\t00\t1\t0\n 10\tF\tsel\n")?;
    answer(rt, "blank after", b"board\t00\t1\t0\n10\tF\tsel \n")?;
    answer(rt, "tab after", b"board\t00\t1\t0\n10\tF\tsel\t\n")?;
    answer(rt, "CR", b"board\t00\t1\t0\n10\tF\tsel\r\n")
}

fn empty_lines<R: Print>(rt: &R) -> io::Result<()> {
    answer(rt, "empty line", b"board\t00\t1\t0\n\n")?;
    answer(
        rt,
        "empty line between",
        b"board\t00\t1\t0\n10\tF\tsel\n\n10\tF\tdes\n",
    )?;
    answer(rt, "empty line last", b"board\t00\t1\t0\n10\tF\tsel\n\n")
}

fn last_line_end<R: Print>(rt: &R) -> io::Result<()> {
    answer(rt, "no last LF", b"board\t00\t1\t0\n10\tF\tsel")?;
    answer(
        rt,
        "no last LF, line 3",
        b"board\t00\t1\t0\n10\tF\tsel\n10\tF\tdes",
    )?;
    answer(rt, "part of a line", b"board\t00\t1\t0\n10\tF\tsel\n1")?;
    answer(rt, "part of a word", b"board\t00\t1\t0\n10\tF\tse")?;
    answer(rt, "part of a byte", b"board\t00\t1\t0\n10\tF\tx\t0")
}

fn fields_missing<R: Print>(rt: &R) -> io::Result<()> {
    answer(rt, "a stamp alone", b"board\t00\t1\t0\n10\n")?;
    answer(rt, "stamp and channel alone", b"board\t00\t1\t0\n10\tF\n")?;
    answer(rt, "board alone", b"board\n")
}

fn stamp_digits<R: Print>(rt: &R) -> io::Result<()> {
    answer(rt, "stamp 0", b"board\t00\t1\t0\n0\tF\tsel\n")?;
    answer(rt, "leading zero", b"board\t00\t1\t0\n010\tF\tsel\n")?;
    answer(rt, "stamp 00", b"board\t00\t1\t0\n00\tF\tsel\n")?;
    answer(rt, "plus", b"board\t00\t1\t0\n+1\tF\tsel\n")?;
    answer(rt, "minus", b"board\t00\t1\t0\n-1\tF\tsel\n")?;
    answer(rt, "no stamp", b"board\t00\t1\t0\n\tF\tsel\n")
}

fn stamp_limit<R: Print>(rt: &R) -> io::Result<()> {
    answer(rt, "4294967295", b"board\t00\t1\t0\n4294967295\tF\tsel\n")?;
    answer(rt, "4294967296", b"board\t00\t1\t0\n4294967296\tF\tsel\n")?;
    answer(rt, "9999999999", b"board\t00\t1\t0\n9999999999\tF\tsel\n")?;
    answer(
        rt,
        "20 digits",
        b"board\t00\t1\t0\n18446744073709551617\tF\tsel\n",
    )
}

fn stamp_bytes<R: Print>(rt: &R) -> io::Result<()> {
    answer(rt, "12.0", b"board\t00\t1\t0\n12.0\tF\tsel\n")?;
    answer(rt, "1a", b"board\t00\t1\t0\n1a\tF\tsel\n")?;
    answer(rt, "digit past 9", b"board\t00\t1\t0\n1:\tF\tsel\n")
}

fn hex_digits<R: Print>(rt: &R) -> io::Result<()> {
    answer(
        rt,
        "upper-case hex",
        b"board\t00\t1\t0\n1\tF\tsel\n1\tF\tx\tAB\t00\n",
    )?;
    answer(
        rt,
        "lower-case hex",
        b"board\t00\t1\t0\n1\tF\tsel\n1\tF\tx\tab\t0f\n",
    )?;
    answer(
        rt,
        "hex of one digit",
        b"board\t00\t1\t0\n1\tF\tsel\n1\tF\tx\t5\tff\n",
    )?;
    answer(
        rt,
        "hex of three digits",
        b"board\t00\t1\t0\n1\tF\tsel\n1\tF\tx\t005\tff\n",
    )?;
    answer(
        rt,
        "hex g",
        b"board\t00\t1\t0\n1\tF\tsel\n1\tF\tx\t0g\tff\n",
    )
}

fn channels<R: Print>(rt: &R) -> io::Result<()> {
    answer(rt, "channel C", b"board\t00\t1\t0\n1\tC\tsta\n")?;
    answer(rt, "channel f", b"board\t00\t1\t0\n1\tf\tsel\n")?;
    answer(rt, "no channel", b"board\t00\t1\t0\n1\t\tsel\n")
}

fn words_of_other_channels<R: Print>(rt: &R) -> io::Result<()> {
    answer(rt, "F sta", b"board\t00\t1\t0\n1\tF\tsta\n")?;
    answer(rt, "E sel", b"board\t00\t1\t0\n1\tE\tsel\n")?;
    answer(rt, "L end", b"board\t00\t1\t0\n1\tL\tend\n")?;
    answer(rt, "F on", b"board\t00\t1\t0\n1\tF\ton\n")
}

fn event_words<R: Print>(rt: &R) -> io::Result<()> {
    answer(rt, "F select", b"board\t00\t1\t0\n1\tF\tselect\n")?;
    answer(rt, "F SEL", b"board\t00\t1\t0\n1\tF\tSEL\n")?;
    answer(rt, "no event", b"board\t00\t1\t0\n1\tF\t\n")?;
    answer(rt, "extra field", b"board\t00\t1\t0\n1\tF\tsel\t00\n")
}

fn event_fields<R: Print>(rt: &R) -> io::Result<()> {
    answer(
        rt,
        "extra after x",
        b"board\t00\t1\t0\n1\tF\tsel\n1\tF\tx\t05\tff\t00\n",
    )?;
    answer(
        rt,
        "missing field of x",
        b"board\t00\t1\t0\n1\tF\tsel\n1\tF\tx\t05\n",
    )?;
    answer(
        rt,
        "missing field of b",
        b"board\t00\t1\t0\n1\tE\tsta\n1\tE\tb\ta0\n",
    )?;
    answer(rt, "ack 2", b"board\t00\t1\t0\n1\tE\tsta\n1\tE\tb\ta0\t2\n")?;
    answer(
        rt,
        "ack 00",
        b"board\t00\t1\t0\n1\tE\tsta\n1\tE\tb\ta0\t00\n",
    )
}

fn odd_bytes<R: Print>(rt: &R) -> io::Result<()> {
    answer(rt, "NUL line", b"board\t00\t1\t0\n\x00")?;
    answer(rt, "NUL in a line", b"board\t00\t1\t0\n1\tF\tsel\x00\n")?;
    answer(rt, "byte ff", b"board\t00\t1\t0\n1\tF\tsel\xff\n")?;
    answer(rt, "byte 80", b"board\t00\t1\t0\n\x80\tF\tsel\n")
}

fn every_event<R: Print>(rt: &R) -> io::Result<()> {
    answer(rt, "second board", b"board\t00\t1\t0\nboard\t00\t1\t0\n")?;
    answer(
        rt,
        "every event",
        b"board\t00\t1\t0\n1\tF\tsel\n1\tF\tx\t05\tff\n1\tF\tcut\n1\tF\tend\n1\tF\tdes\n2\tE\tsta\n2\tE\tb\ta0\t0\n2\tE\tb\t00\t1\n2\tE\tcut\n2\tE\tend\n2\tE\tsto\n3\tL\toff\n3\tL\ton\n3\tL\tlock\n3\tL\tfree\n",
    )
}

fn falling_stamps<R: Print>(rt: &R) -> io::Result<()> {
    answer(
        rt,
        "equal stamps",
        b"board\t00\t1\t0\n5\tF\tsel\n5\tF\tdes\n",
    )?;
    answer(rt, "falling", b"board\t00\t1\t0\n10\tF\tsel\n9\tF\tdes\n")?;
    answer(
        rt,
        "falling to 0",
        b"board\t00\t1\t0\n1\tL\ton\n0\tL\toff\n",
    )?;
    answer(
        rt,
        "falling on another channel",
        b"board\t00\t1\t0\n10\tF\tsel\n20\tE\tsta\n19\tL\ton\n",
    )
}

fn first_bad_line<R: Print>(rt: &R) -> io::Result<()> {
    answer(
        rt,
        "falling and impossible",
        b"board\t00\t1\t0\n10\tF\tsel\n9\tF\tsel\n",
    )?;
    answer(
        rt,
        "falling and of wrong form",
        b"board\t00\t1\t0\n10\tF\tsel\n9\tF\tsta\n",
    )?;
    answer(
        rt,
        "impossible, then wrong form",
        b"board\t00\t1\t0\n10\tF\tdes\nx\n",
    )?;
    answer(
        rt,
        "wrong form, then falling",
        b"board\t00\t1\t0\n10\tF\tsel\nx\n9\tF\tdes\n",
    )
}

fn flash_closed<R: Print>(rt: &R) -> io::Result<()> {
    answer(
        rt,
        "sel while selected",
        b"board\t00\t1\t0\n1\tF\tsel\n1\tF\tsel\n",
    )?;
    answer(rt, "x while not", b"board\t00\t1\t0\n1\tF\tx\t05\tff\n")?;
    answer(rt, "F cut while not", b"board\t00\t1\t0\n1\tF\tcut\n")?;
    answer(rt, "des while not", b"board\t00\t1\t0\n1\tF\tdes\n")?;
    answer(
        rt,
        "F end at any time",
        b"board\t00\t1\t0\n1\tF\tend\n1\tF\tsel\n1\tF\tend\n",
    )
}

fn flash_spoilt<R: Print>(rt: &R) -> io::Result<()> {
    answer(
        rt,
        "x after des",
        b"board\t00\t1\t0\n1\tF\tsel\n1\tF\tdes\n1\tF\tx\t05\tff\n",
    )?;
    answer(
        rt,
        "sel after F cut",
        b"board\t00\t1\t0\n1\tF\tsel\n1\tF\tcut\n1\tF\tsel\n",
    )?;
    answer(
        rt,
        "x after F cut",
        b"board\t00\t1\t0\n1\tF\tsel\n1\tF\tcut\n1\tF\tx\t00\t00\n",
    )?;
    answer(
        rt,
        "cut after F cut",
        b"board\t00\t1\t0\n1\tF\tsel\n1\tF\tcut\n1\tF\tcut\n",
    )?;
    answer(
        rt,
        "end and des after F cut",
        b"board\t00\t1\t0\n1\tF\tsel\n1\tF\tcut\n1\tF\tend\n1\tF\tdes\n1\tF\tsel\n",
    )?;
    answer(
        rt,
        "x after F cut and end",
        b"board\t00\t1\t0\n1\tF\tsel\n1\tF\tcut\n1\tF\tend\n1\tF\tx\t00\t00\n",
    )
}

fn flash_apart<R: Print>(rt: &R) -> io::Result<()> {
    answer(
        rt,
        "sel, off, sel",
        b"board\t00\t1\t0\n1\tF\tsel\n2\tL\toff\n3\tF\tsel\n",
    )?;
    answer(
        rt,
        "E leaves F alone",
        b"board\t00\t1\t0\n1\tE\tsta\n1\tF\tx\t00\t00\n",
    )
}

fn eeprom_closed<R: Print>(rt: &R) -> io::Result<()> {
    answer(rt, "b with no sta", b"board\t00\t1\t0\n1\tE\tb\ta0\t0\n")?;
    answer(rt, "E cut with no sta", b"board\t00\t1\t0\n1\tE\tcut\n")?;
    answer(rt, "sto with no sta", b"board\t00\t1\t0\n1\tE\tsto\n")?;
    answer(
        rt,
        "E end at any time",
        b"board\t00\t1\t0\n1\tE\tend\n1\tE\tsta\n1\tE\tend\n",
    )?;
    answer(rt, "sta, sta", b"board\t00\t1\t0\n1\tE\tsta\n1\tE\tsta\n")
}

fn eeprom_spoilt<R: Print>(rt: &R) -> io::Result<()> {
    answer(
        rt,
        "b after sto",
        b"board\t00\t1\t0\n1\tE\tsta\n1\tE\tsto\n1\tE\tb\ta0\t0\n",
    )?;
    answer(
        rt,
        "sto after sto",
        b"board\t00\t1\t0\n1\tE\tsta\n1\tE\tsto\n1\tE\tsto\n",
    )?;
    answer(
        rt,
        "b after E cut",
        b"board\t00\t1\t0\n1\tE\tsta\n1\tE\tcut\n1\tE\tb\ta0\t0\n",
    )?;
    answer(
        rt,
        "cut after E cut",
        b"board\t00\t1\t0\n1\tE\tsta\n1\tE\tcut\n1\tE\tcut\n",
    )?;
    answer(
        rt,
        "sta after E cut",
        b"board\t00\t1\t0\n1\tE\tsta\n1\tE\tcut\n1\tE\tsta\n1\tE\tb\ta0\t1\n",
    )?;
    answer(
        rt,
        "end and sto after E cut",
        b"board\t00\t1\t0\n1\tE\tsta\n1\tE\tcut\n1\tE\tend\n1\tE\tsto\n",
    )
}

fn eeprom_apart<R: Print>(rt: &R) -> io::Result<()> {
    answer(
        rt,
        "F leaves E alone",
        b"board\t00\t1\t0\n1\tF\tsel\n1\tE\tb\ta0\t0\n",
    )
}

fn flash_lines<R: Print>(rt: &R) -> io::Result<()> {
    again(rt, b"0\tF\tsel\n")?;
    again(rt, b"4294967295\tF\tx\t05\tff\n")?;
    again(rt, b"10\tF\tcut\n")?;
    again(rt, b"10\tF\tdes\n")?;
    again(rt, b"10\tF\tend\n")
}

fn eeprom_lines<R: Print>(rt: &R) -> io::Result<()> {
    again(rt, b"7\tE\tsta\n")?;
    again(rt, b"7\tE\tb\ta0\t0\n")?;
    again(rt, b"7\tE\tb\t00\t1\n")?;
    again(rt, b"7\tE\tcut\n")?;
    again(rt, b"7\tE\tsto\n")?;
    again(rt, b"7\tE\tend\n")
}

fn line_lines<R: Print>(rt: &R) -> io::Result<()> {
    again(rt, b"100\tL\ton\n")?;
    again(rt, b"100\tL\toff\n")?;
    again(rt, b"100\tL\tlock\n")?;
    again(rt, b"100\tL\tfree\n")
}

fn boards_written<R: Print>(rt: &R) -> io::Result<()> {
    board(rt, 140, 4, 7, 32)?;
    board(rt, 0, 1, 0, 13)?;
    board(rt, 0, 1, 0, 12)?;
    board(rt, 1, 1, 0, 32)?;
    board(rt, 16, 1, 0, 32)
}

fn boards_refused<R: Print>(rt: &R) -> io::Result<()> {
    board(rt, 0, 0, 0, 32)?;
    board(rt, 0, 5, 0, 32)?;
    board(rt, 0, 1, 8, 32)?;
    board(rt, 0, 5, 0, 0)
}

fn boards<R: Print>(rt: &R) -> io::Result<()> {
    first_line(rt)?;
    board_separators(rt)?;
    board_words(rt)?;
    statuses(rt)?;
    status_bits(rt)?;
    sectors(rt)?;
    addresses(rt)
}

fn forms<R: Print>(rt: &R) -> io::Result<()> {
    tabs(rt)?;
    blanks(rt)?;
    empty_lines(rt)?;
    last_line_end(rt)?;
    fields_missing(rt)?;
    stamp_digits(rt)?;
    stamp_limit(rt)?;
    stamp_bytes(rt)?;
    hex_digits(rt)
}

fn events<R: Print>(rt: &R) -> io::Result<()> {
    channels(rt)?;
    words_of_other_channels(rt)?;
    event_words(rt)?;
    event_fields(rt)?;
    odd_bytes(rt)?;
    every_event(rt)
}

fn order<R: Print>(rt: &R) -> io::Result<()> {
    falling_stamps(rt)?;
    first_bad_line(rt)?;
    flash_closed(rt)?;
    flash_spoilt(rt)?;
    flash_apart(rt)?;
    eeprom_closed(rt)?;
    eeprom_spoilt(rt)?;
    eeprom_apart(rt)
}

fn written<R: Print>(rt: &R) -> io::Result<()> {
    flash_lines(rt)?;
    eeprom_lines(rt)?;
    line_lines(rt)?;
    boards_written(rt)?;
    boards_refused(rt)
}

fn main(rt: HostRuntime) -> io::Result<()> {
    boards(&rt)?;
    forms(&rt)?;
    events(&rt)?;
    order(&rt)?;
    written(&rt)
}

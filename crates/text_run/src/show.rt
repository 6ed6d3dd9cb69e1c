// What is printed of each case.
use line::WriteError;
use record::Board;
use std::io;

// The case's name, the refusal's number, its line and its field.
pub(crate) fn answer<R: Print>(rt: &R, name: &str, text: &[u8]) -> io::Result<()> {
    match text::check_text(text) {
        Ok(_) => println!(rt; "{name}\t0\t0\t0"),
        Err(refusal) => {
            let number = u32::from(refusal.answer);
            println!(rt; "{name}\t{number}\t{}\t{}", refusal.line, refusal.field)
        }
    }
}

// The first n bytes, a line that was written.
fn print_front<R: Print>(rt: &R, n: usize, bytes: &[u8]) -> io::Result<()> {
    match bytes.get(..n) {
        Some(line) => rt.write_all(line),
        None => Ok(()),
    }
}

fn print_written<R: Print>(
    rt: &R,
    written: Result<usize, WriteError>,
    bytes: &[u8],
) -> io::Result<()> {
    match written {
        Err(WriteError::OutOfRange) => println!(rt; "9 0"),
        Err(WriteError::TooShort) => println!(rt; "10 0"),
        Ok(n) => {
            println!(rt; "0 {n}")?;
            print_front(rt, n, bytes)
        }
    }
}

// A record's line, read and written back.
pub(crate) fn again<R: Print>(rt: &R, text: &[u8]) -> io::Result<()> {
    let Ok((rec, _)) = text::record_at(text, 0) else {
        return println!(rt; "no record");
    };
    let mut space: [u8; 32] = [0; 32];
    let Ok(n) = line::write_record(rec, &mut space) else {
        return println!(rt; "not written");
    };
    print_front(rt, n, &space)
}

// A board, written to an output of a given room.
pub(crate) fn board<R: Print>(
    rt: &R,
    status: u8,
    sector: u8,
    address: u8,
    room: usize,
) -> io::Result<()> {
    let b = Board {
        status,
        sector,
        address,
    };
    let mut space: [u8; 32] = [0; 32];
    if space.len() < room {
        return Ok(());
    }
    let written = line::write_board(b, &mut space[..room]);
    print_written(rt, written, &space)
}

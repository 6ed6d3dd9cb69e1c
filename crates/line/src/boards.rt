// The board's line: board, status, watched sector, wired address.
ghost use Rattle.std.specs.Prelude.{◌≡◌};
ghost use Rattle.law.specs.Deciding.{Decides};
ghost use Rattle.field.specs.Spelling.{no_bytes, put_all};
ghost use Rattle.line.specs.Boards.{spelled_board, BoardOk, ReadsBoard, WroteBoard};
ghost use Rattle.line.specs.Readers.{ReadsStatus, ReadsPlaces};

use crate::numbers::{ADDRESS, BOARD, SECTOR, STATUS};
use crate::output::WriteError;
use field::{BadField, Cursor, FieldEnd, Spelling};
use record::Board;

// Only bits 7, 3 and 2 may be set.
fn read_status(text: &[u8], c: Cursor) -> Result<(u8, Cursor), BadField>
    ensures { ReadsStatus text.now c.at result }
{
    let (status, next) = field::read_hex(text, c, STATUS)?;
    if !record::status_ok(status) {
        return Err(BadField(STATUS as u32));
    }
    Ok((status, next))
}

// The sector and the address, to the line's end.
fn read_places(text: &[u8], c: Cursor, status: u8) -> Result<(Board, Cursor), BadField>
    ensures { ReadsPlaces status text.now c.at result }
{
    let (sector, c1) = field::read_digit(text, c, 1, 4, SECTOR)?;
    let c2 = field::read_end(text, c1, FieldEnd::Tab, SECTOR)?;
    let (address, c3) = field::read_digit(text, c2, 0, 7, ADDRESS)?;
    let c4 = field::read_end(text, c3, FieldEnd::Lf, ADDRESS)?;
    let board = Board {
        status,
        sector,
        address,
    };
    Ok((board, c4))
}

// The board whose line stands at a place, and the place after its LF; else the number of the first bad field.
pub fn read_board(text: &[u8], c: Cursor) -> Result<(Board, Cursor), BadField>
    ensures { ReadsBoard text.now c.at result }
{
    let c1 = field::read_word(text, c, b"board", BOARD)?;
    let c2 = field::read_end(text, c1, FieldEnd::Tab, BOARD)?;
    let (status, c3) = read_status(text, c2)?;
    let c4 = field::read_end(text, c3, FieldEnd::Tab, STATUS)?;
    read_places(text, c4, status)
}

fn in_range(b: Board) -> bool
    ensures { Decides result (BoardOk b) }
{
    record::status_ok(b.status) && 1 <= b.sector && b.sector <= 4 && b.address <= 7
}

// The line of a board in range.
#[tactic(auto, using(crate::proofs::BoardLaws::put_from_nothing))]
fn put_board(b: Board) -> Spelling
    requires { BoardOk b }
    ensures { result ≡ put_all no_bytes (spelled_board b) }
{
    Spelling::new()
        .word(b"board\t")
        .hex(b.status)
        .word(b"\t")
        .decimal(b.sector as u32)
        .word(b"\t")
        .decimal(b.address as u32)
        .word(b"\n")
}

// Writes a board's line to the front of an output; how many bytes it has.
#[tactic(auto, using(crate::proofs::OutputLaws::wrote_board, crate::proofs::OutputLaws::wrote_as, crate::proofs::OutputLaws::fits_board))]
pub fn write_board(b: Board, out: &mut [u8]) -> Result<usize, WriteError>
    ensures { WroteBoard b out.old out.new result }
{
    if !in_range(b) {
        return Err(WriteError::OutOfRange);
    }
    let line = put_board(b);
    crate::output::copy_out(line.as_slice(), out)
}

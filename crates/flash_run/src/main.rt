// Plays scripts of channels F and L on the flash's control and writes each reply, and the chip's state at the end of each line. `stdin` has the scripts and
// `stdout` what document 01 says of them, both made by expected.py, which knows nothing of this code.
// Lower-case hex digits type a byte; B starts a chip with that status, W watches that sector, S X C D E are `sel x cut des end`, N O L F `on off lock free`.
#![tactic(auto)]

ghost use Rattle.std.specs.Prelude.{◌≡◌, ◌≤◌, length, IfOk};

use flash::{Flash, FlashCycle, FlashFrame, LockFact, Op};
use record::{FlashEvent, LineEvent, Lines, Skeleton};
use std::io;
use std::io::Read;

#[derive(Clone, Copy)]
struct Bench {
    chip: Flash,
    lines: Lines,
    watched: u8,
    typed: u8,
}

fn put_reply<R: Print>(rt: &R, k: Skeleton) -> io::Result<()> {
    match k {
        Skeleton::Silent => print!(rt; "."),
        Skeleton::Given(b) => print!(rt; "g{b:02x}"),
        Skeleton::Fetch(p) => print!(rt; "r{p:04x}"),
        Skeleton::Ack | Skeleton::NoAck => print!(rt; "?"),
        Skeleton::Starts => print!(rt; "S"),
        Skeleton::Ends => print!(rt; "E"),
        Skeleton::NoCycle => print!(rt; "7"),
    }
}

fn fact_letter(fact: LockFact) -> char {
    match fact {
        LockFact::Absent => '-',
        LockFact::Free => 'f',
        LockFact::Locked => 'l',
    }
}

fn op_letter(op: Op) -> char {
    match op {
        Op::WriteEnable => 'e',
        Op::WriteDisable => 'd',
        Op::ReadStatus => 's',
        Op::WriteStatus => 'w',
        Op::Read => 'r',
        Op::Program => 'p',
        Op::SectorErase => 'x',
        Op::ChipErase => 'c',
        Op::Identify => 'i',
    }
}

fn put_frame<R: Print>(rt: &R, frame: FlashFrame) -> io::Result<()> {
    match frame {
        FlashFrame::Idle => print!(rt; " I"),
        FlashFrame::Void => print!(rt; " V"),
        FlashFrame::Selected(fact) => print!(rt; " O{}", fact_letter(fact)),
        FlashFrame::Command(op, sent, fact) => {
            print!(rt; " {}{:x}{}", op_letter(op), sent.count, fact_letter(fact))
        }
    }
}

fn put_cycle<R: Print>(rt: &R, cycle: Option<FlashCycle>) -> io::Result<()> {
    match cycle {
        None => print!(rt; " -"),
        Some(FlashCycle::Program(n)) => print!(rt; " p{n:03x}"),
        Some(FlashCycle::SectorErase(n)) => print!(rt; " x{n:x}"),
        Some(FlashCycle::ChipErase) => print!(rt; " c"),
        Some(FlashCycle::WriteStatus(b)) => print!(rt; " w{b:02x}"),
    }
}

fn put_status<R: Print>(rt: &R, status: Option<u8>) -> io::Result<()> {
    match status {
        None => print!(rt; " -"),
        Some(s) => print!(rt; " {s:02x}"),
    }
}

// The state; of the page, its first and its last two places.
fn put_chip<R: Print>(rt: &R, chip: Flash) -> io::Result<()> {
    put_frame(rt, chip.frame)?;
    put_cycle(rt, chip.cycle)?;
    put_status(rt, chip.status)?;
    let [first, second, .., last_but_one, last] = chip.page;
    println!(rt; " {first:02x}{second:02x}{last_but_one:02x}{last:02x}")
}

fn started(status: u8, watched: u8) -> Bench {
    Bench {
        chip: Flash::start(status),
        lines: record::lines_at_start(),
        watched,
        typed: 0,
    }
}

impl Bench {
    fn bus<R: Print>(self, rt: &R, e: FlashEvent) -> io::Result<Bench> {
        let step = self.chip.step(e, self.lines, self.watched);
        put_reply(rt, step.reply)?;
        Ok(Bench {
            chip: step.chip,
            ..self
        })
    }

    fn line(self, e: LineEvent) -> Bench {
        Bench {
            chip: self.chip.line(e, self.lines),
            lines: record::lines_after(self.lines, e),
            ..self
        }
    }

    fn typing(self, digit: u8) -> Bench {
        Bench {
            typed: self.typed % 16 * 16 + digit % 16,
            ..self
        }
    }

    fn closed<R: Print>(self, rt: &R) -> io::Result<Bench> {
        put_chip(rt, self.chip)?;
        Ok(self)
    }

    // One byte of a script.
    fn played<R: Print>(self, rt: &R, c: u8) -> io::Result<Bench> {
        match c {
            b'0'..=b'9' => Ok(self.typing(c % 16)),
            b'a'..=b'f' => Ok(self.typing(c % 16 + 9)),
            b'B' => Ok(started(self.typed, self.watched)),
            b'W' => Ok(Bench {
                watched: self.typed,
                typed: 0,
                ..self
            }),
            b'S' => self.bus(rt, FlashEvent::Select),
            b'X' => self.bus(rt, FlashEvent::Byte(self.typed, 0)),
            b'C' => self.bus(rt, FlashEvent::Cut),
            b'D' => self.bus(rt, FlashEvent::Deselect),
            b'E' => self.bus(rt, FlashEvent::End),
            b'N' => Ok(self.line(LineEvent::SupplyOn)),
            b'O' => Ok(self.line(LineEvent::SupplyOff)),
            b'L' => Ok(self.line(LineEvent::LockOn)),
            b'F' => Ok(self.line(LineEvent::LockOff)),
            _ => self.closed(rt),
        }
    }
}

fn play<R: Print>(rt: &R, script: &[u8]) -> io::Result<()> {
    let mut bench = started(0, 1);
    for &c in script {
        bench = bench.played(rt, c)?;
    }
    Ok(())
}

// The most bytes of a script that are read.
const ROOM: usize = 65536;

fn room() -> [u8; ROOM]
    ensures { length result ≡ 65536 }
{
    [0; ROOM]
}

// Reads until the buffer is full or the input ends.
// Kept: as in `files`; shared, it would be public for one call here, and this program stands on no crate that reads files.
fn read_full<R: Read>(from: &mut R, buf: &mut [u8]) -> io::Result<usize>
    ensures { IfOk result (λ n. n ≤ length buf.new) }
{
    let mut n = 0;
    while n < buf.len() {
        let got = from.read(&mut buf[n..])?;
        if got == 0 {
            return Ok(n);
        }
        n += got;
    }
    Ok(n)
}

fn main(rt: HostRuntime) -> io::Result<()> {
    let mut script = room();
    let n = read_full(&mut rt.reader(), &mut script)?;
    play(&rt, &script[..n])
}

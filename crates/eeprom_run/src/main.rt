// Plays short traces of channel E on a chip that is wired to address 5 and prints what it replies: a line for each trace, in the listing's words, with a
// fetched byte's place. The expected text is written from document 01, 'EEPROM rules' and 'Supply'.
#![tactic(auto)]

use eeprom::{Eeprom, Sent};
use record::{EepromEvent, LineEvent, Lines, Skeleton};
use std::io;

#[derive(Drop)]
struct Bench {
    chip: Eeprom,
    lines: Lines,
}

// A new chip, and the name of its trace.
fn begin<R: Print>(rt: &R, name: &str) -> io::Result<Bench> {
    print!(rt; "{name}")?;
    Ok(Bench {
        chip: Eeprom::start(),
        lines: record::lines_at_start(),
    })
}

fn done<R: Print>(rt: &R) -> io::Result<()> {
    println!(rt;)
}

fn show<R: Print>(rt: &R, reply: Skeleton) -> io::Result<()> {
    match reply {
        Skeleton::Silent => print!(rt; " -"),
        Skeleton::Given(_) => print!(rt; " byte"),
        Skeleton::Fetch(p) => print!(rt; " {p:04x}"),
        Skeleton::Ack => print!(rt; " ack"),
        Skeleton::NoAck => print!(rt; " no"),
        Skeleton::Starts => print!(rt; " starts"),
        Skeleton::Ends => print!(rt; " ends"),
        Skeleton::NoCycle => print!(rt; " idle"),
    }
}

impl Bench {
    fn bus<R: Print>(self, rt: &R, e: EepromEvent) -> io::Result<Bench> {
        let step = self.chip.step(e, self.lines, 5);
        show(rt, step.reply)?;
        Ok(Bench {
            chip: step.chip,
            ..self
        })
    }

    fn line(self, e: LineEvent) -> Bench {
        Bench {
            chip: self.chip.line(e, self.lines),
            lines: record::lines_after(self.lines, e),
        }
    }

    fn sta<R: Print>(self, rt: &R) -> io::Result<Bench> {
        self.bus(rt, EepromEvent::Start)
    }

    fn sto<R: Print>(self, rt: &R) -> io::Result<Bench> {
        self.bus(rt, EepromEvent::Stop)
    }

    fn end<R: Print>(self, rt: &R) -> io::Result<Bench> {
        self.bus(rt, EepromEvent::End)
    }

    // The last byte of a read: its acknowledge bit is 1.
    fn last<R: Print>(self, rt: &R) -> io::Result<Bench> {
        self.bus(rt, EepromEvent::Byte(0, true))
    }

    fn send<R: Print>(self, rt: &R, bytes: &[u8]) -> io::Result<Bench> {
        let mut now = self;
        for b in bytes {
            now = now.bus(rt, EepromEvent::Byte(*b, false))?;
        }
        Ok(now)
    }
}

fn show_byte<R: Print>(rt: &R, b: u8) -> io::Result<()> {
    print!(rt; " {b}")
}

// The places of the cycle, and some bytes of its page.
fn show_cycle<R: Print>(rt: &R, t: &Bench) -> io::Result<()> {
    match t.chip.cycle {
        None => print!(rt; " none")?,
        Some(Sent { page, first, count }) => print!(rt;
            " page {page} first {first} count {count}"
        )?,
    }
    print!(rt; " at 3, 4, 62:")?;
    for place in [3, 4, 62] {
        show_byte(rt, t.chip.page[place])?;
    }
    Ok(())
}

// One data byte at 0010, as far as its cycle.
fn written<R: Print>(rt: &R, name: &str) -> io::Result<Bench> {
    begin(rt, name)?
        .sta(rt)?
        .send(rt, b"\xaa\x00\x10\x77")?
        .sto(rt)
}

// No acknowledge in the cycle, nor after a `sta` in it though `end` came between; another address is silent all the same.
fn polling<R: Print>(rt: &R) -> io::Result<()> {
    let t = written(rt, "polling")?.sta(rt)?.send(rt, b"\xaa")?.sto(rt)?;
    let u = t.sta(rt)?.end(rt)?.send(rt, b"\xaa\x00")?.sto(rt)?;
    u.sta(rt)?.send(rt, b"\xaa")?.sto(rt)?;
    done(rt)?;
    let v = written(rt, "other in a cycle")?.sta(rt)?;
    v.end(rt)?.send(rt, b"\xac\xaa")?;
    done(rt)
}

fn reading<R: Print>(rt: &R) -> io::Result<()> {
    let t = begin(rt, "random read")?
        .sta(rt)?
        .send(rt, b"\xaa\x12\x34")?;
    let u = t.sta(rt)?.send(rt, b"\xab\x00")?.last(rt)?.sto(rt)?;
    done(rt)?;
    print!(rt; "current address")?;
    u.sta(rt)?
        .send(rt, b"\xab")?
        .last(rt)?
        .send(rt, b"\x00")?
        .sto(rt)?;
    done(rt)?;
    let v = begin(rt, "over the end")?
        .sta(rt)?
        .send(rt, b"\xaa\xff\xfe")?;
    v.sta(rt)?.send(rt, b"\xab\x00\x00\x00")?.last(rt)?.sto(rt)?;
    done(rt)?;
    let w = begin(rt, "lost counter")?
        .sta(rt)?
        .send(rt, b"\xab\x00")?
        .last(rt)?
        .sto(rt)?;
    w.sta(rt)?.send(rt, b"\xab\x00")?.sto(rt)?;
    done(rt)
}

fn addressing<R: Print>(rt: &R) -> io::Result<()> {
    let t = begin(rt, "repeated start")?
        .sta(rt)?
        .send(rt, b"\xaa\x00\x05\x11\x22")?;
    let u = t.sta(rt)?.sto(rt)?.end(rt)?;
    u.sta(rt)?.send(rt, b"\xab")?.last(rt)?.sto(rt)?;
    done(rt)?;
    let v = begin(rt, "other address")?
        .sta(rt)?
        .send(rt, b"\xac\x00\x05\x11")?
        .sto(rt)?;
    v.sta(rt)?.send(rt, b"\x2a\xaa")?.sto(rt)?;
    done(rt)
}

// 70 data bytes from 007e on: the last six replace the first six.
fn more_than_64<R: Print>(rt: &R) -> io::Result<()> {
    let mut now = begin(rt, "70 bytes")?.sta(rt)?.send(rt, b"\xaa\x00\x7e")?;
    for i in 0..70u8 {
        now = now.bus(rt, EepromEvent::Byte(i, false))?;
    }
    let t = now.sto(rt)?;
    show_cycle(rt, &t)?;
    t.end(rt)?.sta(rt)?.send(rt, b"\xab")?.last(rt)?.sto(rt)?;
    done(rt)?;
    let u = begin(rt, "no data")?
        .sta(rt)?
        .send(rt, b"\xaa\x00\x10")?
        .sto(rt)?;
    u.end(rt)?;
    done(rt)
}

// The lock counts at `sto` alone; the counter has gone on all the same.
fn locking<R: Print>(rt: &R) -> io::Result<()> {
    let t = begin(rt, "lock at sto")?
        .sta(rt)?
        .send(rt, b"\xaa\x00\x05\x11")?;
    let u = t.line(LineEvent::LockOn).sto(rt)?.end(rt)?;
    u.sta(rt)?.send(rt, b"\xab")?.last(rt)?.sto(rt)?;
    done(rt)?;
    let v = begin(rt, "lock before sto")?
        .sta(rt)?
        .line(LineEvent::LockOn);
    let w = v.send(rt, b"\xaa\x00\x05\x11")?.line(LineEvent::LockOff);
    w.sto(rt)?.line(LineEvent::LockOn).end(rt)?;
    done(rt)
}

fn cutting<R: Print>(rt: &R) -> io::Result<()> {
    let t = begin(rt, "cut")?.sta(rt)?.send(rt, b"\xaa\x00\x05\x11")?;
    let u = t.bus(rt, EepromEvent::Cut)?.sto(rt)?.end(rt)?;
    u.sta(rt)?.send(rt, b"\xab")?.last(rt)?.sto(rt)?;
    done(rt)
}

// The supply goes off in a cycle, with an open frame, and before a frame opens; a repeated state does nothing.
fn supply<R: Print>(rt: &R) -> io::Result<()> {
    let t = written(rt, "off in a cycle")?
        .line(LineEvent::SupplyOff)
        .end(rt)?;
    let u = t.line(LineEvent::SupplyOff).line(LineEvent::SupplyOn);
    u.sta(rt)?.send(rt, b"\xab\x00")?.sto(rt)?;
    done(rt)?;
    let v = begin(rt, "off in a frame")?
        .sta(rt)?
        .send(rt, b"\xaa\x00")?
        .line(LineEvent::SupplyOff);
    let w = v.send(rt, b"\x05")?.line(LineEvent::SupplyOn);
    w.send(rt, b"\x11")?.sto(rt)?;
    done(rt)?;
    let x = begin(rt, "opened when off")?
        .line(LineEvent::SupplyOff)
        .sta(rt)?;
    x.line(LineEvent::SupplyOn).send(rt, b"\xaa")?.sto(rt)?;
    done(rt)?;
    let y = written(rt, "on again")?.line(LineEvent::SupplyOn).end(rt)?;
    y.sta(rt)?.send(rt, b"\xab\x00")?.sto(rt)?;
    done(rt)
}

fn main(rt: HostRuntime) -> io::Result<()> {
    polling(&rt)?;
    reading(&rt)?;
    addressing(&rt)?;
    more_than_64(&rt)?;
    locking(&rt)?;
    cutting(&rt)?;
    supply(&rt)
}

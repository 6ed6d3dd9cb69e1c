// The control of the EEPROM AT24C256C (document 01, 'EEPROM rules', 'Supply'): its frame, its write cycle with the data, and its counter.
// It asks for no byte of the image: a read only says which place it delivers.
#![tactic(auto)]

ghost use Rattle.std.specs.Prelude.{◌≡◌};
ghost use Rattle.eeprom.specs.Chip.{start_of, answered, in_frame, silent_in};
ghost use Rattle.eeprom.specs.Frame.{address_byte, low_byte, data_byte, read_byte, byte_of};
ghost use Rattle.eeprom.specs.Step.{started_of, write_ends, stop_of, end_of, powered_of, unpowered_of, step_of, off_of, line_of};

use record::{EepromEvent, LineEvent, Lines, Skeleton};

mod write; // the places that a write is for
mod parts; // frames, cycles and counters by themselves

// A frame, from `sta` to the next `sta` or `sto`.
#[derive(Clone, Copy, Debug, PartialEq, Eq)]
pub enum EepromFrame {
    Idle,
    Void,
    // `sta`, and whether it came in a cycle; the address byte is still to come.
    Opened(bool),
    // Addressed for writing.
    Addressed,
    // The high address byte is in: its low seven bits.
    Half(u8),
    // Both are in, and so many data bytes, 64 for 64 or more; the counter is the next one's place.
    Taking(u32),
    // Addressed for reading.
    Reading,
}

// The places of a write: their page, the first one in it, and how many; all 64 are counted from 0.
#[derive(Clone, Copy, Debug, PartialEq, Eq)]
pub struct Sent {
    pub page: u32,
    pub first: u32,
    pub count: u32,
}

pub type EepromPage = [u8; page::EEPROM_PAGE as usize];

// A page to which nothing was sent.
const BLANK: EepromPage = [0; page::EEPROM_PAGE as usize];

// The write whose cycle runs, if one does, and the place of the counter, unless that is lost.
// The page holds the bytes of a write that is being sent or whose cycle runs, and 0 elsewhere. So two chips in one state are one value.
#[derive(Clone, Copy, Debug, PartialEq, Eq)]
pub struct Eeprom {
    pub frame: EepromFrame,
    pub cycle: Option<Sent>,
    pub counter: Option<u32>,
    pub page: EepromPage,
}

#[derive(Drop)]
pub struct EepromStep {
    pub chip: Eeprom,
    pub reply: Skeleton,
}

impl Eeprom {
    // The chip at the start.
    pub fn start() -> Eeprom
        ensures { result ≡ start_of }
    {
        Eeprom {
            frame: EepromFrame::Idle,
            cycle: None,
            counter: None,
            page: BLANK,
        }
    }

    // The chip after a record, and its reply.
    fn answer(self, reply: Skeleton) -> EepromStep
        ensures { result ≡ answered self reply }
    {
        EepromStep { chip: self, reply }
    }

    // The same chip in a frame that has no data.
    fn in_frame(self, frame: EepromFrame) -> Eeprom
        ensures { result ≡ in_frame self frame }
    {
        let page = parts::page_in(self.cycle, self.page);
        Eeprom {
            frame,
            page,
            ..self
        }
    }

    // Silence, in a frame that has no data.
    fn silent_in(self, frame: EepromFrame) -> EepromStep
        ensures { result ≡ silent_in self frame }
    {
        self.in_frame(frame).answer(Skeleton::Silent)
    }

    // The byte after `sta`; a `sta` in a cycle barred it.
    fn address_byte(self, barred: bool, b: u8, wired: u8) -> EepromStep
        ensures { result ≡ address_byte self barred b wired }
    {
        if !parts::own_address(b, wired) {
            self.silent_in(EepromFrame::Void)
        } else if barred {
            self.in_frame(EepromFrame::Void).answer(Skeleton::NoAck)
        } else {
            self.in_frame(parts::opened_by(b)).answer(Skeleton::Ack)
        }
    }

    // The second address byte of a write: the address is taken, its top bit ignored.
    fn low_byte(self, high: u8, b: u8) -> EepromStep
        ensures { result ≡ low_byte self high b }
    {
        let address = (high as u32 * 256 + b as u32) % page::EEPROM_SIZE;
        let chip = Eeprom {
            frame: EepromFrame::Taking(0),
            counter: Some(address),
            ..self
        };
        chip.answer(Skeleton::Ack)
    }

    // A data byte of a write.
    fn data_byte(self, count: u32, b: u8) -> EepromStep
        ensures { result ≡ data_byte self count b }
    {
        let place = parts::place_of(self.counter);
        let chip = Eeprom {
            frame: EepromFrame::Taking(write::one_more(count)),
            counter: Some(write::next_in_page(place)),
            page: write::put_byte(place, b, self.page),
            ..self
        };
        chip.answer(Skeleton::Ack)
    }

    // A byte of a read. The acknowledge bit is the master's.
    fn read_byte(self, bit: bool) -> EepromStep
        ensures { result ≡ read_byte self bit }
    {
        let chip = Eeprom {
            frame: parts::after_read(bit),
            counter: parts::moved_on(self.counter),
            ..self
        };
        chip.answer(parts::fetch(self.counter))
    }

    // A byte with the supply on.
    fn byte(self, b: u8, bit: bool, wired: u8) -> EepromStep
        ensures { result ≡ byte_of self b bit wired }
    {
        match self.frame {
            EepromFrame::Idle | EepromFrame::Void => self.answer(Skeleton::Silent),
            EepromFrame::Opened(barred) => self.address_byte(barred, b, wired),
            EepromFrame::Addressed => self
                .in_frame(EepromFrame::Half(b % 128))
                .answer(Skeleton::Ack),
            EepromFrame::Half(high) => self.low_byte(high, b),
            EepromFrame::Taking(count) => self.data_byte(count, b),
            EepromFrame::Reading => self.read_byte(bit),
        }
    }

    // `sta` with the supply on: unsaved data is dropped.
    fn started(self) -> EepromStep
        ensures { result ≡ started_of self }
    {
        let busy = parts::running(self.cycle);
        self.silent_in(EepromFrame::Opened(busy))
    }

    // `sto` after both address bytes and so many data bytes: the lock counts at this moment alone.
    fn write_ends(self, count: u32, lock: bool) -> EepromStep
        ensures { result ≡ write_ends self count lock }
    {
        if count == 0 || lock {
            return self.silent_in(EepromFrame::Idle);
        }
        let sent = write::sent_by(parts::place_of(self.counter), count);
        let chip = Eeprom {
            frame: EepromFrame::Idle,
            cycle: Some(sent),
            ..self
        };
        chip.answer(Skeleton::Starts)
    }

    // `sto` with the supply on.
    fn stop(self, lock: bool) -> EepromStep
        ensures { result ≡ stop_of self lock }
    {
        match self.frame {
            EepromFrame::Taking(count) => self.write_ends(count, lock),
            _ => self.silent_in(EepromFrame::Idle),
        }
    }

    // `end` with the supply on.
    fn end(self) -> EepromStep
        ensures { result ≡ end_of self }
    {
        if !parts::running(self.cycle) {
            return self.answer(Skeleton::NoCycle);
        }
        let chip = Eeprom {
            cycle: None,
            page: BLANK,
            ..self
        };
        chip.answer(Skeleton::Ends)
    }

    // A record of channel E with the supply on.
    fn powered(self, e: EepromEvent, lock: bool, wired: u8) -> EepromStep
        ensures { result ≡ powered_of self e lock wired }
    {
        match e {
            EepromEvent::Start => self.started(),
            EepromEvent::Byte(b, bit) => self.byte(b, bit, wired),
            EepromEvent::Cut => self.silent_in(EepromFrame::Void),
            EepromEvent::Stop => self.stop(lock),
            EepromEvent::End => self.end(),
        }
    }

    // With the supply off bus records are silent, but `end` finds no cycle.
    fn unpowered(self, e: EepromEvent) -> EepromStep
        ensures { result ≡ unpowered_of self e }
    {
        match e {
            EepromEvent::Start | EepromEvent::Cut => self.silent_in(EepromFrame::Void),
            EepromEvent::Byte(_, _) => self.answer(Skeleton::Silent),
            EepromEvent::Stop => self.silent_in(EepromFrame::Idle),
            EepromEvent::End => self.answer(Skeleton::NoCycle),
        }
    }

    // One record of channel E, on a chip that is wired to an address.
    pub fn step(self, e: EepromEvent, lines: Lines, wired: u8) -> EepromStep
        ensures { result ≡ step_of self e lines wired }
    {
        if lines.supply {
            self.powered(e, lines.lock, wired)
        } else {
            self.unpowered(e)
        }
    }

    // The supply goes off. What that does to the bytes of a cycle is the image's.
    fn supply_off(self) -> Eeprom
        ensures { result ≡ off_of self }
    {
        Eeprom {
            frame: parts::voided(self.frame),
            ..Eeprom::start()
        }
    }

    // One record of channel L; `lines` are the lines before it.
    pub fn line(self, e: LineEvent, lines: Lines) -> Eeprom
        ensures { result ≡ line_of self e lines }
    {
        if record::goes_off(lines, e) {
            self.supply_off()
        } else {
            self
        }
    }
}

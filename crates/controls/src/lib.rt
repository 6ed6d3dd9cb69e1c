// Both chips' controls and the two lines: what one record does to them, and its skeleton reply.
#![tactic(auto)]

ghost use Rattle.std.specs.Prelude.{◌≡◌};
ghost use Rattle.controls.specs.Play.{start_of, moved_of, lost_of, flash_moved, eeprom_moved, line_moved};

use eeprom::Eeprom;
use flash::Flash;
use record::{Board, EepromEvent, Event, FlashEvent, LineEvent, Lines, Record, Skeleton};

#[derive(Clone, Copy, Debug, PartialEq, Eq)]
pub struct Controls {
    pub flash: Flash,
    pub eeprom: Eeprom,
    pub lines: Lines,
}

// The controls after a record, and its reply.
#[derive(Clone, Copy)]
pub struct Moved {
    pub controls: Controls,
    pub reply: Skeleton,
}

impl Controls {
    pub fn start(board: Board) -> Controls
        ensures { result ≡ start_of board }
    {
        Controls {
            flash: Flash::start(board.status),
            eeprom: Eeprom::start(),
            lines: record::lines_at_start(),
        }
    }

    // A record of channel F.
    fn flash_moved(self, e: FlashEvent, watched: u8) -> Moved
        ensures { result ≡ flash_moved self e watched }
    {
        let step = self.flash.step(e, self.lines, watched);
        Moved {
            controls: Controls {
                flash: step.chip,
                ..self
            },
            reply: step.reply,
        }
    }

    // A record of channel E.
    fn eeprom_moved(self, e: EepromEvent, wired: u8) -> Moved
        ensures { result ≡ eeprom_moved self e wired }
    {
        let step = self.eeprom.step(e, self.lines, wired);
        Moved {
            controls: Controls {
                eeprom: step.chip,
                ..self
            },
            reply: step.reply,
        }
    }

    // A record of channel L reaches both chips.
    fn line_moved(self, e: LineEvent) -> Moved
        ensures { result ≡ line_moved self e }
    {
        let controls = Controls {
            flash: self.flash.line(e, self.lines),
            eeprom: self.eeprom.line(e, self.lines),
            lines: record::lines_after(self.lines, e),
        };
        Moved {
            controls,
            reply: Skeleton::Silent,
        }
    }

    // Any record.
    #[tactic(auto, unfolding(crate::specs::Play::moved_of))]
    pub fn play(self, board: Board, rec: Record) -> Moved
        ensures { result ≡ moved_of board self rec }
    {
        match rec.event {
            Event::Flash(e) => self.flash_moved(e, board.sector),
            Event::Eeprom(e) => self.eeprom_moved(e, board.address),
            Event::Line(e) => self.line_moved(e),
        }
    }

    // Whether the flash's status is lost.
    pub fn lost(self) -> bool
        ensures { result ≡ lost_of self }
    {
        self.flash.lost()
    }
}

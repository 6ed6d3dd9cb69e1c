// How each channel's bus stands between its records (document 01, 'The trace', impossible records).
ghost use Rattle.std.specs.Prelude.{◌≡◌};
ghost use Rattle.text.specs.Buses.{flash_bus, eeprom_bus, all_closed, moved};

use record::{EepromEvent, Event, FlashEvent};

// Closed: not selected, or no `sta` since the start or the last `sto`. Spoilt: after `cut`.
#[derive(Clone, Copy, Debug, PartialEq, Eq)]
pub enum Bus {
    Closed,
    Open,
    Spoilt,
}

#[derive(Clone, Copy, Debug, PartialEq, Eq)]
pub struct Buses {
    pub flash: Bus,
    pub eeprom: Bus,
}

impl Bus {
    // The flash's bus after an event, unless that is impossible.
    fn after_flash(self, e: FlashEvent) -> Option<Bus>
        ensures { result ≡ flash_bus self e }
    {
        match (self, e) {
            (bus, FlashEvent::End) => Some(bus),
            (Bus::Closed, FlashEvent::Select) => Some(Bus::Open),
            (Bus::Open, FlashEvent::Byte(_, _)) => Some(Bus::Open),
            (Bus::Open, FlashEvent::Cut) => Some(Bus::Spoilt),
            (Bus::Open | Bus::Spoilt, FlashEvent::Deselect) => Some(Bus::Closed),
            _ => None,
        }
    }

    // The EEPROM's: unlike the flash's `sel`, a `sta` is always possible.
    fn after_eeprom(self, e: EepromEvent) -> Option<Bus>
        ensures { result ≡ eeprom_bus self e }
    {
        match (self, e) {
            (bus, EepromEvent::End) => Some(bus),
            (_, EepromEvent::Start) => Some(Bus::Open),
            (Bus::Open, EepromEvent::Byte(_, _)) => Some(Bus::Open),
            (Bus::Open, EepromEvent::Cut) => Some(Bus::Spoilt),
            (Bus::Open | Bus::Spoilt, EepromEvent::Stop) => Some(Bus::Closed),
            _ => None,
        }
    }
}

impl Buses {
    pub fn all_closed() -> Buses
        ensures { result ≡ all_closed }
    {
        Buses {
            flash: Bus::Closed,
            eeprom: Bus::Closed,
        }
    }

    // Both after an event, unless that is impossible. Each channel is judged by itself; line records are always possible.
    pub fn after(self, e: Event) -> Option<Buses>
        ensures { result ≡ moved self e }
    {
        match e {
            Event::Flash(f) => Some(Buses {
                flash: self.flash.after_flash(f)?,
                ..self
            }),
            Event::Eeprom(m) => Some(Buses {
                eeprom: self.eeprom.after_eeprom(m)?,
                ..self
            }),
            Event::Line(_) => Some(self),
        }
    }
}

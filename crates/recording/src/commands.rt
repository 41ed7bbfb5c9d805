ghost use Rattle.std.specs.Prelude.{◌≡◌, ◌<◌, Some};
ghost use Rattle.std.specs.Option.{ok_or};
ghost use Rattle.events.specs.declared.refusals.Refusal.TheVariants.{BrokenRecord};
ghost use Rattle.recording.specs.Commands.{device_number, device_of, place_text, seat_number, seat_of};

use events::Refusal;
use std::fmt;

/// The devices of a recording: a keyboard with keys alone, and a panel of keys over slots.
#[derive(Clone, Copy, PartialEq, Eq, Debug)]
pub enum Device {
    Keyboard = 1,
    Panel = 2,
}

/// The seats that a recording uses, one for each of two clients.
#[derive(Clone, Copy, PartialEq, Eq, Debug)]
pub enum Seat {
    First = 0,
    Second = 1,
}

/// A seat at a device.
#[derive(Clone, Copy, PartialEq, Eq, Debug)]
pub struct Place {
    pub device: Device,
    pub seat: Seat,
}

/// Printed as `1.0`: the number of the device, and that of the seat.
impl fmt::Display for Place {
    ghost output = { λ place. Some (place_text place) };

    fn fmt<W: fmt::Write>(&self, f: &mut fmt::Formatter<W>) -> fmt::Result {
        let device = u8::from(self.device);
        let seat = u8::from(self.seat);
        write!(f, "{device}.{seat}")
    }
}

/// What a record asks for. The bytes that `Keys` and `Touch` hand to their driver are those after the record's letter: they stay with the record, since a command
/// that borrowed them could be compared with the one that a definition names only through a view of each variant.
#[derive(Clone, Copy, PartialEq, Eq, Debug)]
pub enum Command {
    Keys,
    Touch,
    Open { place: Place, capacity: u8 },
    Close(Place),
    Grab(Place),
    Release(Place),
    Read { place: Place, count: u8 },
}

/// The device that a number names: 1 the keyboard, 2 the panel. A record that names another is broken.
impl TryFrom<u8> for Device {
    type Error = Refusal;

    ghost try_from_gives = { λ number result. result ≡ ok_or (device_of number) BrokenRecord };

    fn try_from(number: u8) -> Result<Device, Refusal> {
        match number {
            1 => Ok(Device::Keyboard),
            2 => Ok(Device::Panel),
            _ => Err(Refusal::BrokenRecord),
        }
    }
}

/// The number of the device, 1 or 2.
impl From<Device> for u8 {
    ghost from_gives = { λ device number. (number ≡ device_number device) × (number < 3) };

    fn from(device: Device) -> u8 {
        device as u8
    }
}

/// The seat that a number names, 0 or 1. A record that names another is broken.
impl TryFrom<u8> for Seat {
    type Error = Refusal;

    ghost try_from_gives = { λ number result. result ≡ ok_or (seat_of number) BrokenRecord };

    fn try_from(number: u8) -> Result<Seat, Refusal> {
        match number {
            0 => Ok(Seat::First),
            1 => Ok(Seat::Second),
            _ => Err(Refusal::BrokenRecord),
        }
    }
}

/// The number of the seat, 0 or 1.
impl From<Seat> for u8 {
    ghost from_gives = { λ seat number. (number ≡ seat_number seat) × (number < 2) };

    fn from(seat: Seat) -> u8 {
        seat as u8
    }
}

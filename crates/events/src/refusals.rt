ghost use Rattle.std.specs.Prelude.{◌≡◌, Some};
ghost use Rattle.events.specs.Refusals.{number_of, sentence_of, refusal_text};

use std::error::Error;
use std::fmt;

/// Why a call was refused. Numbers below 20 are earned by the input, those from 21 on by the state that the call met.
#[derive(Clone, Copy, PartialEq, Eq, Debug)]
pub enum Refusal {
    UnknownAddress = 1,
    BadValue = 2,
    BadCapacity = 3,
    BadSeat = 4,
    UnsoundPile = 5,
    TouchLength = 6,
    TouchSlot = 7,
    BrokenRecording = 8,
    BrokenRecord = 9,
    SeatOpen = 21,
    ClientOpen = 22,
    NotOpen = 23,
    OtherDevice = 24,
    GrabHeld = 25,
    OtherGrab = 26,
    HoldsGrab = 27,
    ReportsSpent = 28,
}

impl Refusal {
    /// The number by which the refusal is known. A method: `u8::from(refusal)` would not say which number is meant.
    pub fn number(self) -> u8
        ensures { result ≡ number_of self }
    {
        self as u8
    }

    /// The refusal in a few words.
    pub fn sentence(self) -> &'static str
        ensures { result.now ≡ sentence_of self }
    {
        match self {
            Refusal::UnknownAddress => "no part knows the event's address",
            Refusal::BadValue => "the event's value is not allowed",
            Refusal::BadCapacity => "the ring's capacity is not 2 to 64",
            Refusal::BadSeat => "the seat is not 0 to 7",
            Refusal::UnsoundPile => "the parts of the pile overlap",
            Refusal::TouchLength => "the touch record has a wrong length",
            Refusal::TouchSlot => "the touch slot is not 0 to 9",
            Refusal::BrokenRecording => "the recording is broken",
            Refusal::BrokenRecord => "the record is broken",
            Refusal::SeatOpen => "the seat is open already",
            Refusal::ClientOpen => "the client is open already",
            Refusal::NotOpen => "the client is not open here",
            Refusal::OtherDevice => "the client belongs to another device",
            Refusal::GrabHeld => "the device is grabbed already",
            Refusal::OtherGrab => "the grab is not the one held",
            Refusal::HoldsGrab => "the client holds the grab",
            Refusal::ReportsSpent => "the report numbers are spent",
        }
    }
}

/// As in `3: the ring's capacity is not 2 to 64`.
impl fmt::Display for Refusal {
    ghost output = { λ r. Some (refusal_text r) };

    fn fmt<W: fmt::Write>(&self, f: &mut fmt::Formatter<W>) -> fmt::Result {
        let number = self.number();
        let sentence = self.sentence();
        write!(f, "{number}: {sentence}")
    }
}

impl Error for Refusal {}

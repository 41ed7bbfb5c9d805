ghost use Rattle.std.specs.Prelude.{◌≡◌, ◌<◌, ◌≤◌, MatchResult};
ghost use Rattle.events.specs.Refusals.{number_of};

use events::Refusal;

/// The number of one of the eight seats, 0 to 7.
#[derive(Clone, Copy, PartialEq, Eq, Debug)]
pub struct SeatNumber {
    pub(crate) number: usize,
    ghost below: { number < 8 },
}

/// From 8 on it is refusal 4.
impl TryFrom<usize> for SeatNumber {
    type Error = Refusal;

    ghost try_from_gives = { λ number r. MatchResult r (λ s. (s.number ≡ number) × (number < 8)) (λ e. (number_of e ≡ 4) × (8 ≤ number)) };

    fn try_from(number: usize) -> Result<SeatNumber, Refusal> {
        if number < 8 {
            Ok(SeatNumber { number })
        } else {
            Err(Refusal::BadSeat)
        }
    }
}

impl SeatNumber {
    /// The first seat.
    pub const FIRST: SeatNumber = SeatNumber { number: 0 };
}

/// The number itself.
impl From<SeatNumber> for usize {
    ghost from_gives = { λ seat number. (number ≡ seat.number) × (number < 8) };

    fn from(seat: SeatNumber) -> usize {
        seat.number
    }
}

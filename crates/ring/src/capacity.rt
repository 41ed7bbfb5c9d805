ghost use Rattle.std.specs.Prelude.{◌≡◌, ◌≤◌, true, false, MatchResult};
ghost use Rattle.events.specs.Refusals.{number_of};
ghost use Rattle.ring.specs.Waiting.{is_capacity_in};

use crate::check_capacity;
use events::Refusal;

/// How many items a ring in `N` slots has room for: 2 to 64, and no more than its slots.
#[derive(Clone, Copy, PartialEq, Eq, Debug)]
pub struct Capacity<const N: usize> {
    items: usize,
    ghost low: { 2 ≤ items },
    ghost high: { items ≤ 64 },
    ghost inside: { items ≤ N },
}

/// Any other number of items is refusal 3.
impl<const N: usize> TryFrom<usize> for Capacity<N> {
    type Error = Refusal;

    ghost try_from_gives = { λ items r. MatchResult r (λ c. (c.items ≡ items) × (is_capacity_in N items ≡ true)) (λ e. (number_of e ≡ 3) × (is_capacity_in N items ≡ false)) };

    fn try_from(items: usize) -> Result<Capacity<N>, Refusal> {
        check_capacity(items)?;
        if N < items {
            return Err(Refusal::BadCapacity);
        }
        Ok(Capacity { items })
    }
}

impl<const N: usize> Capacity<N> {
    /// How many items.
    pub fn items(self) -> usize
        ensures value { result ≡ self.entry.items }
        ensures low { 2 ≤ result }
        ensures high { result ≤ 64 }
        ensures inside { result ≤ N }
    {
        self.items
    }
}

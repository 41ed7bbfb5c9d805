ghost use Rattle.std.specs.Prelude.{◌≡◌, ◌<◌, ◌≤◌};
ghost use Rattle.codes.specs.Search.{smallest};
ghost use Rattle.slots.specs.SlotsPart.{selecting, differs, aimed, apart_in, fields_apart, selections_made};

use crate::{Field, SELECT, Slots};
use events::Event;
use std::iter::once;

// The event that selects a slot. There is no type of slot numbers: the bound is in the contracts of this function and of `aim` alone, and the selected slot has it in the
// invariant of `Slots`; a type would stand between each `s.selected` of the definitions and its number.
pub(crate) fn selecting(i: usize) -> Event
    requires { i < 10 }
    ensures { result ≡ selecting i }
{
    Event::slot(SELECT, i as i32)
}

impl Slots {
    // Whether slot i differs.
    fn differs(&self, target: &Slots, i: usize) -> bool
        ensures { result ≡ differs self.now target.now i }
    {
        self.slot(i) != target.slot(i)
    }

    // The smallest slot that differs.
    fn first_differing(&self, target: &Slots) -> Option<usize>
        ensures { result ≡ smallest (differs self.now target.now) 0 10 }
    {
        self.slots
            .iter()
            .zip(&target.slots)
            .position(|(slot, other)| slot != other)
    }

    // The slot that the next event concerns: the smallest that differs, and the target's where none does.
    #[tactic(auto, using(crate::proofs::WayLaws::aimed_lt), unfolding(codes::specs::Search::smallest))]
    pub(crate) fn aim(&self, target: &Slots) -> usize
        ensures slot { result ≡ aimed self.now target.now }
        ensures within { result < 10 }
    {
        self.first_differing(target).unwrap_or(target.selected)
    }

    // In how many slots a field differs.
    fn count_apart(&self, target: &Slots, field: Field) -> u64
        ensures count { result ≡ apart_in field self.now target.now }
        ensures small { result ≤ 10 }
    {
        self.slots
            .iter()
            .zip(&target.slots)
            .filter(|(slot, other)| slot.differs_in(other, field))
            .count() as u64
    }

    // How many fields differ.
    pub(crate) fn count_fields(&self, target: &Slots) -> u64
        ensures count { result ≡ fields_apart self.now target.now }
        ensures small { result ≤ 30 }
    {
        Field::ALL
            .iter()
            .map(|&field| self.count_apart(target, field))
            .sum()
    }

    // How many selections the way to a target makes: each slot that differs is selected in turn, and then the target's.
    #[tactic(auto, using(crate::proofs::WayLaws::selections_le))]
    pub(crate) fn count_selections(&self, target: &Slots) -> u64
        ensures count { result ≡ selections_made self.now target.now }
        ensures small { result ≤ 11 }
    {
        let order = (0..10)
            .filter(|&i| self.differs(target, i))
            .chain(once(target.selected));
        // a fold takes a pair of `count` and `at` apart at each turn and at the end, which is no plainer; to zip the order with itself it is cloned, which may fail
        let mut count = 0;
        let mut at = self.selected;
        for i in order {
            count += u64::from(at != i);
            at = i;
        }
        count
    }
}

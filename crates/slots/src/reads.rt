ghost use Rattle.std.specs.Prelude.{◌≡◌};
ghost use Rattle.slots.specs.SlotsPart.{slot, finger_of, finger};

use crate::{Slot, Slots};

impl Slots {
    /// The slot that is selected.
    pub fn selected(&self) -> usize
        ensures { result ≡ self.now.selected }
    {
        self.selected
    }

    /// The place of the finger in a slot; none where the slot is unused or past 9.
    pub fn finger(&self, i: usize) -> Option<(i32, i32)>
        ensures { result ≡ finger self.now i }
    {
        self.slot(i).finger()
    }

    // Slot i; past 9, an unused one.
    pub(crate) fn slot(&self, i: usize) -> Slot
        ensures { result ≡ slot self.now i }
    {
        self.slots.get(i).copied().unwrap_or(Slot::UNUSED)
    }
}

impl Slot {
    // The place of its finger; none where it is unused.
    pub(crate) fn finger(&self) -> Option<(i32, i32)>
        ensures { result ≡ finger_of self.now }
    {
        (self.id != -1).then_some((self.x, self.y))
    }
}

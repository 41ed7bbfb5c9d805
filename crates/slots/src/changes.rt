ghost use Rattle.std.specs.Prelude.{◌≡◌};
ghost use Rattle.slots.specs.Ranges.{is_slot};
ghost use Rattle.slots.specs.SlotsPart.{judged, subject, field_verdict, select, fill};

use crate::{Field, SELECT, Slots};
use events::Event;
use parts::Verdict;

// What an event sets. `Selection` is no `None` of an `Option<Field>`, since an event that sets nothing is told apart from one that selects.
#[derive(Clone, Copy)]
pub(crate) enum Subject {
    Selection,
    // of the selected slot
    Field(Field),
}

impl Subject {
    // What an event sets, if anything. No `TryFrom`, since both callers would throw its error away.
    pub(crate) fn of(event: Event) -> Option<Subject>
        ensures { result ≡ subject event }
    {
        match (event.kind, event.code) {
            (Event::SLOT, SELECT) => Some(Subject::Selection),
            (Event::SLOT, code) => Field::try_from(code).ok().map(Subject::Field),
            _ => None,
        }
    }
}

// Whether a value names a slot.
pub(crate) fn is_slot(value: i32) -> bool
    ensures { result ≡ is_slot value }
{
    (0..=9).contains(&value)
}

// A value that is not allowed is bad, one already there is the same, and any other is a change.
pub(crate) fn judge(allowed: bool, there: i32, value: i32) -> Verdict
    ensures { result ≡ judged allowed there value }
{
    if !allowed {
        Verdict::BadValue
    } else if there == value {
        Verdict::Same
    } else {
        Verdict::Change
    }
}

impl Slots {
    // Selects a slot, where the value names one.
    pub(crate) fn select(&mut self, value: i32)
        ensures { self.new ≡ select self.old value }
    {
        if is_slot(value) {
            self.selected = value as usize;
        }
    }

    // Sets a field of the selected slot to a value that it may take.
    pub(crate) fn fill(&mut self, field: Field, value: i32)
        ensures { self.new ≡ fill self.old field value }
    {
        let i = self.selected;
        // `self.slots[i].put(..)` gets no proof: the check says that "a struct of which members are out is read whole"
        let slots = &mut self.slots;
        slots[i].put(field, value);
    }

    // What the selected slot says to a value for a field.
    pub(crate) fn judge_field(&self, field: Field, value: i32) -> Verdict
        ensures { result ≡ field_verdict self.now field value }
    {
        let there = self.slot(self.selected).get(field);
        judge(field.allows(value), there, value)
    }
}

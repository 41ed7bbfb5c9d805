ghost use Rattle.slots.specs.SlotsPart.{slots};
ghost use Rattle.slots.specs.SlotsLaws.{slots_laws};

use crate::changes::{Subject, is_slot, judge};
use crate::way::selecting;
use crate::{SELECT, Slot, Slots};
use events::Event;
use parts::{Part, Verdict};

// The last code of the part.
const LAST: u16 = 63;

impl Part for Slots {
    ghost means = { slots };

    ghost laws = { λ sound. slots_laws };

    fn first() -> u32 {
        Event::slot(SELECT, 0).address()
    }

    fn last() -> u32 {
        Event::slot(LAST, 0).address()
    }

    fn sound() -> bool {
        true
    }

    fn empty() -> Self {
        Slots {
            slots: [Slot::UNUSED; 10],
            selected: 0,
        }
    }

    fn verdict(&self, event: Event) -> Verdict {
        let value = event.value;
        match Subject::of(event) {
            Some(Subject::Selection) => judge(is_slot(value), self.selected as i32, value),
            Some(Subject::Field(field)) => self.judge_field(field, value),
            None => Verdict::Stranger,
        }
    }

    fn take(&mut self, event: Event) {
        match Subject::of(event) {
            Some(Subject::Selection) => self.select(event.value),
            Some(Subject::Field(field)) => self.fill(field, event.value),
            None => {}
        }
    }

    fn next(&self, target: &Self) -> Option<Event> {
        let i = self.aim(target);
        if self.selected != i {
            return Some(selecting(i));
        }
        let field = self.slot(i).first_difference(&target.slot(i))?;
        Some(target.slot(i).setting(field))
    }

    fn distance(&self, target: &Self) -> u64 {
        self.count_fields(target) + self.count_selections(target)
    }
}

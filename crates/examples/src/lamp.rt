ghost use Rattle.std.specs.Prelude.{◌≡◌};
ghost use Rattle.examples.specs.LampPart.{lamp_event, lamp};
ghost use Rattle.std.proofs.Common.{rules};

use events::Event;
use parts::{Part, Verdict};

// The type of the lamp's events.
const KIND: u16 = 17;

// Their code.
const CODE: u16 = 0;

/// A lamp that is lit or not: type 17, code 0. The smallest part there is.
#[derive(Clone, Copy, PartialEq, Eq, Debug)]
pub struct Lamp {
    lit: bool,
}

// The event that lights the lamp, or puts it out.
fn lamp_event(lit: bool) -> Event
    ensures { result ≡ lamp_event lit }
{
    Event {
        kind: KIND,
        code: CODE,
        value: i32::from(lit),
    }
}

impl Part for Lamp {
    ghost means = { lamp };

    ghost laws = { Prim.search rules };

    fn first() -> u32 {
        lamp_event(false).address()
    }

    fn last() -> u32 {
        lamp_event(false).address()
    }

    fn sound() -> bool {
        true
    }

    fn empty() -> Lamp {
        Lamp { lit: false }
    }

    fn verdict(&self, event: Event) -> Verdict {
        if event.kind != KIND || event.code != CODE {
            return Verdict::Stranger;
        }
        match (event.value, self.lit) {
            (0, false) | (1, true) => Verdict::Same,
            (0, true) | (1, false) => Verdict::Change,
            _ => Verdict::BadValue,
        }
    }

    fn take(&mut self, event: Event) {
        if self.verdict(event) == Verdict::Change {
            self.lit = !self.lit;
        }
    }

    fn next(&self, target: &Lamp) -> Option<Event> {
        (self != target).then(|| lamp_event(target.lit))
    }

    fn distance(&self, target: &Lamp) -> u64 {
        u64::from(self.lit != target.lit)
    }
}

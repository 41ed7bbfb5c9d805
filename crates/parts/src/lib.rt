//! Parts: the kinds of remembered state of an input device, what they mean and the laws that every sound one keeps.
#![tactic(auto)]

ghost use Rattle.std.specs.Prelude.{◌≡◌, ◌-◌, ◌^◌, min, true, if◌then◌else◌, Ok, Err};
ghost use Rattle.events.specs.declared.refusals.Refusal.TheVariants.{UnsoundPile};
ghost use Rattle.parts.specs.Meaning.{Meaning, Laws};

mod pair;
mod routes;

use events::{Event, Refusal};
pub use pair::Pair;
pub use routes::{route, step};

/// What a part says to an event. Five values side by side, a rule of the project, and no `Result`: to refuse a call is the core's, and the laws of a part tell stranger
/// and change from the rest.
#[derive(Clone, Copy, PartialEq, Eq, Debug)]
pub enum Verdict {
    // the address belongs to no part
    Stranger,
    // the value is not allowed
    BadValue,
    // the state has it already
    Same,
    // takes no effect on the state, and is told to clients
    Passing,
    // changes the state
    Change,
}

/// One kind of remembered state: the events that it knows, and the way from one state to another.
pub trait Part: Copy {
    ghost means: { Meaning Self };

    // The first address.
    fn first() -> u32
        ensures { result ≡ means.first };

    // The last address.
    fn last() -> u32
        ensures { result ≡ means.last };

    // Whether the part keeps the laws.
    fn sound() -> bool
        ensures { result ≡ means.sound };

    // The state before the first event.
    fn empty() -> Self
        ensures { result ≡ means.empty };

    // What the state says to an event.
    fn verdict(&self, event: Event) -> Verdict
        ensures { result ≡ means.verdict self.now event };

    // Takes an event.
    fn take(&mut self, event: Event)
        ensures { self.new ≡ means.taken self.old event };

    // The next event on the way to a target.
    fn next(&self, target: &Self) -> Option<Event>
        ensures { result ≡ means.next self.now target.now };

    // How many events there are on the way to a target, at most 2⁶⁴ − 1.
    fn distance(&self, target: &Self) -> u64
        ensures { result ≡ min (means.distance self.now target.now) (2 ^ 64 - 1) };

    ghost laws: { means.sound ≡ true → Laws means };
}

/// Refusal 5 where the part is not sound.
pub fn check_sound<P: Part>() -> Result<(), Refusal>
    ensures { result ≡ (if P.Part.means.sound then Ok tt else Err UnsoundPile) }
{
    if P::sound() {
        Ok(())
    } else {
        Err(Refusal::UnsoundPile)
    }
}

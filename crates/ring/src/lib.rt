//! A ring of waiting items, written once for every kind of item: over slots that its owner lends, or, as `Ring`, with slots of its own.
//! A full ring throws everything away and says so by a loss mark; a group of items is readable once its last item is there.
#![tactic(auto)]

ghost use Rattle.std.specs.Prelude.{◌≡◌, Bool, [], length, IfOk, if◌then◌else◌, OnOk};
ghost use Rattle.events.specs.Refusals.{refused_by};
ghost use Rattle.ring.specs.Waiting.{waiting, readable_of, is_capacity, no_span, Valid};
ghost use Rattle.ring.specs.Runs.{Runs};

use events::Refusal;

mod bytes;
mod capacity;
mod changes;
mod items;
mod owned;

pub use capacity::Capacity;
pub use changes::{put, take};
pub use owned::Ring;

/// What a ring has to know of its items.
pub trait RingItem: Copy {
    // whether an item closes a group
    ghost closing: { Self → Bool };

    // the loss mark that is made from an item
    ghost lost: { Self → Self };

    fn closes(&self) -> bool
        ensures { result ≡ closing self.now };

    fn mark(&self) -> Self
        ensures { result ≡ lost self.now };
}

/// Where the waiting items lie in the slots: the oldest at `head`, `len` of them, going round; the first `ready` are readable.
#[derive(Clone, Copy, PartialEq, Eq, Debug)]
pub struct Span {
    head: usize,
    len: usize,
    ready: usize,
}

impl Span {
    /// No item waits.
    pub const EMPTY: Span = Span {
        head: 0,
        len: 0,
        ready: 0,
    };
}

/// Whether a ring may have room for so many items: 2 to 64, and any other number is refusal 3.
pub fn check_capacity(capacity: usize) -> Result<(), Refusal>
    ensures { refused_by result ≡ (if is_capacity capacity then 0 else 3) }
{
    if (2..=64).contains(&capacity) {
        Ok(())
    } else {
        Err(Refusal::BadCapacity)
    }
}

/// An empty ring over these slots, and what holds of it over every list of puts and takes.
pub fn start<T: RingItem>(slots: &[T]) -> Result<Span, Refusal>
    ensures refusal { refused_by result ≡ (if is_capacity (length slots.now) then 0 else 3) }
    ensures value { IfOk result (λ span. span ≡ no_span) }
    ensures valid { IfOk result (λ span. Valid T.RingItem.closing slots.now span) }
    ensures empty { IfOk result (λ span. waiting slots.now span ≡ []) }
    ensures runs { OnOk result (Runs T.RingItem.closing T.RingItem.lost (length slots.now)) }
{
    check_capacity(slots.len())?;
    Ok(Span::EMPTY)
}

// `Valid` of slots and span in each contract: see changes.rt.

/// How many items wait.
pub fn len<T: RingItem>(slots: &[T], span: &Span) -> usize
    requires { Valid T.RingItem.closing slots.now span.now }
    ensures { result ≡ length (waiting slots.now span.now) }
{
    span.len
}

/// How many items are readable: those up to and including the last closing one.
pub fn readable<T: RingItem>(slots: &[T], span: &Span) -> usize
    requires { Valid T.RingItem.closing slots.now span.now }
    ensures { result ≡ readable_of T.RingItem.closing (waiting slots.now span.now) }
{
    span.ready
}

/// Throws all away.
pub fn clear<T: RingItem>(slots: &[T], span: &mut Span)
    requires { Valid T.RingItem.closing slots.now span.old }
    ensures valid { Valid T.RingItem.closing slots.now span.new }
    ensures after { waiting slots.now span.new ≡ [] }
{
    *span = Span::EMPTY;
}

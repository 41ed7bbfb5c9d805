// The calls that move a ring: put and take, each in constant time. They, and those of lib.rt, go over a slice with a span beside it and say `Valid` of both: by a rule of the
// project a ring is also to be had over slots that its owner lends. `Ring` has the two in one value, and asks nothing; a struct of lent slots and a span would be made anew
// at each call of an owner of slots.
ghost use Rattle.std.specs.Prelude.{◌≡◌, ◌+◌, ◌<◌, ◌≤◌, [], ◌∷◌, ◌++◌, length};
ghost use Rattle.ring.specs.Waiting.{waiting, after_put, take_of, item_of, left_of, place_of, Valid};

use crate::{RingItem, Span};

// The slot that lies `far` past `head`, going round.
fn place(capacity: usize, head: usize, far: usize) -> usize
    requires { (capacity ≤ 64) × ((head < capacity) × (far ≤ capacity)) }
    ensures value { result ≡ place_of capacity head far }
    ensures bound { result < capacity }
{
    // not by `%`: where the calls are inlined, a put and a take with it took 1.6 times as long
    let at = head + far;
    if at < capacity { at } else { at - capacity }
}

// Adds an item behind those that wait.
#[tactic(auto, using(crate::proofs::Rotation::waiting_put))]
fn append<T: RingItem>(slots: &mut [T], span: &mut Span, item: T)
    requires valid { Valid T.RingItem.closing slots.old span.old }
    requires room { span.old.len < length slots.old }
    ensures valid { Valid T.RingItem.closing slots.new span.new }
    ensures after { waiting slots.new span.new ≡ waiting slots.old span.old ++ (item ∷ []) }
    ensures len { span.new.len ≡ span.old.len + 1 }
{
    let at = place(slots.len(), span.head, span.len);
    slots[at] = item;
    span.len += 1;
    if item.closes() {
        span.ready = span.len;
    }
}

/// Adds an item. A full ring throws all away and leaves the mark made from the item, and then the item.
pub fn put<T: RingItem>(slots: &mut [T], span: &mut Span, item: T)
    requires { Valid T.RingItem.closing slots.old span.old }
    ensures valid { Valid T.RingItem.closing slots.new span.new }
    ensures after { waiting slots.new span.new ≡ after_put T.RingItem.lost (length slots.old) (waiting slots.old span.old) item }
{
    if span.len < slots.len() {
        append(slots, span, item);
    } else {
        *span = Span::EMPTY;
        append(slots, span, item.mark());
        append(slots, span, item);
    }
}

/// Removes the oldest item, if it is readable.
#[tactic(auto, using(crate::proofs::Rotation::take_none, crate::proofs::Rotation::taken, crate::proofs::Rotation::take_valid))]
pub fn take<T: RingItem>(slots: &[T], span: &mut Span) -> Option<T>
    requires { Valid T.RingItem.closing slots.now span.old }
    ensures valid { Valid T.RingItem.closing slots.now span.new }
    ensures value { result ≡ item_of (take_of T.RingItem.closing (waiting slots.now span.old)) }
    ensures after { waiting slots.now span.new ≡ left_of (waiting slots.now span.old) (take_of T.RingItem.closing (waiting slots.now span.old)) }
{
    if span.ready == 0 {
        return None;
    }
    let item = slots[span.head];
    span.head = place(slots.len(), span.head, 1);
    span.len -= 1;
    span.ready -= 1;
    Some(item)
}

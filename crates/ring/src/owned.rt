ghost use Rattle.std.specs.Prelude.{◌≡◌, ⊤, [], length, take};
ghost use Rattle.ring.specs.Runs.{Runs};
ghost use Rattle.ring.specs.Waiting.{Valid, after_put, take_of, item_of, left_of, readable_of};

use crate::{Capacity, RingItem, Span, clear, len, put, readable, take};
use std::alloc::AllocError;

/// A ring with slots of its own, of which it uses the first `capacity`. An array with a span, and no `VecDeque`: a core's calls take no memory.
/// No `Model`: a core that holds one says on a refusal that the memory itself is as it was.
pub struct Ring<T: RingItem, const N: usize> {
    slots: [T; N],
    capacity: Capacity<N>,
    span: Span,
    ghost long: { length slots ≡ N },
    ghost valid: { Valid T.RingItem.closing (take capacity.items slots) span },
}

// Written out, since at a struct with a type parameter the check says "`Clone` cannot be derived for a struct with a ghost field".
impl<T: RingItem, const N: usize> Clone for Ring<T, N> {
    ghost is_clone = { λ x y. y ≡ x };

    ghost is_infallible = { λ _. ⊤ };

    fn clone(&self) -> Result<Ring<T, N>, AllocError> {
        Ok(*self)
    }
}

impl<T: RingItem, const N: usize> Copy for Ring<T, N> {}

// That put, take and clear leave the capacity stands in the contract of each: it is chosen at run time, so no type can say it.
impl<T: RingItem, const N: usize> Ring<T, N> {
    ghost use Rattle.ring.specs.Rings.{capacity_of, waiting_in};

    /// An empty ring of this capacity, its slots filled with `blank`; and what holds of it over every list of puts and takes.
    pub fn new(blank: T, capacity: Capacity<N>) -> Ring<T, N>
        ensures capacity { capacity_of result ≡ capacity.entry.items }
        ensures empty { waiting_in result ≡ [] }
        ensures runs { Runs T.RingItem.closing T.RingItem.lost capacity.entry.items }
    {
        Ring {
            slots: [blank; N],
            capacity,
            span: Span::EMPTY,
        }
    }

    /// How many items it has room for.
    pub fn capacity(&self) -> Capacity<N>
        ensures { result.items ≡ capacity_of self.now }
    {
        self.capacity
    }

    /// How many items wait.
    pub fn len(&self) -> usize
        ensures { result ≡ length (waiting_in self.now) }
    {
        len(&self.slots[..self.capacity.items()], &self.span)
    }

    /// How many items are readable: those up to and including the last closing one.
    pub fn readable(&self) -> usize
        ensures { result ≡ readable_of T.RingItem.closing (waiting_in self.now) }
    {
        readable(&self.slots[..self.capacity.items()], &self.span)
    }

    /// Adds an item. A full ring throws all away and leaves the mark made from the item, and then the item.
    pub fn put(&mut self, item: T)
        ensures capacity { capacity_of self.new ≡ capacity_of self.old }
        ensures after { waiting_in self.new ≡ after_put T.RingItem.lost (capacity_of self.old) (waiting_in self.old) item }
    {
        put(
            &mut self.slots[..self.capacity.items()],
            &mut self.span,
            item,
        );
    }

    /// Removes the oldest item, if it is readable.
    pub fn take(&mut self) -> Option<T>
        ensures capacity { capacity_of self.new ≡ capacity_of self.old }
        ensures value { result ≡ item_of (take_of T.RingItem.closing (waiting_in self.old)) }
        ensures after { waiting_in self.new ≡ left_of (waiting_in self.old) (take_of T.RingItem.closing (waiting_in self.old)) }
    {
        take(&self.slots[..self.capacity.items()], &mut self.span)
    }

    /// Throws all away.
    pub fn clear(&mut self)
        ensures capacity { capacity_of self.new ≡ capacity_of self.old }
        ensures after { waiting_in self.new ≡ [] }
    {
        clear(&self.slots[..self.capacity.items()], &mut self.span);
    }
}

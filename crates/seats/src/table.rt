ghost use Rattle.std.specs.Prelude.{◌≡◌, not, [], map, length, replicate, slice_set};
ghost use Rattle.ring.specs.Waiting.{item_of};
ghost use Rattle.model.specs.Core.{put_seat, is_free, seat_at, waiting, take};
ghost use Rattle.model.specs.Core.Seat.{free, taken_by};
ghost use Rattle.seats.specs.Seen.{seen, emptied, taken_from, restarted};

use crate::{Capacity, SeatNumber};
use events::Item;
use ring::Ring;

// A seat is free, or open with its ring.
type Seat = Option<Ring<Item, 64>>;

/// The eight seats. One seat's ring is changed through the table's own methods. No `Model`: a core that holds them says on a refusal that the memory itself is as it was.
#[derive(Drop)]
pub struct Seats {
    seats: [Seat; 8],
    ghost eight: { length seats ≡ 8 },
}

/// What a ring is left with when it starts anew: a mark, and the report end if there is one.
#[derive(Clone, Copy, PartialEq, Eq, Debug)]
pub struct Leavings {
    pub mark: Item,
    pub end: Option<Item>,
}

// Puts an item into a seat's ring, if the seat is open.
fn put(seat: &mut Seat, item: Item)
    ensures { seen seat.new ≡ put_seat item (seen seat.old) }
{
    if let Some(ring) = seat {
        ring.put(item);
    }
}

// Empties a seat's ring, if the seat is open, and leaves these in it.
fn restart(seat: &mut Seat, leavings: Leavings)
    ensures { seen seat.new ≡ restarted leavings.mark leavings.end (seen seat.old) }
{
    if let Some(ring) = seat {
        ring.clear();
        ring.put(leavings.mark);
        if let Some(end) = leavings.end {
            ring.put(end);
        }
    }
}

// `put`, `take` and `clear` borrow the table first: of `&mut self.seats[..]`, in a struct with a ghost field, the check says that it cannot build a plan,
// since "a struct of which members are out is read whole".
impl Seats {
    ghost use Rattle.seats.specs.Rows.{rows, change};

    /// Eight free seats.
    pub fn new() -> Seats
        ensures { rows result ≡ replicate 8 free }
    {
        Seats { seats: [None; 8] }
    }

    /// Whether a seat is open.
    pub fn is_open(&self, seat: SeatNumber) -> bool
        ensures { result ≡ not (is_free (seat_at (rows self.now) seat.number)) }
    {
        self.seats[seat.number].is_some()
    }

    /// Opens a seat with an empty ring.
    #[tactic(auto, using(crate::proofs::Changed::one_row))]
    pub fn open(&mut self, seat: SeatNumber, capacity: Capacity)
        ensures { rows self.new ≡ slice_set (rows self.old) seat.number (taken_by capacity.items []) }
    {
        self.seats[seat.number] = Some(Ring::new(Item::default(), capacity));
    }

    /// Frees a seat.
    #[tactic(auto, using(crate::proofs::Changed::one_row))]
    pub fn close(&mut self, seat: SeatNumber)
        ensures { rows self.new ≡ slice_set (rows self.old) seat.number free }
    {
        self.seats[seat.number] = None;
    }

    /// Puts an item into a seat's ring, if the seat is open.
    pub fn put(&mut self, seat: SeatNumber, item: Item)
        ensures { rows self.new ≡ change (put_seat item) seat.number (rows self.old) }
    {
        let seats = &mut self.seats;
        put(&mut seats[seat.number], item);
    }

    /// Takes the oldest readable item of a seat.
    pub fn take(&mut self, seat: SeatNumber) -> Option<Item>
        ensures value { result ≡ item_of (take (waiting (seat_at (rows self.old) seat.number))) }
        ensures after { rows self.new ≡ change taken_from seat.number (rows self.old) }
    {
        let seats = &mut self.seats;
        seats[seat.number].as_mut()?.take()
    }

    /// Empties a seat's ring.
    pub fn clear(&mut self, seat: SeatNumber)
        ensures { rows self.new ≡ change emptied seat.number (rows self.old) }
    {
        let seats = &mut self.seats;
        if let Some(ring) = &mut seats[seat.number] {
            ring.clear();
        }
    }

    /// Puts an item into the ring of every open seat.
    pub fn put_all(&mut self, item: Item)
        ensures { rows self.new ≡ map (put_seat item) (rows self.old) }
    {
        for seat in self.seats.iter_mut() {
            put(seat, item);
        }
    }

    /// Empties the ring of every open seat but one, and leaves these in it.
    pub fn restart_others(&mut self, but: SeatNumber, leavings: Leavings)
        ensures { rows self.new ≡ slice_set (map (restarted leavings.mark leavings.end) (rows self.old)) but.number (seat_at (rows self.old) but.number) }
    {
        for (at, seat) in self.seats.iter_mut().enumerate() {
            if at != but.number {
                restart(seat, leavings);
            }
        }
    }
}

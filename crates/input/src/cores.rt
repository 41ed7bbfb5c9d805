ghost use Rattle.std.specs.Prelude.{◌≡◌, ◌<◌, true};

use seats::{SeatNumber, Seats};

mod calls;
mod grabs;
mod grounds;
mod reads;

/// One device's core: its state, the reports ended, and the seats of its clients. Contracts speak of it as `shown`, and it has no `Model`: in one's terms they could not say
/// that on a refusal the memory itself is as it was. So it is with clients, keyboards and what stands on them.
#[derive(Drop)]
pub struct Core<P> {
    device: u16,
    state: P,
    // reports ended, and the time of the last
    reports: u32,
    time: u64,
    // whether a report is open: a flag, and not the number of the open one, which is one more than `reports`
    reporting: bool,
    // the seat that holds the grab
    holder: Option<SeatNumber>,
    seats: Seats,
    ghost room: { (reporting ≡ true → reports < 4294967295) },
}

/// A grab of a device by a seat. Only `grab` makes one, and it has to be handed to `release`. Two fields, and no struct shared with a call, whose seat may be any number.
pub struct Grab {
    device: u16,
    seat: SeatNumber,
}

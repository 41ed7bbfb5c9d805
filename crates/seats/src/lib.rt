//! The eight seats of a core, each free or with a ring of its own.
#![tactic(auto)]

mod numbers;
mod table;

pub use numbers::SeatNumber;
pub use table::{Leavings, Seats};

/// The capacity of a seat's ring, 2 to 64.
pub type Capacity = ring::Capacity<64>;

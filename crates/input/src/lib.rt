//! The running core, its clients and the seven calls.
#![tactic(auto)]

mod client;
mod cores;

pub use client::Client;
pub use cores::{Core, Grab};
pub use model::Read;

//! Recordings: records one after another, each with its length in front, and what a record asks for.
#![tactic(auto)]

mod commands;
mod frames;
mod records;
#[cfg(test)]
mod tests;

pub use commands::{Command, Device, Place, Seat};
pub use frames::{Records, check, first_length};
pub use records::decode;

//! Events, items and refusals: the words that every other crate speaks.
#![tactic(auto)]

mod failures;
mod items;
mod keys;
mod refusals;

pub use failures::Failure;
pub use items::{Event, Item};
pub use keys::KeyAction;
pub use refusals::Refusal;

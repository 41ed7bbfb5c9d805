//! The driver of a touch panel: each record says where fingers are, or that they were lifted, and is offered to a core.
#![tactic(auto)]

mod entries;
mod panel;

pub use panel::TouchDriver;

//! A core together with the grab that is out on it, so that any call of the model can be made on it, and the grab is never let go.
#![tactic(auto)]

mod stage;

pub use stage::Stage;

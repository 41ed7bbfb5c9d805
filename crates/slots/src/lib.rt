//! Slots: where the fingers on a touch panel are, as a part of type 3 with the codes 47 to 63. Code 47 selects one of ten slots; 57 sets the selected
//! slot's id, 53 its x and 54 its y.
#![tactic(auto)]

ghost use Rattle.std.specs.Prelude.{◌≡◌, ◌<◌, length};
ghost use Rattle.slots.specs.Ranges.{Legal};

mod changes;
mod display;
mod fields;
mod fingers;
mod part;
mod reads;
#[cfg(test)]
mod tests;
mod way;

pub use fields::NoField;
pub use fingers::resting;

/// The code that selects a slot. It is no `Field`, since the selection is no field of a slot.
pub const SELECT: u16 = 47;

/// A field of a slot.
#[derive(Clone, Copy, PartialEq, Eq, Debug)]
pub enum Field {
    Id = 57,
    X = 53,
    Y = 54,
}

/// What is known of one finger: its id, −1 where the slot is unused, and its place.
#[derive(Clone, Copy, PartialEq, Eq, Debug)]
pub struct Slot {
    // −1 and not an `Option`: a field is the value that an event sets it to, and all three are got and put alike
    id: i32,
    x: i32,
    y: i32,
    ghost ok: { Legal id x y },
}

/// Ten slots, one of them selected.
#[derive(Clone, Copy, PartialEq, Eq, Debug)]
pub struct Slots {
    // an array: memory is fixed, since a core's calls take none
    slots: [Slot; 10],
    selected: usize,
    ghost ok: { (length slots ≡ 10) × (selected < 10) },
}

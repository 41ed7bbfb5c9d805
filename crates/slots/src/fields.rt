ghost use Rattle.std.specs.Prelude.{◌≡◌, Some, codes};
ghost use Rattle.slots.specs.Ranges.{legal, code_of, Names};
ghost use Rattle.slots.specs.SlotsPart.{get, put, differs_in, first_difference, setting};

use crate::{Field, Slot};
use events::Event;
use std::fmt;

/// A code that sets no field.
#[derive(Clone, Copy, PartialEq, Eq, Debug)]
pub struct NoField;

impl fmt::Display for NoField {
    ghost output = { λ _. Some (codes "the code sets no field") };

    fn fmt<W: fmt::Write>(&self, f: &mut fmt::Formatter<W>) -> fmt::Result {
        f.write_str("the code sets no field")
    }
}

impl std::error::Error for NoField {}

/// The field that a code sets.
impl TryFrom<u16> for Field {
    type Error = NoField;

    ghost try_from_gives = { Names };

    fn try_from(code: u16) -> Result<Field, NoField> {
        match code {
            57 => Ok(Field::Id),
            53 => Ok(Field::X),
            54 => Ok(Field::Y),
            _ => Err(NoField),
        }
    }
}

/// The code that sets a field.
impl From<Field> for u16 {
    ghost from_gives = { λ field r. r ≡ code_of field };

    fn from(field: Field) -> u16 {
        field as u16
    }
}

impl Field {
    // In the order in which the way to a target sets them.
    pub(crate) const ALL: [Field; 3] = [Field::Id, Field::X, Field::Y];

    // Whether a field may take a value.
    pub(crate) fn allows(self, value: i32) -> bool
        ensures { result ≡ legal self value }
    {
        match self {
            Field::Id => (-1..=65534).contains(&value),
            Field::X | Field::Y => (0..=65535).contains(&value),
        }
    }
}

impl Slot {
    // A slot that no finger uses.
    pub(crate) const UNUSED: Slot = Slot { id: -1, x: 0, y: 0 };

    // What a field holds.
    pub(crate) fn get(&self, field: Field) -> i32
        ensures { result ≡ get self.now field }
    {
        match field {
            Field::Id => self.id,
            Field::X => self.x,
            Field::Y => self.y,
        }
    }

    // Sets a field to a value that it may take, and leaves it at any other.
    pub(crate) fn put(&mut self, field: Field, value: i32)
        ensures { self.new ≡ put self.old field value }
    {
        if field.allows(value) {
            match field {
                Field::Id => self.id = value,
                Field::X => self.x = value,
                Field::Y => self.y = value,
            }
        }
    }

    // Whether a field differs.
    pub(crate) fn differs_in(&self, other: &Slot, field: Field) -> bool
        ensures { result ≡ differs_in field self.now other.now }
    {
        self.get(field) != other.get(field)
    }

    // The first of id, x and y that differs.
    pub(crate) fn first_difference(&self, other: &Slot) -> Option<Field>
        ensures { result ≡ first_difference self.now other.now }
    {
        Field::ALL
            .iter()
            .copied()
            .find(|&field| self.differs_in(other, field))
    }

    // The event that sets a field as this slot has it.
    pub(crate) fn setting(&self, field: Field) -> Event
        ensures { result ≡ setting self.now field }
    {
        Event::slot(field.into(), self.get(field))
    }
}

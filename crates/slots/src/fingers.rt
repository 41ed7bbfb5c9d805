ghost use Rattle.std.specs.Prelude.{◌≡◌};
ghost use Rattle.slots.specs.SlotsPart.{resting};

use crate::{Field, SELECT};
use events::Event;

/// The events by which a panel says that a finger rests in a slot: the slot is selected, and then its id, its x and its y are set.
pub fn resting(slot: i32, id: i32, x: i32, y: i32) -> [Event; 4]
    ensures { result ≡ resting slot id x y }
{
    [
        Event::slot(SELECT, slot),
        Event::slot(Field::Id.into(), id),
        Event::slot(Field::X.into(), x),
        Event::slot(Field::Y.into(), y),
    ]
}

ghost use Rattle.std.specs.Prelude.{◌≡◌, length};
ghost use Rattle.decoder.specs.Offers.{release, events_of, gives};
ghost use Rattle.std.specs.Iterator.{at_most};

use events::{Event, KeyAction};
use keys::Keys;

/// What a byte offers. `Nothing` is a variant, and not an `Option` around the others: a keyboard's `take` answers an `Option<Offer>` already, whose `None`
/// says that no byte was readable.
#[derive(Clone, Copy, PartialEq, Eq, Debug)]
pub enum Offer {
    Nothing,
    One(Event),
    // the release of each of these keys, ascending
    Releases(Keys),
}

// The release of a key.
fn release(code: u16) -> Event
    ensures { result ≡ release code }
{
    KeyAction::Release.event(code)
}

/// The events of an offer, one after another.
impl Iterator for Offer {
    type Item = Event;

    ghost can_next = { λ _. Unit {0} };

    ghost next_gives = { gives };

    ghost remaining = { λ o. at_most (length (events_of o)) };

    fn next(&mut self) -> Option<Event> {
        match self {
            Offer::Nothing => None,
            &mut Offer::One(event) => {
                *self = Offer::Nothing;
                Some(event)
            }
            Offer::Releases(keys) => Some(release(keys.pop_first()?)),
        }
    }
}

ghost use Rattle.std.specs.Prelude.{◌≡◌, Some};
ghost use Rattle.std.specs.Option.{ok_or};
ghost use Rattle.events.specs.Items.{of_key};
ghost use Rattle.events.specs.Keys.{value_of, action_of, word_of};
ghost use Rattle.events.specs.declared.refusals.Refusal.TheVariants.{BadValue};

use crate::{Event, Refusal};
use std::fmt;

/// What became of a key, as the value of its event says it.
#[derive(Clone, Copy, PartialEq, Eq, Debug)]
pub enum KeyAction {
    Release = 0,
    Press = 1,
    // pressed still, and told again
    Repeat = 2,
}

impl KeyAction {
    /// The event of a key to which this happens.
    pub fn event(self, code: u16) -> Event
        ensures { result ≡ of_key code (value_of self) }
    {
        Event::key(code, self.into())
    }
}

/// In a word, as in `press`.
impl fmt::Display for KeyAction {
    ghost output = { λ action. Some (word_of action) };

    fn fmt<W: fmt::Write>(&self, f: &mut fmt::Formatter<W>) -> fmt::Result {
        f.write_str(match self {
            KeyAction::Release => "release",
            KeyAction::Press => "press",
            KeyAction::Repeat => "repeat",
        })
    }
}

impl From<KeyAction> for i32 {
    ghost from_gives = { λ action value. value ≡ value_of action };

    fn from(action: KeyAction) -> i32 {
        action as i32
    }
}

/// What a value says; any but 0, 1 and 2 is not allowed.
impl TryFrom<i32> for KeyAction {
    type Error = Refusal;

    ghost try_from_gives = { λ value result. result ≡ ok_or (action_of value) BadValue };

    fn try_from(value: i32) -> Result<KeyAction, Refusal> {
        match value {
            0 => Ok(KeyAction::Release),
            1 => Ok(KeyAction::Press),
            2 => Ok(KeyAction::Repeat),
            _ => Err(Refusal::BadValue),
        }
    }
}

ghost use Rattle.std.specs.Prelude.{◌≡◌};
ghost use Rattle.keys.specs.KeysPart.{is_key, value_verdict, key_event, keys_meaning};
ghost use Rattle.keys.specs.KeysLaws.{keys_laws};

use crate::set::{FIRST, Keys, LAST, is_code};
use events::{Event, KeyAction};
use parts::{Part, Verdict};

// Whether the event is a key's, with a code that a key has.
fn is_key(event: Event) -> bool
    ensures { result ≡ is_key event }
{
    event.kind == Event::KEY && is_code(event.code)
}

// What a key says to a value.
fn value_verdict(held: bool, value: i32) -> Verdict
    ensures { result ≡ value_verdict held value }
{
    match KeyAction::try_from(value) {
        Ok(KeyAction::Release) if held => Verdict::Change,
        Ok(KeyAction::Press) if !held => Verdict::Change,
        Ok(KeyAction::Repeat) if held => Verdict::Passing,
        Ok(_) => Verdict::Same,
        Err(_) => Verdict::BadValue,
    }
}

// The event by which a key is pressed or released.
fn key_event(code: u16, down: bool) -> Event
    ensures { result ≡ key_event code down }
{
    let action = if down {
        KeyAction::Press
    } else {
        KeyAction::Release
    };
    action.event(code)
}

impl Part for Keys {
    ghost means = { keys_meaning };

    ghost laws = { λ sound. keys_laws };

    fn first() -> u32 {
        Event::key(FIRST, 0).address()
    }

    fn last() -> u32 {
        Event::key(LAST, 0).address()
    }

    fn sound() -> bool {
        true
    }

    fn empty() -> Self {
        Keys::new()
    }

    fn verdict(&self, event: Event) -> Verdict {
        if is_key(event) {
            value_verdict(self.contains(event.code), event.value)
        } else {
            Verdict::Stranger
        }
    }

    fn take(&mut self, event: Event) {
        if self.verdict(event) == Verdict::Change {
            self.set(event.code, event.value == i32::from(KeyAction::Press));
        }
    }

    fn next(&self, target: &Self) -> Option<Event> {
        let code = self.first_difference(target)?;
        Some(key_event(code, target.contains(code)))
    }

    fn distance(&self, target: &Self) -> u64 {
        u64::from(self.count_differences(target))
    }
}

//! States as words, ascending and each with a space in front: `K31` says that key 31 is held, `S3:5,0` that
//! slot 3 is in use at x 5, y 0.
#![tactic(auto)]

ghost use Rattle.std.specs.Prelude.{◌≡◌, ℕ, List, ◌++◌, Some, IfOk, string_bytes, refl};
ghost use Rattle.keys.specs.KeyWords.{key_words};
ghost use Rattle.slots.specs.SlotWords.{slot_words};

use keys::Keys;
use parts::Pair;
use slots::Slots;
use std::alloc::Global;
use std::fmt;

/// A state that is printed as words: what its `Display` writes is always these.
pub trait Shown: fmt::Display {
    // the words of a state, each with a space in front
    ghost words: { Self → List ℕ };

    // what is printed
    ghost prints: { (s : Self) → Self.output s ≡ Some (words s) };
}

impl Shown for Keys {
    ghost words = { key_words };

    ghost prints = { λ s. refl };
}

impl Shown for Slots {
    ghost words = { slot_words };

    ghost prints = { λ s. refl };
}

impl<A: Shown, B: Shown> Shown for Pair<A, B> {
    // the upper half's words, and then the lower's
    ghost words = { λ s. A.words s.upper ++ B.words s.lower };

    ghost prints = { λ s. rw (A.prints s.upper, B.prints s.lower) refl };
}

/// The words of a state, as a text: `to_string`, whose promise stands here in the state's words. Nothing but tests calls it yet: it is a promise.
pub fn text_of<S: Shown>(heap: Global, state: &S) -> Result<String, fmt::Error>
    ensures { IfOk result (λ text. string_bytes text ≡ S.words state.now) }
{
    Ok(state.to_string(heap)?)
}

#[cfg(test)]
mod tests {
    use super::*;
    use keys::Keys;
    use parts::{Pair, Part};
    use slots::Slots;
    use std::test::Fail;

    #[test]
    fn writes_keys_ascending(rt: HostRuntime) -> Result<(), Fail> {
        let mut keys = Keys::new();
        keys.set(128, true);
        keys.set(31, true);
        let text = text_of(rt.alloc(), &keys)?;
        assert_eq!(rt; text.as_str(), " K31 K128");
        Ok(())
    }

    // Slot `i` in use, at this place.
    fn touch(slots: &mut Slots, i: i32, x: i32, y: i32) {
        for event in slots::resting(i, 7, x, y) {
            slots.take(event);
        }
    }

    #[test]
    fn writes_the_slots_in_use(rt: HostRuntime) -> Result<(), Fail> {
        let mut slots = <Slots as Part>::empty();
        touch(&mut slots, 9, 65535, 1);
        touch(&mut slots, 3, 5, 0);
        let text = text_of(rt.alloc(), &slots)?;
        assert_eq!(rt; text.as_str(), " S3:5,0 S9:65535,1");
        Ok(())
    }

    #[test]
    fn writes_the_upper_half_first(rt: HostRuntime) -> Result<(), Fail> {
        let mut upper = Keys::new();
        upper.set(31, true);
        let mut lower = Keys::new();
        lower.set(2, true);
        let text = text_of(rt.alloc(), &Pair { upper, lower })?;
        assert_eq!(rt; text.as_str(), " K31 K2");
        Ok(())
    }
}

ghost use Rattle.std.specs.Prelude.{◌≡◌, ◌++◌};
ghost use Rattle.std.specs.Option.{option_to_list};
ghost use Rattle.keys.specs.KeySet.{held, with_key, without, no_keys, held_codes, first_held, is_empty, first_apart, count_apart};

use crate::set::Keys;
use crate::set::words::{is_code, lowest_code};

impl Keys {
    /// No key is held.
    pub fn new() -> Keys
        ensures { result ≡ no_keys }
    {
        Keys { words: [0; 12] }
    }

    /// Whether the key is held.
    pub fn contains(&self, code: u16) -> bool
        ensures { result ≡ held self.now code }
    {
        is_code(code) && (self.words[(code / 64) as usize] >> (code % 64)) % 2 == 1
    }

    /// Notes the key as held or not; a code outside 1 to 767 changes nothing.
    pub fn set(&mut self, code: u16, down: bool)
        ensures { self.new ≡ with_key self.old code down }
    {
        if self.contains(code) != down {
            self.turn(code);
        }
    }

    /// The smallest code that is held.
    pub fn first(&self) -> Option<u16>
        ensures value { result ≡ first_held self.now }
        ensures codes { held_codes self.now ≡ option_to_list result ++ held_codes (without self.now result) }
    {
        self.first_difference(&Keys::new())
    }

    /// The smallest code that is held, which is then held no more.
    pub fn pop_first(&mut self) -> Option<u16>
        ensures value { result ≡ first_held self.old }
        ensures after { self.new ≡ without self.old result }
        ensures codes { held_codes self.old ≡ option_to_list result ++ held_codes self.new }
    {
        let code = self.first()?;
        self.set(code, false);
        Some(code)
    }

    /// Whether no key is held.
    pub fn is_empty(&self) -> bool
        ensures { result ≡ is_empty self.now }
    {
        self.first().is_none()
    }

    /// The smallest code that is held in one of the two sets and not in the other.
    pub fn first_difference(&self, other: &Keys) -> Option<u16>
        ensures { result ≡ first_apart self.now other.now }
    {
        let (i, apart) = self.first_differing_word(other)?;
        Some(lowest_code(i, apart))
    }

    /// How many codes are held in one of the two sets and not in the other.
    pub fn count_differences(&self, other: &Keys) -> u32
        ensures { result ≡ count_apart self.now other.now }
    {
        self.words
            .iter()
            .zip(&other.words)
            .map(|(mine, theirs)| (mine ^ theirs).count_ones())
            .sum()
    }
}

ghost use Rattle.std.specs.Prelude.{◌≡◌, length};
ghost use Rattle.keys.specs.KeySet.{held_codes};
ghost use Rattle.keys.specs.Iteration.{gives};
ghost use Rattle.std.specs.Iterator.{at_most};

use crate::set::Keys;

/// The codes that are still to come, ascending.
#[derive(Clone, Debug, Drop)]
pub struct Codes {
    keys: Keys,
}

impl Keys {
    /// The codes that are held, ascending.
    pub fn iter(&self) -> Codes
        ensures { result.keys ≡ self.now }
    {
        Codes { keys: *self }
    }
}

impl Iterator for Codes {
    type Item = u16;

    ghost can_next = { λ _. Unit {0} };

    ghost next_gives = { gives };

    ghost remaining = { λ s. at_most (length (held_codes s.keys)) };

    fn next(&mut self) -> Option<u16> {
        self.keys.pop_first()
    }
}

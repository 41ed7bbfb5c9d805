ghost use Rattle.std.specs.Prelude.{◌≡◌, ◌+◌, ◌*◌, ◌<◌};
ghost use Rattle.std.specs.Int.Count.{count_trailing_zeros};
ghost use Rattle.keys.specs.Words.{is_code};
ghost use Rattle.keys.specs.KeySet.{turned, first_apart};
ghost use Rattle.keys.specs.Scan.{Lowest};

use crate::set::Keys;

// The first and the last code of a key.
pub(crate) const FIRST: u16 = 1;

pub(crate) const LAST: u16 = 767;

// Whether a key has this code.
pub(crate) fn is_code(code: u16) -> bool
    ensures { result ≡ is_code code }
{
    (FIRST..=LAST).contains(&code)
}

// The code of the lowest bit that is set in word i.
pub(super) fn lowest_code(i: usize, word: u64) -> u16
    requires { i < 12 }
    ensures { result ≡ i * 64 + count_trailing_zeros 64 word }
{
    i as u16 * 64 + word.trailing_zeros() as u16
}

impl Keys {
    // Turns the key over, from held to not held or back.
    pub(super) fn turn(&mut self, code: u16)
        ensures { self.new ≡ turned self.old code }
    {
        if is_code(code) {
            self.words[(code / 64) as usize] ^= 1 << (code % 64);
        }
    }

    // The index of the first word at which the sets differ, and the bits at which it does.
    pub(super) fn first_differing_word(&self, other: &Keys) -> Option<(usize, u64)>
        ensures { Lowest result (first_apart self.now other.now) }
    {
        self.words
            .iter()
            .zip(&other.words)
            .map(|(mine, theirs)| mine ^ theirs)
            .enumerate()
            .find(|(_, apart)| *apart != 0)
    }
}

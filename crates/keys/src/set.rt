ghost use Rattle.keys.specs.Words.{Keyset};

mod methods;
mod words;

pub(crate) use words::{FIRST, LAST, is_code};

/// The keys that are held, in fixed memory, since no call allocates. Code c is bit c % 64 of word c / 64; bit 0 of word 0 is never set.
#[derive(Clone, Copy, PartialEq, Eq, Debug)]
pub struct Keys {
    words: [u64; 12],
    ghost ok: { Keyset words },
}

ghost use Rattle.std.specs.Prelude.{Some};
ghost use Rattle.std.specs.Fmt.{DisplaysOnOk};
ghost use Rattle.keys.specs.KeyWords.{key_words, KeysApart};

use crate::set::Keys;
use std::fmt;

/// The keys that are held, ascending, each with a space in front, as in ` K31 K128`.
impl fmt::Display for Keys {
    ghost output = { λ s. Some (key_words s) };

    /// Two key sets that are written alike are the same.
    fn fmt<W: fmt::Write>(&self, f: &mut fmt::Formatter<W>) -> fmt::Result
        ensures writes { DisplaysOnOk W.write_str_gives f.old result (Some (key_words self.now)) f.new }
        ensures apart { KeysApart }
    {
        for code in self.iter() {
            write!(f, " K{code}")?;
        }
        Ok(())
    }
}

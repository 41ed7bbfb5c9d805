ghost use Rattle.std.specs.Prelude.{Some};
ghost use Rattle.std.specs.Fmt.{DisplaysOnOk};
ghost use Rattle.slots.specs.SlotWords.{slot_words, FingersApart};

use crate::Slots;
use std::fmt;

/// The slots in use, ascending, each with a space in front and the place of its finger, as in ` S3:5,0 S9:65535,1`.
impl fmt::Display for Slots {
    ghost output = { λ s. Some (slot_words s) };

    /// Two panels whose slots are written alike have the same fingers.
    #[tactic(auto, using(crate::proofs::SlotWordLaws::fingers_apart))]
    fn fmt<W: fmt::Write>(&self, f: &mut fmt::Formatter<W>) -> fmt::Result
        ensures writes { DisplaysOnOk W.write_str_gives f.old result (Some (slot_words self.now)) f.new }
        ensures apart { FingersApart }
    {
        for (i, slot) in self.slots.iter().enumerate() {
            if let Some((x, y)) = slot.finger() {
                write!(f, " S{i}:{x},{y}")?;
            }
        }
        Ok(())
    }
}

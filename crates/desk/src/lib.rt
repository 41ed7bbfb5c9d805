//! Definitions of what a recording's records do to its two devices, and of the text that comes of it.
#![tactic(auto)]

ghost use Rattle.std.specs.Prelude.{◌≡◌};
ghost use Rattle.desk.specs.Follows.{Follows};

use parts::Part;

/// Whether the pile is sound, which is all that it answers; and, on its contract and whatever the pile, what the calls of a record do to a device is what the model's steps do, one after another.
#[tactic(auto, using(crate::proofs::Worlds::follows))]
pub fn records_follow<P: Part>() -> bool
    ensures sound { result ≡ P.Part.means.sound }
    ensures follow { Follows P.Part.means }
{
    P::sound()
}

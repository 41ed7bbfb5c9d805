//! The lines that clients' reads make, and the laws that make them true. The functions answer only whether a pile is sound: they are here to carry the theorems.
#![tactic(auto)]

ghost use Rattle.std.specs.Prelude.{◌≡◌};
ghost use Rattle.lines.specs.Lines.{LinesTrue, NumbersRise};
ghost use Rattle.lines.specs.Acts.{EntriesTrue};

use parts::Part;

/// Whether the pile is sound; and, whatever is called on a device of this pile, every line that it makes shows the device's state
/// after the report that it names, and the numbers of a client's lines never fall from one opening to the next.
pub fn lines_are_true<P: Part>() -> bool
    ensures sound { result ≡ P.Part.means.sound }
    ensures lines { LinesTrue P.Part.means }
    ensures rise { NumbersRise P.Part.means }
{
    P::sound()
}

/// Whether the first pile is sound; and, whatever is called on two devices of these piles, every entry of a listing of them is true.
pub fn entries_are_true<P: Part, Q: Part>() -> bool
    ensures sound { result ≡ P.Part.means.sound }
    ensures entries { EntriesTrue P.Part.means Q.Part.means }
{
    P::sound()
}

// What a grab bears.
ghost use Rattle.std.specs.Prelude.{◌≡◌};

use crate::cores::Grab;

impl Grab {
    /// The device number that the grab bears.
    pub fn device(&self) -> u16
        ensures { result ≡ self.now.device }
    {
        self.device
    }

    /// The seat that the grab bears.
    pub fn seat(&self) -> usize
        ensures { result ≡ self.now.seat.number }
    {
        self.seat.into()
    }
}

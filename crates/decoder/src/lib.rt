//! A decoder of scan code set 2: which key events each byte of a keyboard offers.
#![tactic(auto)]

ghost use Rattle.std.specs.Prelude.{◌≡◌};
ghost use Rattle.decoder.specs.Steps.{fresh, step};
ghost use Rattle.decoder.specs.Runs.{Laws};

use keys::Keys;

mod offers;
mod steps;

pub use offers::Offer;

/// What came before the code that the decoder waits for.
#[derive(Clone, Copy, PartialEq, Eq, Debug)]
pub enum Prefix {
    E0,
    // two codes are still to be passed over
    E1,
    // one code is still to be passed over
    E1Code,
}

/// A decoder, with the keys that it holds: those that it last offered with a value other than 0.
#[derive(Clone, Copy, PartialEq, Eq, Debug)]
pub struct Decoder {
    prefix: Option<Prefix>,
    // whether F0 came before the code: any prefix may stand beside it
    released: bool,
    // a flag, and not a state of its own: by the rules a deaf decoder keeps its prefix, so that all four fields stand at all times
    deaf: bool,
    held: Keys,
}

impl Decoder {
    /// A decoder at rest that holds no key, and what holds of it over every list of bytes.
    #[tactic(auto, using(crate::proofs::DecoderLaws::decoder_laws))]
    pub fn new() -> Decoder
        ensures value { result ≡ fresh }
        ensures laws { Laws }
    {
        Decoder {
            prefix: None,
            released: false,
            deaf: false,
            held: Keys::new(),
        }
    }

    /// The keys that the decoder holds.
    pub fn held(&self) -> Keys
        ensures { result ≡ self.now.held }
    {
        self.held
    }

    /// Takes one byte, and says what it offers.
    pub fn step(&mut self, byte: u8) -> Offer
        ensures value { result ≡ (step self.old byte).offer }
        ensures after { self.new ≡ (step self.old byte).decoder }
    {
        match byte {
            0xaa => {
                self.restart(None);
                self.deaf = false;
                self.release_all()
            }
            _ if self.deaf => Offer::Nothing,
            0x00 | 0xff => {
                self.deaf = true;
                self.release_all()
            }
            0xe0 => self.restart(Some(Prefix::E0)),
            0xe1 => self.restart(Some(Prefix::E1)),
            0xf0 => {
                self.released = true;
                Offer::Nothing
            }
            code => self.take_code(code),
        }
    }
}

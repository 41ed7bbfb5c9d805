//! A PS/2 keyboard: the ring in which its bytes wait, and the decoder that takes them one by one.
#![tactic(auto)]

ghost use Rattle.std.specs.Prelude.{◌≡◌, [], length};
ghost use Rattle.ring.specs.Bytes.{closes_code, lost_byte};
ghost use Rattle.ring.specs.Rings.{capacity_of};
ghost use Rattle.ring.specs.Runs.{Runs};
ghost use Rattle.ring.specs.Waiting.{after_put};
ghost use Rattle.decoder.specs.Steps.{fresh};

use decoder::{Decoder, Offer};
use keys::Keys;
use ring::{Capacity, Ring};

/// A keyboard as its driver sees it: the ring has room for 16 bytes.
#[derive(Clone, Copy)]
pub struct Keyboard {
    bytes: Ring<u8, 16>,
    decoder: Decoder,
    ghost sixteen: { capacity_of bytes ≡ 16 },
}

impl Keyboard {
    ghost use Rattle.keyboard.specs.Takes.{seen, take_seen};

    /// A keyboard just plugged in: no byte waits, no key is held; and what holds of its ring over every list of puts and takes.
    pub fn new() -> Keyboard
        ensures value { seen result ≡ record { waiting = []; decoder = fresh } }
        ensures runs { Runs closes_code lost_byte 16 }
    {
        let capacity = Capacity::try_from(16).unwrap();
        Keyboard {
            bytes: Ring::new(0, capacity),
            decoder: Decoder::new(),
        }
    }

    /// A byte arrives.
    pub fn put(&mut self, byte: u8)
        ensures { seen self.new ≡ record { waiting = after_put lost_byte 16 (seen self.old).waiting byte; decoder = self.old.decoder } }
    {
        self.bytes.put(byte);
    }

    /// Decodes the oldest byte, if it is readable, and says what it offers.
    pub fn take(&mut self) -> Option<Offer>
        ensures value { result ≡ (take_seen (seen self.old)).offer }
        ensures after { seen self.new ≡ (take_seen (seen self.old)).keyboard }
    {
        let byte = self.bytes.take()?;
        Some(self.decoder.step(byte))
    }

    /// How many bytes wait.
    pub fn waiting(&self) -> usize
        ensures { result ≡ length (seen self.now).waiting }
    {
        self.bytes.len()
    }

    /// The keys that the keyboard holds down, as far as its bytes say.
    pub fn held(&self) -> Keys
        ensures { result ≡ self.now.decoder.held }
    {
        self.decoder.held()
    }
}

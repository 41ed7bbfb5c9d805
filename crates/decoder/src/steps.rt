// What a decoder does with a code, which the prefixes say how to read.
ghost use Rattle.std.specs.Prelude.{◌≡◌};
ghost use Rattle.keys.specs.KeySet.{held, no_keys};
ghost use Rattle.decoder.specs.Offers.{key_event};
ghost use Rattle.decoder.specs.Steps.{restarted, value_of, code_step, look_up, key_step};

use crate::{Decoder, Offer, Prefix};
use events::KeyAction;
use keys::Keys;
use set2::Table;

impl Decoder {
    // Starts afresh, with a prefix or none.
    pub(crate) fn restart(&mut self, prefix: Option<Prefix>) -> Offer
        ensures value { result ≡ Offer.Nothing }
        ensures after { self.new ≡ restarted self.old prefix }
    {
        self.prefix = prefix;
        self.released = false;
        Offer::Nothing
    }

    // Lets go of every key.
    pub(crate) fn release_all(&mut self) -> Offer
        ensures value { result ≡ Offer.Releases self.old.held }
        ensures after { self.new ≡ record { prefix = self.old.prefix; released = self.old.released; deaf = self.old.deaf; held = no_keys } }
    {
        let held = self.held;
        self.held = Keys::new();
        Offer::Releases(held)
    }

    // Takes a code, which the prefixes say how to read.
    pub(crate) fn take_code(&mut self, code: u8) -> Offer
        ensures value { result ≡ (code_step self.old code).offer }
        ensures after { self.new ≡ (code_step self.old code).decoder }
    {
        match self.prefix {
            None => self.look_up(Table::Plain, code),
            Some(Prefix::E0) => self.look_up(Table::Extended, code),
            Some(Prefix::E1) => {
                self.prefix = Some(Prefix::E1Code);
                Offer::Nothing
            }
            Some(Prefix::E1Code) => self.restart(None),
        }
    }

    // Takes a code that stands for a key, or for none.
    fn look_up(&mut self, table: Table, code: u8) -> Offer
        ensures value { result ≡ (look_up self.old table code).offer }
        ensures after { self.new ≡ (look_up self.old table code).decoder }
    {
        let released = self.released;
        self.restart(None);
        match set2::key(table, code) {
            Some(key) => self.offer_key(key, released),
            None => Offer::Nothing,
        }
    }

    // Offers a key: released, pressed, or pressed again.
    fn offer_key(&mut self, key: u16, released: bool) -> Offer
        ensures value { result ≡ Offer.One (key_event key (value_of released (held self.old.held key))) }
        ensures after { self.new ≡ key_step self.old key released }
    {
        let action = match (released, self.held.contains(key)) {
            (true, _) => KeyAction::Release,
            (false, false) => KeyAction::Press,
            (false, true) => KeyAction::Repeat,
        };
        self.held.set(key, !released);
        Offer::One(action.event(key))
    }
}

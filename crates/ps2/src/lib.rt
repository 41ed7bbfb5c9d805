//! The driver of a PS/2 keyboard: its bytes wait in a ring of 16, and each take offers what one of them says to a core.
#![tactic(auto)]

ghost use Rattle.std.specs.Prelude.{◌≡◌, false, length, is_ok};
ghost use Rattle.decoder.specs.Offers.{events_of};
ghost use Rattle.keyboard.specs.Takes.{seen};
ghost use Rattle.input.specs.Answers.{answered};
ghost use Rattle.input.specs.Cores.{shown};
ghost use Rattle.driver.specs.Offering.{driven};
ghost use Rattle.ps2.specs.Takes.{take_answered, put_call, take_call};
ghost use Rattle.ps2.specs.Runs.{new_keyboard, Laws};

use decoder::Offer;
use events::Refusal;
use input::Core;
use keyboard::Keyboard;
use keys::Keys;
use parts::Part;

/// A keyboard's driver: the bytes that wait, and what was decoded so far. A type of its own around the keyboard: its `take` answers as a core does, and the laws on `new`
/// are of these puts and takes.
#[derive(Clone, Copy)]
pub struct KeyboardDriver {
    keyboard: Keyboard,
}

impl KeyboardDriver {
    /// The driver of a keyboard just plugged in: no byte waits, no key is held. And what holds over every list of puts and takes.
    #[tactic(auto, using(crate::proofs::KeyboardLaws::keyboard_laws))]
    pub fn new() -> KeyboardDriver
        ensures value { seen result.keyboard ≡ new_keyboard }
        ensures laws { Laws }
    {
        KeyboardDriver {
            keyboard: Keyboard::new(),
        }
    }

    /// A byte arrives.
    pub fn put(&mut self, byte: u8)
        ensures { seen self.new.keyboard ≡ put_call (seen self.old.keyboard) byte }
    {
        self.keyboard.put(byte);
    }

    /// Decodes one byte, offers its events and ends with a report if there was one. Answers what the report answered, 0 without one,
    /// and nothing where no byte is readable.
    pub fn take<P: Part>(&mut self, core: &mut Core<P>, time: u64) -> Result<Option<u32>, Refusal>
        ensures value { take_answered result ≡ (take_call P.Part.means (shown core.old) (seen self.old.keyboard) time).answer }
        ensures core { shown core.new ≡ (take_call P.Part.means (shown core.old) (seen self.old.keyboard) time).core }
        ensures driver { seen self.new.keyboard ≡ (take_call P.Part.means (shown core.old) (seen self.old.keyboard) time).keyboard }
        ensures refused { is_ok result ≡ false → (self.new ≡ self.old) × (core.new ≡ core.old) }
    {
        core.ready()?;
        let Some(offer) = self.keyboard.take() else {
            return Ok(None);
        };
        Ok(Some(drive(core, time, offer)?))
    }

    /// How many bytes wait.
    pub fn waiting(&self) -> usize
        ensures { result ≡ length (seen self.now.keyboard).waiting }
    {
        self.keyboard.waiting()
    }

    /// The keys that the driver holds: those that it last offered with a value other than 0.
    pub fn held(&self) -> Keys
        ensures { result ≡ (seen self.now.keyboard).decoder.held }
    {
        self.keyboard.held()
    }
}

// Offers the events of an offer, and ends with a report if there was one.
fn drive<P: Part>(core: &mut Core<P>, time: u64, mut offer: Offer) -> Result<u32, Refusal>
    ensures value { answered result ≡ (driven P.Part.means (shown core.old) time (events_of offer)).answer }
    ensures after { shown core.new ≡ (driven P.Part.means (shown core.old) time (events_of offer)).core }
{
    let Some(first) = offer.next() else {
        return Ok(0);
    };
    driver::offer(core, time, first);
    // The loop of `driver::offer_all`, over an iterator, of which a public function would have to ask that it ends.
    for event in offer {
        driver::offer(core, time, event);
    }
    core.report(time)
}

//! What a keyboard's bytes say, as text: a line for each key event, and a summary.
#![tactic(auto)]

ghost use Rattle.std.specs.Prelude.{◌≡◌, [], ◌++◌, Some, IfOk, string_bytes, MatchResult, OnOk};
ghost use Rattle.decoder.specs.Offers.{events_of};
ghost use Rattle.decoder.specs.Steps.{fresh};
ghost use Rattle.transcript.specs.Events.{event_words, event_lines};
ghost use Rattle.transcript.specs.Lines.{summary_text};
ghost use Rattle.transcript.specs.Feeding.{seen, tally, drained, drained_text, fed, fed_text};

use decoder::Offer;
use events::{Event, KeyAction};
use keyboard::Keyboard;
use std::alloc::{AllocError, Global};
use std::fmt;

/// A keyboard whose bytes are written down as text.
#[derive(Clone, Copy)]
pub struct Transcript {
    keyboard: Keyboard,
    // bytes taken from the ring, and events offered; both stop at the largest u64
    taken: u64,
    offered: u64,
}

impl Transcript {
    /// Nothing has come yet.
    pub fn new() -> Transcript
        ensures { seen result ≡ record { waiting = []; decoder = fresh; taken = 0; offered = 0 } }
    {
        Transcript {
            keyboard: Keyboard::new(),
            taken: 0,
            offered: 0,
        }
    }

    /// Puts each byte into the keyboard's ring, takes what is readable, and gives a line for each event.
    /// Without the memory for the lines nothing is changed.
    pub fn feed(&mut self, heap: Global, bytes: &[u8]) -> Result<String, fmt::Error>
        ensures text { IfOk result (λ text. string_bytes text ≡ fed_text (seen self.old) bytes.now) }
        ensures after { MatchResult result (λ _. seen self.new ≡ fed (seen self.old) bytes.now) (λ _. self.new ≡ self.old) }
    {
        let mut text = String::new(heap);
        let mut next = *self;
        for &byte in bytes {
            next.keyboard.put(byte);
            next.drain(&mut text)?;
        }
        *self = next;
        Ok(text)
    }

    /// How many bytes were taken and events offered, how many bytes still wait, and which keys are held.
    pub fn summary(&self, heap: Global) -> Result<String, fmt::Error>
        ensures { IfOk result (λ text. string_bytes text ≡ summary_text (seen self.now)) }
    {
        let taken = self.taken;
        let offered = self.offered;
        let waiting = self.keyboard.waiting();
        let held = self.keyboard.held();
        let text = format!(in heap;
            "bytes taken: {taken}\nevents offered: {offered}\nbytes waiting: {waiting}\nkeys held:{held}\n"
        )?;
        Ok(text)
    }

    // Takes all that is readable, with a line for each event. What is written here and below is added to a text that grows, as `write!` does.
    fn drain(&mut self, text: &mut String) -> Result<(), AllocError>
        ensures text { OnOk result (string_bytes text.new ≡ string_bytes text.old ++ drained_text (seen self.old)) }
        ensures after { OnOk result (seen self.new ≡ drained (seen self.old)) }
    {
        while let Some(offer) = self.keyboard.take() {
            self.taken = self.taken.saturating_add(1);
            self.write_events(text, offer)?;
        }
        Ok(())
    }

    // The lines of an offer, and a count of its events.
    fn write_events(&mut self, text: &mut String, offer: Offer) -> Result<(), AllocError>
        ensures text { OnOk result (string_bytes text.new ≡ string_bytes text.old ++ event_lines (events_of offer)) }
        ensures count { OnOk result (self.new ≡ record { keyboard = self.old.keyboard; taken = self.old.taken; offered = tally self.old.offered (events_of offer) }) }
    {
        for event in offer {
            let told = Told(event);
            writeln!(text, "{told}")?;
            self.offered = self.offered.saturating_add(1);
        }
        Ok(())
    }
}

// A key event as it is told.
#[derive(Clone, Copy)]
struct Told(Event);

// Printed as `K31 press`.
impl fmt::Display for Told {
    ghost output = { λ t. Some (event_words t.0) };

    fn fmt<W: fmt::Write>(&self, f: &mut fmt::Formatter<W>) -> fmt::Result {
        let Told(Event { code, value, .. }) = self;
        // any value that is none of a key's is told as a repeat
        let action = KeyAction::try_from(*value).unwrap_or(KeyAction::Repeat);
        write!(f, "K{code} {action}")
    }
}

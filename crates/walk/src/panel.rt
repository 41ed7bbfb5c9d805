// A touch panel's state, from its words.
use events::{Event, KeyAction};
use keys::Keys;
use parts::{Pair, Part, Verdict};
use slots::Slots;
use std::error::Error;
use std::fmt;
use std::num::ParseIntError;
use std::str::FromStr;

/// A touch panel: keys over slots.
#[derive(Clone, Copy, PartialEq, Eq, Debug)]
pub(crate) struct Panel(pub(crate) Pair<Keys, Slots>);

/// A word that says nothing.
#[derive(Clone, Copy, PartialEq, Eq, Debug)]
pub(crate) struct BadWord;

impl fmt::Display for BadWord {
    fn fmt<W: fmt::Write>(&self, f: &mut fmt::Formatter<W>) -> fmt::Result {
        write!(
            f,
            "a word is neither K and a key, 1 to 767, nor S, a slot, 0 to 9, and a place, as in S3:5,0"
        )
    }
}

impl Error for BadWord {}

impl From<ParseIntError> for BadWord {
    fn from(_: ParseIntError) -> BadWord {
        BadWord
    }
}

impl Panel {
    // Takes an event, unless the panel does not know it or its value.
    fn offer(&mut self, event: Event) -> Result<(), BadWord> {
        match self.0.verdict(event) {
            Verdict::Stranger | Verdict::BadValue => Err(BadWord),
            Verdict::Same | Verdict::Passing | Verdict::Change => {
                self.0.take(event);
                Ok(())
            }
        }
    }

    // A held key: its number.
    fn offer_key(&mut self, number: &str) -> Result<(), BadWord> {
        let code = number.parse::<u16>()?;
        self.offer(Event::key(code, KeyAction::Press.into()))
    }

    // A finger: its slot, and its place after a colon. Its id is the slot's number.
    fn offer_finger(&mut self, text: &str) -> Result<(), BadWord> {
        let (slot, place) = text.split_once(':').ok_or(BadWord)?;
        let (x, y) = place.split_once(',').ok_or(BadWord)?;
        let slot = slot.parse::<i32>()?;
        let x = x.parse::<i32>()?;
        let y = y.parse::<i32>()?;
        for event in slots::resting(slot, slot, x, y) {
            self.offer(event)?;
        }
        Ok(())
    }

    fn offer_word(&mut self, word: &str) -> Result<(), BadWord> {
        if let Some(number) = word.strip_prefix('K') {
            return self.offer_key(number);
        }
        self.offer_finger(word.strip_prefix('S').ok_or(BadWord)?)
    }
}

/// The state that the words say, as if a panel had sent them.
impl FromStr for Panel {
    type Err = BadWord;

    fn from_str(line: &str) -> Result<Panel, BadWord> {
        let mut panel = Panel(Part::empty());
        for word in line.split_whitespace() {
            panel.offer_word(word)?;
        }
        Ok(panel)
    }
}

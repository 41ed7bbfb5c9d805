ghost use Rattle.std.specs.Prelude.{◌≡◌, false, map, Ok, Err, MatchResult, nat_lt, slice_index};
ghost use Rattle.std.specs.List.{list_any};
ghost use Rattle.input.specs.Cores.{shown};
ghost use Rattle.driver.specs.Offering.{offered};
ghost use Rattle.touch.specs.Entries.{entry_of, entries_of, some_above, entry_events};
ghost use Rattle.touch.specs.Records.{legible};

use events::{Event, Refusal};
use input::Core;
use parts::Part;
use slots::{Field, SELECT};

/// A finger that rests on the panel: its id, and its place.
#[derive(Clone, Copy, PartialEq, Eq, Debug)]
pub(crate) struct Finger {
    pub(crate) id: u16,
    x: u16,
    y: u16,
}

/// What a record says of one slot: the finger there, none if it was lifted.
#[derive(Clone, Copy, PartialEq, Eq, Debug)]
pub(crate) struct Entry {
    pub(crate) slot: u8,
    pub(crate) finger: Option<Finger>,
}

impl From<&[u8; 8]> for Entry {
    ghost from_gives = { λ bytes entry. entry ≡ entry_of bytes.now };

    fn from(bytes: &[u8; 8]) -> Entry {
        let [slot, _, id_low, id_high, x_low, x_high, y_low, y_high] = *bytes;
        let finger = match u16::from_le_bytes([id_low, id_high]) {
            // the finger was lifted
            u16::MAX => None,
            id => Some(Finger {
                id,
                x: u16::from_le_bytes([x_low, x_high]),
                y: u16::from_le_bytes([y_low, y_high]),
            }),
        };
        Entry { slot, finger }
    }
}

impl Entry {
    // Offers what the entry says: its slot, and the finger's id and place; of a lifted finger −1 as its id.
    pub(crate) fn offer<P: Part>(self, core: &mut Core<P>, time: u64)
        ensures { shown core.new ≡ offered P.Part.means (shown core.old) time (entry_events self) }
    {
        let slot = i32::from(self.slot);
        match self.finger {
            None => {
                let select = Event::slot(SELECT, slot);
                let lifted = Event::slot(Field::Id.into(), -1);
                driver::offer_all(core, time, &[select, lifted]);
            }
            Some(Finger { id, x, y }) => {
                let events = slots::resting(slot, id.into(), x.into(), y.into());
                driver::offer_all(core, time, &events);
            }
        }
    }
}

// Whether an entry names a slot above 9.
fn slot_above(chunks: &[[u8; 8]]) -> bool
    ensures { result ≡ list_any (λ chunk. nat_lt 9 (slice_index chunk 0)) chunks.now }
{
    chunks.iter().any(|chunk| chunk[0] > 9)
}

/// A record with 1 to 10 entries, each in its eight bytes, none of which names a slot above 9.
#[derive(Clone, Copy)]
pub(crate) struct Record<'a> {
    pub(crate) chunks: &'a [[u8; 8]],
    ghost named: { some_above (map entry_of chunks.now) ≡ false },
}

impl<'a> TryFrom<&'a [u8]> for Record<'a> {
    type Error = Refusal;

    ghost try_from_gives = { λ bytes result. MatchResult result (λ r. (legible bytes.now ≡ Ok tt) × (map entry_of r.chunks.now ≡ entries_of bytes.now)) (λ refusal. legible bytes.now ≡ Err refusal) };

    fn try_from(bytes: &'a [u8]) -> Result<Record<'a>, Refusal> {
        let (chunks, rest) = bytes.as_chunks::<8>();
        if chunks.is_empty() || chunks.len() > 10 || !rest.is_empty() {
            return Err(Refusal::TouchLength);
        }
        if slot_above(chunks) {
            return Err(Refusal::TouchSlot);
        }
        Ok(Record { chunks })
    }
}

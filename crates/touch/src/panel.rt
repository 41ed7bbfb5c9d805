ghost use Rattle.std.specs.Prelude.{◌≡◌, false, map, is_ok};
ghost use Rattle.input.specs.Answers.{answered};
ghost use Rattle.input.specs.Cores.{shown};
ghost use Rattle.driver.specs.Offering.{offered};
ghost use Rattle.touch.specs.Entries.{entry_of, entries_events, ids_after, some_down, touch_key, record_events};
ghost use Rattle.touch.specs.Records.{record_call};
ghost use Rattle.touch.specs.Runs.{new_ids, Laws};

use crate::entries::{Entry, Record};
use events::{Event, Refusal};
use input::Core;
use parts::Part;

// The key that is down while a finger is.
const TOUCH_KEY: u16 = 330;

/// A touch panel's driver: the id that it last offered for each slot, none where the finger was lifted or none came yet.
#[derive(Clone, Copy)]
pub struct TouchDriver {
    // an array: memory is fixed, since no call allocates
    ids: [Option<u16>; 10],
}

impl TouchDriver {
    /// The driver of a panel that nothing touches, and what holds over every list of records.
    #[tactic(auto, using(crate::proofs::TouchLaws::touch_laws))]
    pub fn new() -> TouchDriver
        ensures value { result.ids ≡ new_ids }
        ensures laws { Laws }
    {
        TouchDriver { ids: [None; 10] }
    }

    /// Takes one record: offers its entries in order, then key 330, and reports.
    pub fn record<P: Part>(
        &mut self,
        core: &mut Core<P>,
        time: u64,
        bytes: &[u8],
    ) -> Result<u32, Refusal>
        ensures value { answered result ≡ (record_call P.Part.means (shown core.old) self.old.ids time bytes.now).answer }
        ensures core { shown core.new ≡ (record_call P.Part.means (shown core.old) self.old.ids time bytes.now).core }
        ensures driver { self.new.ids ≡ (record_call P.Part.means (shown core.old) self.old.ids time bytes.now).ids }
        ensures refused { is_ok result ≡ false → (self.new ≡ self.old) × (core.new ≡ core.old) }
    {
        let entries = Record::try_from(bytes)?;
        core.ready()?;
        self.offer_record(core, time, entries);
        core.report(time)
    }

    // Offers the events of a record.
    fn offer_record<P: Part>(&mut self, core: &mut Core<P>, time: u64, entries: Record)
        ensures core { shown core.new ≡ offered P.Part.means (shown core.old) time (record_events self.old.ids (map entry_of entries.entry.chunks.now)) }
        ensures driver { self.new.ids ≡ ids_after self.old.ids (map entry_of entries.entry.chunks.now) }
    {
        self.offer_entries(core, time, entries);
        driver::offer(core, time, self.touch_key());
    }

    // Offers what each entry says, in order, and remembers its id, whatever the core answers.
    fn offer_entries<P: Part>(&mut self, core: &mut Core<P>, time: u64, entries: Record)
        ensures core { shown core.new ≡ offered P.Part.means (shown core.old) time (entries_events (map entry_of entries.entry.chunks.now)) }
        ensures driver { self.new.ids ≡ ids_after self.old.ids (map entry_of entries.entry.chunks.now) }
    {
        for bytes in entries.chunks {
            let entry = Entry::from(bytes);
            self.ids[usize::from(entry.slot)] = entry.finger.map(|finger| finger.id);
            entry.offer(core, time);
        }
    }

    // The event that says whether any finger is down.
    fn touch_key(&self) -> Event
        ensures { result ≡ touch_key self.now.ids }
    {
        Event::key(TOUCH_KEY, i32::from(self.is_touched()))
    }

    // Whether a finger is down in any slot.
    fn is_touched(&self) -> bool
        ensures { result ≡ some_down self.now.ids }
    {
        self.ids.iter().any(Option::is_some)
    }
}

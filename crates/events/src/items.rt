ghost use Rattle.std.specs.Prelude.{◌≡◌, Some};
ghost use Rattle.events.specs.Items.{address, of_key, of_slot, item, report_end, loss_mark, is_report_end, is_loss_mark, event_text};

use std::fmt;

/// An event: its type (`kind` here, since `type` is a reserved word), its code and its value. Numbers, and no enums: a device may offer any of them, and it is for
/// the parts to say which they know.
#[derive(Clone, Copy, PartialEq, Eq, Debug, Default)]
pub struct Event {
    pub kind: u16,
    pub code: u16,
    pub value: i32,
}

// `key` and `slot` differ only in the type: a function that took it too would be the struct's literal once more.
impl Event {
    /// The type of a key's events.
    pub const KEY: u16 = 1;

    /// The type of the events of a touch panel's slots.
    pub const SLOT: u16 = 3;

    /// The end of a report.
    pub const REPORT_END: Event = Event {
        kind: 0,
        code: 0,
        value: 0,
    };

    /// What stands in a ring where events were thrown away.
    pub const LOSS_MARK: Event = Event {
        kind: 0,
        code: 3,
        value: 0,
    };

    /// An event of a key, which is its code.
    pub fn key(code: u16, value: i32) -> Event
        ensures { result ≡ of_key code value }
    {
        Event {
            kind: Event::KEY,
            code,
            value,
        }
    }

    /// An event of a touch panel's slots.
    pub fn slot(code: u16, value: i32) -> Event
        ensures { result ≡ of_slot code value }
    {
        Event {
            kind: Event::SLOT,
            code,
            value,
        }
    }

    /// Where the event belongs: type × 65536 + code.
    pub fn address(self) -> u32
        ensures { result ≡ address self }
    {
        u32::from(self.kind) * 65536 + u32::from(self.code)
    }
}

/// As in `type 1 code 31 value 1`.
impl fmt::Display for Event {
    ghost output = { λ e. Some (event_text e) };

    fn fmt<W: fmt::Write>(&self, f: &mut fmt::Formatter<W>) -> fmt::Result {
        let Event { kind, code, value } = self;
        write!(f, "type {kind} code {code} value {value}")
    }
}

/// An event with its time and the number of the report that it belongs to. Time and number are fields of it, with no struct of the two between: `item.time` is what
/// readers ask for, and only the two functions below take both.
#[derive(Clone, Copy, PartialEq, Eq, Debug, Default)]
pub struct Item {
    pub event: Event,
    pub time: u64,
    pub number: u32,
}

// Report ends and loss marks are made and tested by functions of their own: one that took the event would be the struct's literal, or the comparison, once more.
impl Item {
    /// The end of report `number`.
    pub fn report_end(time: u64, number: u32) -> Item
        ensures { result ≡ item report_end time number }
    {
        Item {
            event: Event::REPORT_END,
            time,
            number,
        }
    }

    /// A loss mark with this time and number.
    pub fn loss_mark(time: u64, number: u32) -> Item
        ensures { result ≡ item loss_mark time number }
    {
        Item {
            event: Event::LOSS_MARK,
            time,
            number,
        }
    }

    /// Whether this is a report end, whatever its time and number.
    pub fn is_report_end(&self) -> bool
        ensures { result ≡ is_report_end self.now }
    {
        self.event == Event::REPORT_END
    }

    /// Whether this is a loss mark, whatever its time and number.
    pub fn is_loss_mark(&self) -> bool
        ensures { result ≡ is_loss_mark self.now }
    {
        self.event == Event::LOSS_MARK
    }
}

//! The model: a core, its clients, the seven calls and their runs, as definitions. Here stand the phases, calls and answers that
//! they speak of, and the theorem over all runs.
#![tactic(auto)]

ghost use Rattle.std.specs.Prelude.{◌≡◌, ℕ};
ghost use Rattle.model.specs.Promises.{Faithful};
ghost use Rattle.model.specs.Replays.{within};

use events::{Event, Item};
use parts::Part;

/// What a client is at. Not open is a phase among the others, and no `Option` around them: by the rules a client that was closed has a state and a target too, both empty,
/// so that each match would be on `Some(..)` and gain nothing.
#[derive(Clone, Copy, PartialEq, Eq, Debug)]
pub enum Phase {
    NotOpen,
    /// What is read is what the device offers.
    InStep,
    /// Items were thrown away: what is left of their group is skipped.
    Lost,
    /// The group has ended: the device's state is to be caught up with.
    Due,
    /// Walking to the device's state as it was after a report, which ended at this time.
    CatchingUp { number: u32, time: u64 },
}

/// A call, as a value: the run theorem ranges over lists of them. A client is named by its place among the clients, a grab by the device number and seat that it bears:
/// two numbers, and no struct that a grab would share, since a call's seat may be any number and a grab's is one of the eight.
#[derive(Clone, Copy, PartialEq, Eq, Debug)]
pub enum Call {
    Event {
        time: u64,
        event: Event,
    },
    Report {
        time: u64,
    },
    Open {
        client: usize,
        seat: usize,
        capacity: usize,
    },
    Close {
        client: usize,
    },
    Grab {
        client: usize,
    },
    Release {
        device: u16,
        seat: usize,
        time: u64,
    },
    Read {
        client: usize,
    },
}

impl Call {
    /// Whether the call names none but the first `count` clients.
    pub fn within(self, count: usize) -> bool
        ensures { result ≡ within count self }
    {
        match self {
            Call::Open { client, .. }
            | Call::Close { client }
            | Call::Grab { client }
            | Call::Read { client } => client < count,
            Call::Event { .. } | Call::Report { .. } | Call::Release { .. } => true,
        }
    }
}

/// What a read answers.
#[derive(Clone, Copy, PartialEq, Eq, Debug)]
pub enum Read {
    /// Nothing is readable.
    Nothing,
    /// The client is due to be caught up, and has to wait for the end of the open report.
    ReportOpen,
    /// The client is due to be caught up, and has to wait until another's grab is released.
    Barred,
    /// An item that was thrown away with others, or the mark of that.
    Skipped(Item),
    /// An item as it came from the device.
    Live(Item),
    /// An event on the way to the device's state, or the report end that closes the way.
    CaughtUp(Item),
}

/// What a call is answered that is not refused.
#[derive(Clone, Copy, PartialEq, Eq, Debug)]
pub enum Answer {
    /// What event, report, open, close and release answer.
    Number(u32),
    /// A grab that bears these numbers.
    Granted { device: u16, seat: usize },
    Read(Read),
}

/// Whether the pile is sound, which is all that it answers; and, on its contract, the run theorem over it: what every client is promised, whatever is called.
/// For code that makes the calls one by one: each call's contract names the same step of the same definitions.
pub fn promises<P: Part>() -> bool
    ensures sound { result ≡ P.Part.means.sound }
    ensures faithful { Faithful P.Part.means }
{
    P::sound()
}

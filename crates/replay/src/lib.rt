//! Runs a list of calls on a core of its own, through the core's public calls.
#![tactic(auto)]

ghost use Rattle.std.specs.Prelude.{◌≡◌, Some, Ok, Err};
ghost use Rattle.replay.specs.Replayed.{Replayed, NotRun, all_within};

use events::Refusal;
use input::Client;
use model::{Answer, Call};
use parts::Part;
use stage::Stage;
use std::alloc::{AllocError, Global};
use std::error::Error;
use std::fmt;

/// Why a list of calls was not run. Beside `events::Failure` with its own want of memory: no refusal is among these, and none of those names a client.
#[derive(Clone, Copy, PartialEq, Eq, Debug)]
pub enum ReplayError {
    NoClient,
    NoMemory,
}

impl From<AllocError> for ReplayError {
    ghost use Rattle.replay.specs.declared.ReplayError.TheVariants.{NoMemory};

    ghost from_gives = { λ _ e. e ≡ NoMemory };

    fn from(_: AllocError) -> ReplayError {
        ReplayError::NoMemory
    }
}

/// The error in a few words.
impl fmt::Display for ReplayError {
    ghost use Rattle.replay.specs.Errors.{error_text};

    ghost output = { λ e. Some (error_text e) };

    fn fmt<W: fmt::Write>(&self, f: &mut fmt::Formatter<W>) -> fmt::Result {
        match self {
            Self::NoClient => write!(f, "a call names a client that there is not"),
            Self::NoMemory => write!(f, "no memory"),
        }
    }
}

impl Error for ReplayError {}

// Whether every call names a client that there is.
fn all_within(count: usize, calls: &[Call]) -> bool
    ensures { result ≡ all_within count calls.now }
{
    calls.iter().all(|call| call.within(count))
}

/// Makes a core of this device number, makes the calls on it, and gives their answers. A call names a client by its place in
/// the slice. A list that names a client past its end is refused before anything is done.
pub fn replay<P: Part>(
    heap: Global,
    device: u16,
    clients: &mut [Client<P>],
    calls: &[Call],
) -> Result<Vec<Result<Answer, Refusal>>, ReplayError>
    ensures { elim result [
      | Ok v ↦ Replayed P.Part.means device clients.old clients.new calls.now v.items
      | Err t ↦ NotRun clients.old clients.new calls.now t
    ] }
{
    if !all_within(clients.len(), calls) {
        return Err(ReplayError::NoClient);
    }
    let mut answers = Vec::with_capacity(heap, calls.len())?;
    let mut stage = Stage::<P>::new(device);
    for call in calls {
        answers.push_reserved(stage.call(clients, *call).unwrap());
    }
    stage.end(0).unwrap();
    Ok(answers)
}

ghost use Rattle.std.specs.Prelude.{◌≡◌};
ghost use Rattle.model.specs.Core.{is_open};
ghost use Rattle.model.specs.Calls.{shut};
ghost use Rattle.input.specs.Clients.{held, fresh, reply};
ghost use Rattle.model.specs.Answers.{as_read};

use events::Item;
use model::{Phase, Read};
use parts::Part;
use seats::SeatNumber;

/// A reader's side of a seat: its picture of the device, and what it is at. It cannot be copied. All five stand at all times, as in the definitions of the calls.
#[derive(Drop)]
pub struct Client<P> {
    // device and seat are those that it was opened with last: beside the phase, since inside it every change of phase would have to carry them over
    pub(crate) device: u16,
    pub(crate) seat: SeatNumber,
    pub(crate) state: P,
    pub(crate) target: P,
    pub(crate) phase: Phase,
}

impl<P: Part> Client<P> {
    /// A client that is not open.
    pub fn new() -> Client<P>
        ensures { held result ≡ fresh P.Part.means }
    {
        Client {
            device: 0,
            seat: SeatNumber::FIRST,
            state: P::empty(),
            target: P::empty(),
            phase: Phase::NotOpen,
        }
    }

    /// The client's picture of the device.
    pub fn state(&self) -> &P
        ensures { result.now ≡ (held self.now).state }
    {
        &self.state
    }

    /// Whether the client is open, here or elsewhere.
    pub fn is_open(&self) -> bool
        ensures { result ≡ is_open (held self.now).phase }
    {
        self.phase != Phase::NotOpen
    }

    // Makes the client one that is not open, and forgets what it held.
    pub(crate) fn shut(&mut self)
        ensures { held self.new ≡ shut P.Part.means (held self.old) }
    {
        self.phase = Phase::NotOpen;
        self.state = P::empty();
        self.target = P::empty();
    }

    // What a read answers in this phase to the item taken, if any.
    pub(crate) fn answer(&mut self, item: Option<Item>) -> Read
        ensures value { as_read result ≡ (reply P.Part.means (held self.old) item (held self.old).phase).answer }
        ensures after { held self.new ≡ (reply P.Part.means (held self.old) item (held self.old).phase).client }
    {
        match (&mut self.phase, item) {
            (Phase::InStep, Some(i)) if i.is_loss_mark() => {
                self.phase = Phase::Lost;
                Read::Skipped(i)
            }
            (Phase::InStep, Some(i)) => {
                self.state.take(i.event);
                Read::Live(i)
            }
            (Phase::Lost, Some(i)) => {
                if i.is_report_end() {
                    self.phase = Phase::Due;
                }
                Read::Skipped(i)
            }
            (&mut Phase::CatchingUp { number, time }, _) => {
                match parts::step(&mut self.state, &self.target) {
                    Some(event) => Read::CaughtUp(Item {
                        event,
                        time,
                        number,
                    }),
                    None => {
                        self.phase = Phase::InStep;
                        Read::CaughtUp(Item::report_end(time, number))
                    }
                }
            }
            (Phase::NotOpen | Phase::InStep | Phase::Lost | Phase::Due, _) => Read::Nothing,
        }
    }
}

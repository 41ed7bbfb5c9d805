// The calls of the model, made on a core whose grab is kept.
ghost use Rattle.std.specs.Prelude.{◌≡◌, true, false, length, IfNone, IfSome};
ghost use Rattle.model.specs.Calls.{grab_call, release_call};
ghost use Rattle.model.specs.Runs.{step};
ghost use Rattle.model.specs.Replays.{within};
ghost use Rattle.input.specs.Clients.{held};
ghost use Rattle.input.specs.Cores.{shown};
ghost use Rattle.stage.specs.Kept.{bears};
ghost use Rattle.stage.specs.Worlds.{world};

use crate::stage::Stage;
use events::Refusal;
use input::{Client, Grab};
use model::{Answer, Call};
use parts::{Part, check_sound};

// Takes the kept grab, if it bears these numbers.
fn take_of(kept: &mut Option<Grab>, device: u16, seat: usize) -> Option<Grab>
    ensures other { IfNone result ((bears kept.old device seat ≡ false) × (kept.new ≡ kept.old)) }
    ensures taken { IfSome result (λ g. (kept.old ≡ Some g) × (kept.new ≡ None) × (g.device ≡ device) × (g.seat.number ≡ seat)) }
{
    kept.take_if(|grab| grab.device() == device && grab.seat() == seat)
}

// Keeps a grab where none is kept.
fn keep(kept: &mut Option<Grab>, grab: Grab)
    requires { kept.old ≡ None }
    ensures { kept.new ≡ Some grab }
{
    match kept.replace(grab) {
        None => {}
        Some(_) => unreachable!(),
    }
}

impl<P: Part> Stage<P> {
    // Grabs for a client, and keeps the grab.
    #[tactic(auto, unfolding(model::specs::Calls::grab_call))]
    fn grab(&mut self, client: &Client<P>) -> Result<Answer, Refusal>
        ensures value { result ≡ (grab_call P.Part.means (shown self.old.core) (held client.now)).answer }
        ensures after { shown self.new.core ≡ (grab_call P.Part.means (shown self.old.core) (held client.now)).core }
    {
        let grab = self.core.grab(client)?;
        let answer = Answer::Granted {
            device: grab.device(),
            seat: grab.seat(),
        };
        keep(&mut self.grab, grab);
        Ok(answer)
    }

    // Releases the kept grab, if it bears these numbers; no other can be the one held, and a refused one is kept on.
    #[tactic(auto, unfolding(model::specs::Calls::release_call))]
    fn release(&mut self, device: u16, seat: usize, time: u64) -> Result<Answer, Refusal>
        ensures value { result ≡ (release_call P.Part.means (shown self.old.core) device seat time).answer }
        ensures after { shown self.new.core ≡ (release_call P.Part.means (shown self.old.core) device seat time).core }
    {
        let Some(grab) = take_of(&mut self.grab, device, seat) else {
            // the grounds on which a core refuses a grab that is not the one held
            check_sound::<P>()?;
            return Err(Refusal::OtherGrab);
        };
        match self.core.release(grab, time) {
            Ok(number) => Ok(Answer::Number(number)),
            Err((grab, refusal)) => {
                keep(&mut self.grab, grab);
                Err(refusal)
            }
        }
    }

    // Makes one call. A match, and no table of functions: each call has arguments of its own.
    #[tactic(auto, using(crate::proofs::Slices::sliced), unfolding(model::specs::Runs::step))]
    pub(super) fn perform(
        &mut self,
        clients: &mut [Client<P>],
        call: Call,
    ) -> Result<Answer, Refusal>
        requires { within (length clients.old) call ≡ true }
        ensures answer { result ≡ (step P.Part.means (world P.Part.means (shown self.old.core) clients.old) call).answer }
        ensures world { world P.Part.means (shown self.new.core) clients.new ≡ (step P.Part.means (world P.Part.means (shown self.old.core) clients.old) call).world }
    {
        match call {
            Call::Event { time, event } => self.core.event(time, event).map(Answer::Number),
            Call::Report { time } => self.core.report(time).map(Answer::Number),
            Call::Open {
                client,
                seat,
                capacity,
            } => self
                .core
                .open(&mut clients[client], seat, capacity)
                .map(Answer::Number),
            Call::Close { client } => self.core.close(&mut clients[client]).map(Answer::Number),
            Call::Grab { client } => self.grab(&clients[client]),
            Call::Release { device, seat, time } => self.release(device, seat, time),
            Call::Read { client } => self.core.read(&mut clients[client]).map(Answer::Read),
        }
    }
}

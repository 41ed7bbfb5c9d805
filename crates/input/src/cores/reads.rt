// The call that reads for a client.
ghost use Rattle.std.specs.Prelude.{◌≡◌, false, is_ok};
ghost use Rattle.model.specs.Reads.{read_call};
ghost use Rattle.input.specs.Answers.{read_answered};
ghost use Rattle.input.specs.Clients.{held};
ghost use Rattle.input.specs.Cores.{shown};

use crate::client::Client;
use crate::cores::Core;
use events::Refusal;
use model::{Phase, Read};
use parts::Part;

impl<P: Part> Core<P> {
    /// Reads for a client: one item, or one step of the way to the device's state.
    #[tactic(auto, unfolding(model::specs::Reads::read_call))]
    pub fn read(&mut self, client: &mut Client<P>) -> Result<Read, Refusal>
        ensures value { read_answered result ≡ (read_call P.Part.means (shown self.old) (held client.old)).answer }
        ensures after { shown self.new ≡ (read_call P.Part.means (shown self.old) (held client.old)).core }
        ensures left { held client.new ≡ (read_call P.Part.means (shown self.old) (held client.old)).client }
        ensures refused { is_ok result ≡ false → (self.new ≡ self.old) × (client.new ≡ client.old) }
    {
        self.admits(client)?;
        let seat = client.seat;
        let item = match client.phase {
            Phase::InStep | Phase::Lost => self.seats.take(seat),
            Phase::Due => {
                if let Some(read) = self.delay(seat) {
                    return Ok(read);
                }
                client.target = self.state;
                client.phase = Phase::CatchingUp {
                    number: self.reports,
                    time: self.time,
                };
                self.seats.clear(seat);
                None
            }
            Phase::NotOpen | Phase::CatchingUp { .. } => None,
        };
        Ok(client.answer(item))
    }
}

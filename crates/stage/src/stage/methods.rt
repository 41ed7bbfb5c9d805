ghost use Rattle.std.specs.Prelude.{◌≡◌, true, is_ok, IfErr, MatchOption};
ghost use Rattle.model.specs.Core.Holder.{nobody};
ghost use Rattle.input.specs.Cores.{shown, fresh_core};
ghost use Rattle.stage.specs.Stages.{Called, NotCalled};

use crate::stage::Stage;
use events::Refusal;
use input::{Client, Core};
use model::{Answer, Call};
use parts::Part;

impl<P: Part> Stage<P> {
    /// A core just made, and no grab out on it.
    pub fn new(device: u16) -> Stage<P>
        ensures { shown result.core ≡ fresh_core P.Part.means device }
    {
        Stage {
            core: Core::new(device),
            grab: None,
        }
    }

    /// Makes one call, in which a client is named by its place in the slice. None where it names one past the end, and nothing is done then.
    /// An `Option` around the `Result`: what the core answers, refusals among it, is kept in lists as it is, and a common error would be taken apart again for that.
    pub fn call(&mut self, clients: &mut [Client<P>], call: Call) -> Option<Result<Answer, Refusal>>
        ensures { MatchOption result (NotCalled self.old self.new clients.old clients.new call) (λ a. Called P.Part.means self.old self.new clients.old clients.new call a) }
    {
        if !call.within(clients.len()) {
            return None;
        }
        Some(self.perform(clients, call))
    }

    /// Releases the grab that is out, if one is, and lets the core go. A core over an unsound pile refuses even that: then the stage is handed back.
    #[tactic(auto, unfolding(model::specs::Calls::release_call))]
    pub fn end(self, time: u64) -> Result<(), Stage<P>>
        ensures sound { P.Part.means.sound ≡ true → is_ok result ≡ true }
        ensures free { (shown self.core).holder ≡ nobody → is_ok result ≡ true }
        ensures back { IfErr result (λ s. (s.core ≡ self.core) × (s.grab ≡ self.grab)) }
    {
        let Stage { mut core, grab } = self;
        match grab {
            None => Ok(()),
            Some(grab) => match core.release(grab, time) {
                Ok(_) => Ok(()),
                Err((grab, _)) => Err(Stage {
                    core,
                    grab: Some(grab),
                }),
            },
        }
    }
}

//! What drivers share: offering events to a core, where a refusal is passed over.
#![tactic(auto)]

ghost use Rattle.std.specs.Prelude.{◌≡◌, [], ◌∷◌};
ghost use Rattle.input.specs.Cores.{shown};
ghost use Rattle.driver.specs.Offering.{offered};

use events::Event;
use input::Core;
use parts::Part;

// Core and time are two parameters, as they are of `Core::event`. A struct of both with these functions as methods was proved too,
// and is no plainer: each function that takes it has to say besides `(new.core.ghost_name ≡ old.core.ghost_name) × (new.time ≡ old.time)`.

/// Offers one event; a refusal is passed over.
pub fn offer<P: Part>(core: &mut Core<P>, time: u64, event: Event)
    ensures { shown core.new ≡ offered P.Part.means (shown core.old) time (event ∷ []) }
{
    let _ = core.event(time, event);
}

/// Offers events, one after another; what the core refuses is passed over. Over a slice: of any iterator the
/// contract would have to ask that it ends.
pub fn offer_all<P: Part>(core: &mut Core<P>, time: u64, events: &[Event])
    ensures { shown core.new ≡ offered P.Part.means (shown core.old) time events.now }
{
    for event in events {
        offer(core, time, *event);
    }
}

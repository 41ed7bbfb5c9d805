ghost use Rattle.std.specs.Prelude.{◌≡◌, true, IfOk, vec_len};
ghost use Rattle.parts.specs.Walk.{stepped, walk, WalkLeads, Refuses};

use crate::{Part, check_sound};
use events::{Event, Failure};
use std::alloc::Global;

/// Takes the next event on the way to a target, and says which it was.
pub fn step<P: Part>(state: &mut P, target: &P) -> Option<Event>
    ensures event { result ≡ P.Part.means.next state.old target.now }
    ensures after { state.new ≡ stepped P.Part.means state.old target.now }
{
    let event = state.next(target)?;
    state.take(event);
    Some(event)
}

/// The events on the way from one state to another. Refused where the part is not sound.
pub fn route<P: Part>(heap: Global, from: &P, to: &P) -> Result<Vec<Event>, Failure>
    ensures refuses { Refuses P.Part.means result }
    ensures events { IfOk result (λ v. v.items ≡ walk P.Part.means from.now to.now) }
    ensures count { IfOk result (λ v. vec_len v ≡ P.Part.means.distance from.now to.now) }
    ensures leads { P.Part.means.sound ≡ true → WalkLeads P.Part.means }
{
    check_sound::<P>()?;
    let mut state = *from;
    let mut events = Vec::new(heap);
    while let Some(event) = step(&mut state, to) {
        events.push(event)?;
    }
    Ok(events)
}

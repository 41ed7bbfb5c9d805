ghost use Rattle.input.specs.Cores.{shown};
ghost use Rattle.stage.specs.Kept.{Kept};

use input::{Core, Grab};

mod calls;
mod methods;

/// A core, and the grab that is out on it, which is kept here for whoever holds it. It has to be ended.
pub struct Stage<P> {
    pub core: Core<P>,
    grab: Option<Grab>,
    // the grab that is kept is the one that is held
    ghost same: { Kept grab (shown core) },
}

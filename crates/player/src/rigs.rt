ghost use Rattle.std.specs.Prelude.{◌≡◌, length};

use input::Client;
use stage::Stage;

mod methods;

// One device of a recording: its core with the grab that is out on it, and a client for each of two seats.
// It has no `impl Model`: tried with a world as `Value`, where the check says "antt found no code for `Value`", since a world finds its clients by a function of their numbers;
// and of a core with a list of clients each clause would make a world, as `rig_world` does.
pub(crate) struct Rig<P> {
    pub(crate) stage: Stage<P>,
    // by seat's number, as a call names its client
    clients: [Client<P>; 2],
    ghost two: { length clients ≡ 2 },
}

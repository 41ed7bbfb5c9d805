ghost use Rattle.std.specs.Prelude.{◌≡◌, suc, ◌<◌, true, [], ◌∷◌, ◌++◌, length, replicate, string_bytes};
ghost use Rattle.model.specs.Runs.{step};
ghost use Rattle.model.specs.Replays.{within};
ghost use Rattle.model.specs.declared.Call.TheVariants.{Read as reading};
ghost use Rattle.keyboard.specs.Takes.{seen};
ghost use Rattle.ps2.specs.Takes.{take_call, take_answered};
ghost use Rattle.touch.specs.Records.{record_call};
ghost use Rattle.recording.specs.Commands.{device_number, seat_number};
ghost use Rattle.input.specs.Answers.{answered};
ghost use Rattle.lines.specs.Lines.{lines};
ghost use Rattle.desk.specs.Making.{refusal_in, takes, with_core, record_touched};
ghost use Rattle.desk.specs.Making.{made as made_calls};
ghost use Rattle.desk.specs.Texts.{lines_text};
ghost use Rattle.desk.specs.Desks.{new_world};
ghost use Rattle.player.specs.Rigs.{rig_world, reads_text, IfRead};

use crate::listing::write_answer;
use crate::rigs::Rig;
use events::{Failure, Refusal};
use input::Client;
use model::{Answer, Call};
use parts::Part;
use ps2::KeyboardDriver;
use recording::{Place, Seat};
use stage::Stage;
use touch::TouchDriver;
use words::Shown;

impl<P: Part> Rig<P> {
    // A core just made, and two clients that are not open.
    pub(crate) fn new(device: u16) -> Rig<P>
        ensures { rig_world P.Part.means result ≡ new_world P.Part.means device }
    {
        Rig {
            stage: Stage::new(device),
            clients: [Client::new(), Client::new()],
        }
    }

    // Makes a call, in which each client has its seat's number.
    fn answer(&mut self, call: Call) -> Result<Answer, Refusal>
        requires { within 2 call ≡ true }
        ensures value { result ≡ (step P.Part.means (rig_world P.Part.means self.old) call).answer }
        ensures after { rig_world P.Part.means self.new ≡ (step P.Part.means (rig_world P.Part.means self.old) call).world }
    {
        self.stage.call(&mut self.clients, call).unwrap()
    }

    // Makes a call, whatever it is answered unless it is refused.
    pub(crate) fn call(&mut self, call: Call) -> Result<(), Refusal>
        requires { within 2 call ≡ true }
        ensures value { refusal_in result ≡ (made_calls P.Part.means (rig_world P.Part.means self.old) (call ∷ [])).refusal }
        ensures after { rig_world P.Part.means self.new ≡ (made_calls P.Part.means (rig_world P.Part.means self.old) (call ∷ [])).world }
    {
        self.answer(call)?;
        Ok(())
    }

    // Makes one read for a seat. `as`, here and in `state`: a call names its client by number, and that is the seat's.
    fn read_once(&mut self, seat: Seat) -> Result<Answer, Refusal>
        ensures value { result ≡ (step P.Part.means (rig_world P.Part.means self.old) (reading (seat_number seat))).answer }
        ensures after { rig_world P.Part.means self.new ≡ (step P.Part.means (rig_world P.Part.means self.old) (reading (seat_number seat))).world }
    {
        self.answer(Call::Read {
            client: seat as usize,
        })
    }

    // The picture of a seat's client.
    #[tactic(auto, using(stage::proofs::Slices::slice_client))]
    fn state(&self, seat: Seat) -> &P
        ensures { result.now ≡ ((rig_world P.Part.means self.now).clients (seat_number seat)).state }
    {
        self.clients[seat as usize].state()
    }

    // Takes one byte of a keyboard.
    fn take(&mut self, keyboard: &mut KeyboardDriver, time: u64) -> Result<Option<u32>, Refusal>
        ensures value { take_answered result ≡ (take_call P.Part.means (rig_world P.Part.means self.old).core (seen keyboard.old.keyboard) time).answer }
        ensures after { rig_world P.Part.means self.new ≡ with_core (rig_world P.Part.means self.old) (take_call P.Part.means (rig_world P.Part.means self.old).core (seen keyboard.old.keyboard) time).core }
        ensures driver { seen keyboard.new.keyboard ≡ (take_call P.Part.means (rig_world P.Part.means self.old).core (seen keyboard.old.keyboard) time).keyboard }
    {
        keyboard.take(&mut self.stage.core, time)
    }

    // Takes until nothing is readable or a take is refused.
    pub(crate) fn drain(&mut self, keyboard: &mut KeyboardDriver, time: u64) -> Result<(), Refusal>
        ensures value { refusal_in result ≡ (takes P.Part.means (suc (length (seen keyboard.old.keyboard).waiting)) time (rig_world P.Part.means self.old) (seen keyboard.old.keyboard)).made.refusal }
        ensures after { rig_world P.Part.means self.new ≡ (takes P.Part.means (suc (length (seen keyboard.old.keyboard).waiting)) time (rig_world P.Part.means self.old) (seen keyboard.old.keyboard)).made.world }
        ensures driver { seen keyboard.new.keyboard ≡ (takes P.Part.means (suc (length (seen keyboard.old.keyboard).waiting)) time (rig_world P.Part.means self.old) (seen keyboard.old.keyboard)).keyboard }
    {
        while self.take(keyboard, time)?.is_some() {}
        Ok(())
    }

    // Hands a record to a panel's driver.
    pub(crate) fn touch(
        &mut self,
        driver: &mut TouchDriver,
        time: u64,
        bytes: &[u8],
    ) -> Result<(), Refusal>
        ensures value { refusal_in result ≡ (record_touched P.Part.means time (rig_world P.Part.means self.old) driver.old.ids bytes.now).made.refusal }
        ensures after { rig_world P.Part.means self.new ≡ (record_touched P.Part.means time (rig_world P.Part.means self.old) driver.old.ids bytes.now).made.world }
        ensures driver { driver.new.ids ≡ (record_touched P.Part.means time (rig_world P.Part.means self.old) driver.old.ids bytes.now).ids }
    {
        driver.record(&mut self.stage.core, time, bytes)?;
        Ok(())
    }

    // Lets the device go, and releases its grab first.
    pub(crate) fn end(self, time: u64)
        requires { P.Part.means.sound ≡ true }
    {
        let Rig { stage, clients: _ } = self;
        stage.end(time).unwrap();
    }
}

impl<P: Part + Shown> Rig<P> {
    // Reads for a seat, at most so many times, and writes the lines; a refusal ends it.
    pub(crate) fn read(&mut self, place: Place, count: u8, text: &mut String) -> Result<(), Failure>
        ensures value { IfRead result (λ refusal. refusal ≡ (made_calls P.Part.means (rig_world P.Part.means self.old) (replicate count (reading (seat_number place.seat)))).refusal) }
        ensures after { IfRead result (λ refusal. rig_world P.Part.means self.new ≡ (made_calls P.Part.means (rig_world P.Part.means self.old) (replicate count (reading (seat_number place.seat)))).world) }
        ensures text { IfRead result (λ refusal. string_bytes text.new ≡ string_bytes text.old ++ reads_text P.Part.means P.Shown.words (device_number place.device) (rig_world P.Part.means self.old) count (seat_number place.seat)) }
    {
        for _ in 0..count {
            let answer = self.read_once(place.seat)?;
            write_answer(text, place, self.state(place.seat), answer)?;
        }
        Ok(())
    }
}

// Event, report, open, close, grab and release. The numbers that they answer are those of the rules: 0 for an event that is the same, for no open report, and for
// open, close and release; 1 for an event that is told; else the report's.
ghost use Rattle.std.specs.Prelude.{◌≡◌, false, is_ok};
ghost use Rattle.model.specs.Calls.{event_call, report_call, open_call, close_call, grab_call, release_call};
ghost use Rattle.input.specs.Answers.{answered, grab_answered, release_answered, HandedBack};
ghost use Rattle.input.specs.Clients.{held};
ghost use Rattle.input.specs.Cores.{shown, fresh_core, fed, left_over};

use crate::client::Client;
use crate::cores::{Core, Grab};
use events::{Event, Item, Refusal};
use model::Phase;
use parts::{Part, Verdict, check_sound};
use seats::{Capacity, Leavings, SeatNumber, Seats};

impl<P: Part> Core<P> {
    /// A core just made: nothing is held, no report ended or open, no grab, every seat free.
    pub fn new(device: u16) -> Core<P>
        ensures { shown result ≡ fresh_core P.Part.means device }
    {
        Core {
            device,
            state: P::empty(),
            reports: 0,
            time: 0,
            reporting: false,
            holder: None,
            seats: Seats::new(),
        }
    }

    // Puts one item into every fed seat.
    fn feed(&mut self, item: Item)
        ensures { shown self.new ≡ fed P.Part.means item (shown self.old) }
    {
        match self.holder {
            None => self.seats.put_all(item),
            Some(seat) => self.seats.put(seat, item),
        }
    }

    /// The device offers an event.
    #[tactic(auto, unfolding(model::specs::Calls::event_call))]
    pub fn event(&mut self, time: u64, event: Event) -> Result<u32, Refusal>
        ensures value { answered result ≡ (event_call P.Part.means (shown self.old) time event).answer }
        ensures after { shown self.new ≡ (event_call P.Part.means (shown self.old) time event).core }
        ensures refused { is_ok result ≡ false → self.new ≡ self.old }
    {
        check_sound::<P>()?;
        match self.state.verdict(event) {
            Verdict::Stranger => Err(Refusal::UnknownAddress),
            Verdict::BadValue => Err(Refusal::BadValue),
            _ if self.reports == u32::MAX => Err(Refusal::ReportsSpent),
            Verdict::Same => Ok(0),
            Verdict::Passing | Verdict::Change => {
                self.state.take(event);
                self.reporting = true;
                self.feed(Item {
                    event,
                    time,
                    number: self.reports + 1,
                });
                Ok(1)
            }
        }
    }

    /// The device ends its report.
    #[tactic(auto, unfolding(model::specs::Calls::report_call))]
    pub fn report(&mut self, time: u64) -> Result<u32, Refusal>
        ensures value { answered result ≡ (report_call P.Part.means (shown self.old) time).answer }
        ensures after { shown self.new ≡ (report_call P.Part.means (shown self.old) time).core }
        ensures refused { is_ok result ≡ false → self.new ≡ self.old }
    {
        check_sound::<P>()?;
        if !self.reporting {
            return Ok(0);
        }
        let number = self.reports + 1;
        self.feed(Item::report_end(time, number));
        self.reports = number;
        self.time = time;
        self.reporting = false;
        Ok(number)
    }

    /// Opens a seat for a client, with a ring of this capacity.
    #[tactic(auto, unfolding(model::specs::Calls::open_call))]
    pub fn open(
        &mut self,
        client: &mut Client<P>,
        seat: usize,
        capacity: usize,
    ) -> Result<u32, Refusal>
        ensures value { answered result ≡ (open_call P.Part.means (shown self.old) (held client.old) seat capacity).answer }
        ensures after { shown self.new ≡ (open_call P.Part.means (shown self.old) (held client.old) seat capacity).core }
        ensures left { held client.new ≡ (open_call P.Part.means (shown self.old) (held client.old) seat capacity).client }
        ensures refused { is_ok result ≡ false → (self.new ≡ self.old) × (client.new ≡ client.old) }
    {
        check_sound::<P>()?;
        let seat = SeatNumber::try_from(seat)?;
        let capacity = Capacity::try_from(capacity)?;
        if client.is_open() {
            return Err(Refusal::ClientOpen);
        }
        if self.seats.is_open(seat) {
            return Err(Refusal::SeatOpen);
        }
        self.seats.open(seat, capacity);
        *client = Client {
            device: self.device,
            seat,
            state: P::empty(),
            target: P::empty(),
            phase: Phase::Due,
        };
        Ok(0)
    }

    /// Frees a client's seat.
    #[tactic(auto, unfolding(model::specs::Calls::close_call))]
    pub fn close(&mut self, client: &mut Client<P>) -> Result<u32, Refusal>
        ensures value { answered result ≡ (close_call P.Part.means (shown self.old) (held client.old)).answer }
        ensures after { shown self.new ≡ (close_call P.Part.means (shown self.old) (held client.old)).core }
        ensures left { held client.new ≡ (close_call P.Part.means (shown self.old) (held client.old)).client }
        ensures refused { is_ok result ≡ false → (self.new ≡ self.old) × (client.new ≡ client.old) }
    {
        self.admits(client)?;
        if self.holds(client.seat) {
            return Err(Refusal::HoldsGrab);
        }
        self.seats.close(client.seat);
        client.shut();
        Ok(0)
    }

    /// Gives a client alone what the device offers from now on.
    #[tactic(auto, unfolding(model::specs::Calls::grab_call))]
    pub fn grab(&mut self, client: &Client<P>) -> Result<Grab, Refusal>
        ensures value { grab_answered result ≡ (grab_call P.Part.means (shown self.old) (held client.now)).answer }
        ensures after { shown self.new ≡ (grab_call P.Part.means (shown self.old) (held client.now)).core }
        ensures refused { is_ok result ≡ false → self.new ≡ self.old }
    {
        self.admits(client)?;
        if self.holder.is_some() {
            return Err(Refusal::GrabHeld);
        }
        self.holder = Some(client.seat);
        Ok(Grab {
            device: self.device,
            seat: client.seat,
        })
    }

    // What the end of a grab leaves in the others' rings: a mark and a report end, or in an open report a mark alone.
    fn leavings(&self, time: u64) -> Leavings
        ensures { (result.mark, result.end) ≡ left_over self.now.reporting time self.now.reports }
    {
        if self.reporting {
            Leavings {
                mark: Item::loss_mark(time, self.reports + 1),
                end: None,
            }
        } else {
            Leavings {
                mark: Item::loss_mark(time, self.reports),
                end: Some(Item::report_end(time, self.reports)),
            }
        }
    }

    /// Ends a grab; a refused release hands it back, beside the refusal: a struct for the two would say no more.
    #[tactic(auto, unfolding(model::specs::Calls::release_call))]
    pub fn release(&mut self, grab: Grab, time: u64) -> Result<u32, (Grab, Refusal)>
        ensures value { release_answered result ≡ (release_call P.Part.means (shown self.old) grab.device grab.seat.number time).answer }
        ensures after { shown self.new ≡ (release_call P.Part.means (shown self.old) grab.device grab.seat.number time).core }
        ensures back { HandedBack grab result }
        ensures refused { is_ok result ≡ false → self.new ≡ self.old }
    {
        if let Err(refusal) = check_sound::<P>() {
            return Err((grab, refusal));
        }
        if !self.is_held(&grab) {
            return Err((grab, Refusal::OtherGrab));
        }
        let Grab { device: _, seat } = grab;
        let leavings = self.leavings(time);
        self.seats.restart_others(seat, leavings);
        self.holder = None;
        Ok(0)
    }
}

// The grounds on which calls are refused or put off.
ghost use Rattle.std.specs.Prelude.{◌≡◌, ◌&&◌, ◌==◌};
ghost use Rattle.model.specs.Core.{holds, barred};
ghost use Rattle.input.specs.Clients.{held};
ghost use Rattle.input.specs.Cores.{shown, readiness, admitted, delayed};

use crate::client::Client;
use crate::cores::{Core, Grab};
use events::Refusal;
use model::Read;
use parts::{Part, check_sound};
use seats::SeatNumber;

impl<P: Part> Core<P> {
    /// Whether a driver may start: its events and its report can have no refusal that concerns the core as a whole.
    pub fn ready(&self) -> Result<(), Refusal>
        ensures { result ≡ readiness P.Part.means (shown self.now) }
    {
        check_sound::<P>()?;
        if self.reports == u32::MAX {
            return Err(Refusal::ReportsSpent);
        }
        Ok(())
    }

    // The grounds that close, grab and read share.
    pub(super) fn admits(&self, client: &Client<P>) -> Result<(), Refusal>
        ensures { result ≡ admitted P.Part.means (shown self.now) (held client.now) }
    {
        check_sound::<P>()?;
        if !client.is_open() {
            return Err(Refusal::NotOpen);
        }
        if client.device != self.device {
            return Err(Refusal::OtherDevice);
        }
        if !self.seats.is_open(client.seat) {
            return Err(Refusal::NotOpen);
        }
        Ok(())
    }

    // Whether the grab is held by this seat.
    pub(super) fn holds(&self, seat: SeatNumber) -> bool
        ensures { result ≡ holds (shown self.now).holder seat.number }
    {
        self.holder == Some(seat)
    }

    // Whether this is the grab that is held.
    pub(super) fn is_held(&self, grab: &Grab) -> bool
        ensures { result ≡ (grab.now.device == self.now.device && holds (shown self.now).holder grab.now.seat.number) }
    {
        grab.device == self.device && self.holds(grab.seat)
    }

    // Whether the grab is held, and not by this seat.
    pub(super) fn bars(&self, seat: SeatNumber) -> bool
        ensures { result ≡ barred (shown self.now).holder seat.number }
    {
        self.holder.is_some_and(|holder| holder != seat)
    }

    // What a read that is due is answered for now, if anything.
    pub(super) fn delay(&self, seat: SeatNumber) -> Option<Read>
        ensures { result ≡ delayed (shown self.now) seat.number }
    {
        if self.reporting {
            return Some(Read::ReportOpen);
        }
        if self.bars(seat) {
            return Some(Read::Barred);
        }
        None
    }
}

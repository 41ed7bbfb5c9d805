ghost use Rattle.std.specs.Prelude.{◌≡◌};
ghost use Rattle.parts.specs.Pile.{over, goes_up};
ghost use Rattle.std.specs.Fmt.{◌++?◌};
ghost use Rattle.std.proofs.Common.{rules};

use crate::{Part, Verdict};
use events::Event;
use std::fmt;

/// Two parts as one, the upper with the smaller addresses.
#[derive(Clone, Copy, PartialEq, Eq, Debug)]
pub struct Pair<A, B> {
    pub upper: A,
    pub lower: B,
}

impl<A: Part, B: Part> Pair<A, B> {
    // Whether an event goes to the upper half: all addresses up to that half's last do.
    fn goes_up(event: Event) -> bool
        ensures { result ≡ goes_up A.Part.means event }
    {
        event.address() <= A::last()
    }
}

impl<A: Part, B: Part> Part for Pair<A, B> {
    ghost means = { over A.Part.means B.Part.means };

    ghost laws = { Prim.search rules };

    fn first() -> u32 {
        A::first()
    }

    fn last() -> u32 {
        B::last()
    }

    fn sound() -> bool {
        A::sound() && B::sound() && A::last() < B::first()
    }

    fn empty() -> Self {
        Pair {
            upper: A::empty(),
            lower: B::empty(),
        }
    }

    fn verdict(&self, event: Event) -> Verdict {
        if Self::goes_up(event) {
            self.upper.verdict(event)
        } else {
            self.lower.verdict(event)
        }
    }

    fn take(&mut self, event: Event) {
        if Self::goes_up(event) {
            self.upper.take(event)
        } else {
            self.lower.take(event)
        }
    }

    fn next(&self, target: &Self) -> Option<Event> {
        self.upper
            .next(&target.upper)
            .or_else(|| self.lower.next(&target.lower))
    }

    fn distance(&self, target: &Self) -> u64 {
        let upper = self.upper.distance(&target.upper);
        let lower = self.lower.distance(&target.lower);
        upper.saturating_add(lower)
    }
}

/// The upper half's text, and then the lower's.
impl<A: fmt::Display, B: fmt::Display> fmt::Display for Pair<A, B> {
    ghost output = { λ s. A.output s.upper ++? B.output s.lower };

    fn fmt<W: fmt::Write>(&self, f: &mut fmt::Formatter<W>) -> fmt::Result {
        let Pair { upper, lower } = self;
        write!(f, "{upper}{lower}")
    }
}

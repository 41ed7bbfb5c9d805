use crate::Lamp;
use events::Event;
use keys::Keys;
use parts::{Pair, Part};
use slots::Slots;
use std::process::Abort;

// Keys over slots over a lamp, paired either way.
type Right = Pair<Keys, Pair<Slots, Lamp>>;

type Left = Pair<Pair<Keys, Slots>, Lamp>;

// literals, since a constant calls no function
const EVENTS: [Event; 5] = [
    Event {
        kind: 1,
        code: 30,
        value: 1,
    },
    Event {
        kind: 3,
        code: 47,
        value: 3,
    },
    Event {
        kind: 3,
        code: 57,
        value: 7,
    },
    Event {
        kind: 3,
        code: 53,
        value: 5,
    },
    Event {
        kind: 17,
        code: 0,
        value: 1,
    },
];

// Takes the events, which the way from the empty state then offers in the same order.
fn check_way<P: Part>(rt: &impl Abort) {
    assert!(rt; P::sound());
    let mut target = P::empty();
    for event in &EVENTS {
        target.take(*event);
    }
    assert_eq!(rt; P::empty().distance(&target), 5);
    let mut state = P::empty();
    for event in &EVENTS {
        assert_eq!(rt; state.next(&target), Some(*event));
        state.take(*event);
    }
    assert_eq!(rt; state.next(&target), None);
}

#[test]
fn piles_three_deep(rt: HostRuntime) {
    check_way::<Right>(&rt);
    check_way::<Left>(&rt);
}

#[test]
fn piles_that_overlap(rt: HostRuntime) {
    assert!(rt; !<Pair<Slots, Keys> as Part>::sound());
    assert!(rt; !<Pair<Keys, Pair<Lamp, Slots>> as Part>::sound());
    assert!(rt; !<Pair<Pair<Slots, Lamp>, Lamp> as Part>::sound());
}

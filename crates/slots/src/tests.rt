use crate::Slots;
use events::Event;
use parts::{Part, Verdict, route};
use std::process::Abort;
use std::test::Fail;

// Slot 3 selected, with id 7 and x 5.
fn touched() -> Slots {
    let mut state = <Slots as Part>::empty();
    state.take(Event::slot(47, 3));
    state.take(Event::slot(57, 7));
    state.take(Event::slot(53, 5));
    state
}

#[test]
fn selects_then_sets(rt: HostRuntime) -> Result<(), Fail> {
    let empty = <Slots as Part>::empty();
    let target = touched();
    assert_eq!(rt; empty.distance(&target), 3);
    let Ok(events) = route(rt.alloc(), &empty, &target) else {
        return Err(Fail::new("no route"));
    };
    assert!(rt; events.len() == 3);
    assert_eq!(rt; events[0].code, 47);
    assert_eq!(rt; events[1].code, 57);
    assert_eq!(rt; events[2].code, 53);
    Ok(())
}

#[test]
fn selects_the_targets_slot_last(rt: HostRuntime) {
    let mut target = touched();
    target.take(Event::slot(47, 0));
    assert_eq!(rt; <Slots as Part>::empty().distance(&target), 4);
    assert_eq!(rt; target.finger(3), Some((5, 0)));
    assert_eq!(rt; target.finger(10), None);
}

// Checks what the empty state says to an event.
fn says(rt: &impl Abort, code: u16, value: i32, verdict: Verdict) {
    assert_eq!(rt;
        <Slots as Part>::empty().verdict(Event::slot(code, value)),
        verdict
    );
}

#[test]
fn knows_its_values(rt: HostRuntime) {
    says(&rt, 57, -2, Verdict::BadValue);
    says(&rt, 57, -1, Verdict::Same);
    says(&rt, 57, 65534, Verdict::Change);
    says(&rt, 57, 65535, Verdict::BadValue);
    says(&rt, 53, -1, Verdict::BadValue);
    says(&rt, 53, 65535, Verdict::Change);
    says(&rt, 53, 65536, Verdict::BadValue);
    says(&rt, 47, 9, Verdict::Change);
    says(&rt, 47, 10, Verdict::BadValue);
    says(&rt, 48, 0, Verdict::Stranger);
}

//! Reads two states of a touch panel with keys, one to a line, and prints the events that lead from the first to the second, numbered, and the distance.
//! A state is words with spaces between: `K31` for key 31 held, `S3:5,0` for a finger in slot 3 at x 5, y 0. An empty line is the empty state.
#![tactic(auto)]

use anyhow::anyhow;
use events::{Event, Failure};
use panel::Panel;
use parts::Part;

mod panel;

// The next line as a state, or the empty state where the input has ended.
fn read_state(rt: &HostRuntime, number: u8) -> anyhow::Result<Panel> {
    let mut line = String::new(rt.alloc());
    let _count = rt.read_line(&mut line)?;
    line.parse::<Panel>()
        .map_err(|error| anyhow!("line {number}: {error}"))
}

fn print_events(rt: &HostRuntime, events: &[Event]) -> anyhow::Result<()> {
    for (i, event) in events.iter().enumerate() {
        println!(rt; "{}: {event}", i + 1)?;
    }
    Ok(())
}

fn run(rt: &HostRuntime) -> anyhow::Result<()> {
    let Panel(from) = read_state(rt, 1)?;
    let Panel(to) = read_state(rt, 2)?;
    let distance = from.distance(&to);
    match parts::route(rt.alloc(), &from, &to) {
        Ok(events) => print_events(rt, &events)?,
        Err(Failure::Refused(refusal)) => println!(rt; "! {}", refusal.number())?,
        Err(failure @ Failure::NoMemory) => return Err(failure.into()),
    }
    println!(rt; "distance: {distance}")?;
    Ok(())
}

// Like the main of the other program: a function for both would need a crate of its own, for these lines alone.
fn main(rt: HostRuntime) -> anyhow::Result<()> {
    let outcome = run(&rt);
    if let Err(error) = &outcome {
        eprintln!(rt; "walk: {error}")?;
    }
    outcome
}

//! Reads the raw bytes of a PS/2 keyboard from standard input, and prints the key events that they offer, one to a line.
//! At the end it prints how many bytes were taken and events offered, how many bytes still wait, and which keys are held.
#![tactic(auto)]

use std::io::Read;
use transcript::Transcript;

// Reads a block at a time, so that input of any length is handled in the same memory.
fn run(rt: &HostRuntime) -> anyhow::Result<()> {
    let mut input = rt.stdin();
    let mut transcript = Transcript::new();
    // a loop needs a bound, and input has none: this one is never reached
    for _ in 0..u64::MAX {
        let mut block = [0u8; 4096];
        let count = input.read(&mut block)?;
        if count == 0 {
            break;
        }
        rt.print(transcript.feed(rt.alloc(), &block[..count])?)?;
    }
    rt.print(transcript.summary(rt.alloc())?)?;
    Ok(())
}

// Like the main of the other program: a function for both would need a crate of its own, for these lines alone.
fn main(rt: HostRuntime) -> anyhow::Result<()> {
    let outcome = run(&rt);
    if let Err(error) = &outcome {
        eprintln!(rt; "scancodes: {error}")?;
    }
    outcome
}

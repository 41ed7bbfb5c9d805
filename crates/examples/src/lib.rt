//! Worked examples of the rules, computed over the definitions; and a small part by which deep piles are tried.
#![tactic(auto)]

ghost use Rattle.std.specs.Prelude.{◌≡◌, true, length};
ghost use Rattle.examples.specs.Examples.{examples, every};

mod lamp;
#[cfg(test)]
mod tests;

pub use lamp::Lamp;

/// How many examples there are; every one of them holds.
#[tactic(auto, unfolding(codes::specs::Search::smallest, codes::specs::Search::counted, codes::specs::Search::ascending, parts::specs::Walk::steps, set2::specs::Set2::key_of))]
pub fn worked_examples() -> usize
    ensures count { result ≡ length examples }
    ensures hold { every examples ≡ true }
{
    19
}

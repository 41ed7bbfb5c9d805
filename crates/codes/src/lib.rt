//! Definitions and laws on tests of numbers and on the bits of a number: see specs/ and proofs/. No code.
#![tactic(auto)]

//! What the programs of the C profile do, and the order in which constructs run their iterations: definitions and laws.
#![tactic(auto)]

pub mod examples;
pub mod laws;

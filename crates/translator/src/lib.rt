//! The answer for a text: its translation, or why it is refused.
#![tactic(auto)]

pub mod admission;
pub mod carrying_out;
pub mod first_unbuilt;
pub mod intake;
pub mod laws;
pub mod positions;
pub mod refusal;
pub mod translate;
pub mod tree;

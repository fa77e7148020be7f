//! Loops in normal form, and what generated code does.
#![tactic(auto)]

pub mod fresh;
pub mod generated;
pub mod laws;
pub mod normal;
pub mod pieces;
pub mod ranges;
mod source_names;
pub mod statements;

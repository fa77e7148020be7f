//! The constructs of a program carried out.
#![tactic(auto)]

mod carrying;
mod entering;
mod heads;
pub mod laws;
mod plans;
pub mod rewrite;

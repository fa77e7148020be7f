//! The weight of a program, which bounds the size of its translation.
#![tactic(auto)]

pub mod capped;
pub mod copying;
pub mod directives;
pub mod expressions;
pub mod statements;
pub mod weight;

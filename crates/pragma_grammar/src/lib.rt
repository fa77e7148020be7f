//! Expressions and directives: the grammar's relation between tokens and trees, and the readers that are exact by it.
#![tactic(auto)]

pub mod blame;
pub mod directive;
mod directive_arguments;
pub mod directive_kept;
mod directive_reading;
mod directive_state;
pub mod expression;
pub mod laws;
mod open_phrase;
mod operand;
mod operators;
pub mod phrase;
mod reading;
pub mod terminal;
pub mod words;

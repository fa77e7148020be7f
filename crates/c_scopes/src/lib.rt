//! Laws of names and types: which variables a state has, where a statement is run in a scope. No code: each law stands on
//! a function that does nothing.
#![tactic(auto)]

pub mod laws;

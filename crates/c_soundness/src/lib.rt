//! Laws of programs that break no name rule. No code: each law stands on a function that does nothing.
#![tactic(auto)]

pub mod laws;

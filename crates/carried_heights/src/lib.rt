//! How high a program is whose constructs are carried out. No code: each law stands on a function that does nothing.
#![tactic(auto)]

pub mod laws;

//! Laws of counts: what the kinds of counts of a part say of the iteration trees that a construct runs. No code: each law
//! stands on a function that does nothing.
#![tactic(auto)]

pub mod laws;

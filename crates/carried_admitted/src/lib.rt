//! Which programs are carried out: those that break no rule, as far as all their directives are built. No code: the law
//! stands on a function that does nothing.
#![tactic(auto)]

pub mod laws;

//! Loop nests that directives transform: canonical loops, the loops that directives need and give, and the loop rules,
//! which say of a program whether its directives can be carried out.
#![tactic(auto)]

pub mod admitted;
mod body_depths;
pub mod canonical;
pub mod clauses;
pub mod depths;
pub mod directive_plan;
pub mod examples;
pub mod first_directive;
pub mod least;
pub mod need;
pub mod nest;
pub mod plan;
pub mod rules;
pub mod tall_height;
pub mod transformation;

//! The rules of what stands in a directive's body: the least breach of L1, L7 and L19 to L22 of a construct.
#![tactic(auto)]

pub mod bodies;
pub mod construct;
pub mod found;
pub mod members;
pub mod plans;
pub mod unwrapped;

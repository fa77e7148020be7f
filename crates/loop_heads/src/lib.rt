//! The rules of the heads of affected loops, and of what stands in their bodies.
#![tactic(auto)]

pub mod access_walk;
pub mod accessing;
pub mod assigning;
pub mod breaking;
pub mod calling;
pub mod construct;
pub mod form_rules;
pub mod functions;
pub mod name_stack;
pub mod names;
pub mod reading;

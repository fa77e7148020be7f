//! What the constructs of a program are, and the loops that a statement gives to a directive round it.
#![tactic(auto)]

pub mod affected;
pub mod constructs;
pub mod seen;
pub mod shape;
pub mod shapes;
#[cfg(test)]
mod tests;

//! Programs over numbers in place of names: the tree, how a program becomes one, and that renamed programs run alike.
#![tactic(auto)]

pub mod laws;
pub mod names;
pub mod resolve;
#[cfg(test)]
mod tests;
pub mod tree;

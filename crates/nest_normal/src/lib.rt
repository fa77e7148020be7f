//! The normal form of a nest of loops, and loops of a known count.
#![tactic(auto)]

pub mod known_count;
pub mod laws;
pub mod round;
mod spelled;
#[cfg(test)]
mod tests;
mod unread;
mod variables;

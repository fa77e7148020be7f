//! The name rules: whether a program breaks one, and which it breaks first.
#![tactic(auto)]

pub mod check;
pub mod declarations;
pub mod expressions;
pub mod items;
pub mod known;
pub mod least;
pub mod statements;

//! The lexical analysis of the C profile: bytes become tokens, whatever the pieces in which they come.
#![tactic(auto)]

mod class;
pub mod context;
mod ending;
mod held;
mod joins;
pub mod lexer;
pub mod line_map;
mod machine;
mod mode;
mod number;
mod punctuator;
pub mod token;
pub mod words;

//! The rules of a directive's clauses: the least breach of L10 to L15, L17 to L19 and L23 to L25 of a construct.
#![tactic(auto)]

pub mod apply;
pub mod arguments;
pub mod construct;
pub mod directive;
pub mod earlier;
pub mod numbers;
pub mod written;

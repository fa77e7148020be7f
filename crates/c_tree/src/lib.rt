//! The syntax tree of the C profile: the code's tree, and the bare tree that contracts speak of.
#![tactic(auto)]

pub mod arithmetic;
pub mod boxed;
pub mod checked;
pub mod constant;
pub mod copy;
pub mod height;
pub mod items;
pub mod laws;
pub mod name;
pub mod name_rule;
pub mod place;
pub mod tree;

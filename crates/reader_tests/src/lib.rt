//! Tests of trees, tokens, phrases and printed forms by the public calls of the crates that read texts.
//!
//! They stand here, since a crate with tests is proved once more for them.
#![tactic(auto)]

#[cfg(test)]
mod phrases;
#[cfg(test)]
mod printed_directives;
#[cfg(test)]
mod tokens;
#[cfg(test)]
mod trees;

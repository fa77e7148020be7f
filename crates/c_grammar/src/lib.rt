//! The grammar of programs: which tokens spell which tree, and what blame is.
#![tactic(auto)]

pub mod laws;

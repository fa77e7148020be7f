//! What the rewrites keep of the code that they are given: its loops and leaves, that it holds no directive, that no `break`
//! leaves its loops, its form, its height, and that it breaks no name rule. No code: each law stands on a function that
//! does nothing.
#![tactic(auto)]

pub mod laws;

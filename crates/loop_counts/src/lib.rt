//! What is known of how often the loops turn that directives give, and the rules of counts.
#![tactic(auto)]

pub mod construct;
pub mod defines;
pub mod evaluate;
pub mod fusing;
pub mod heads;
pub mod interchanging;
pub mod known;
pub mod moves;
pub mod part;
pub mod plan_kinds;
pub mod planned;
pub mod positions;
pub mod rules;
pub mod scope;
pub mod shapes;
pub mod splitting;
pub mod tiling;
pub mod transformed;
pub mod trip;
pub mod variables;

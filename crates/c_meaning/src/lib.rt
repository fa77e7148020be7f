//! The machine of a run: its variables, expressions, and statements without parts of their own, exactly as their meaning
//! is defined.
#![tactic(auto)]

pub mod defines;
pub mod directives;
pub mod expressions;
pub mod file_variables;
pub mod frame;
pub mod functions;
pub mod globals;
pub mod interpret;
pub mod last_items;
pub mod lines;
pub mod loops;
pub mod machine;
pub mod place_table;
pub mod run;
pub mod scope;
pub mod simple;
pub mod statements;
pub mod variable;

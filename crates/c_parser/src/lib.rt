//! The reader of programs: the automaton of the grammar over the tokens of a text, which builds the tree as it goes.
#![tactic(auto)]

mod begin;
mod beginnings;
mod bodies;
mod constants;
mod cursor;
mod declarations;
mod function_heads;
mod functions;
mod globals;
mod heads;
mod item_nodes;
mod items;
mod nodes;
mod openings;
mod owners;
mod phrases;
pub mod program;
mod simple;
mod statements;
mod terminals;
mod units;

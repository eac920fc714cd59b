//! A table with what is kept of those before it: nothing, what takes each edit back, or the table to which it goes
//! home.
//!
//! Stands on rc_table, never on rc_ast.
#![tactic(auto)]

mod board;
mod entry;
mod noting;
mod past;
mod piling;

pub use board::Board;

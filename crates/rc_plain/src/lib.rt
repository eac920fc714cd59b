//! The tree machine: it plays a match on the tree of its sheet, does its effects on the table and the open stages, and
//! keeps what is left to run as a path of places into the sheet.
//!
//! Stands on rc_menu and rc_exec, never on rc_flat.
#![tactic(auto)]

mod alone;
mod decisions;
mod effects;
mod items;
mod machine;
mod naming;
mod path;
mod site;
mod state;
mod steps;

pub use machine::PlainMachine;

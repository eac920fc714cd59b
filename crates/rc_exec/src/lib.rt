//! What the effects of code do to a board and to the open stages, and what the effects of a chosen item do.
//!
//! Stands on rc_value and rc_undo, never on rc_plain.
#![tactic(auto)]

mod blocks;
mod changes;
mod everyone;
mod items;
mod moving;
mod numbers;
mod peeking;
mod references;
mod scopes;
mod shuffling;
mod simple;

pub use blocks::{do_block, front, past};
pub use changes::EachChange;
pub use everyone::{change_all, change_of};
pub use items::do_item;
pub use simple::do_simple;

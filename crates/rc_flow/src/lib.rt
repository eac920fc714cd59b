//! What expressions read: the sight rule, by which what a choice offers depends on nothing that its mover doesn't see;
//! and which variables an expression reads.
//!
//! A location in a guard or a domain of a choice is a `vloc` or a `mem`, or an `iloc` of the mover or of the mover's
//! team; but `size` may ask for the length of any location. [`check_sight`] takes a sheet that keeps the rule, and
//! refuses another one at the first location that breaks it.
//!
//! Stands on rc_ast and rc_play_spec.
#![tactic(auto)]

mod alternatives;
mod check;
mod expressions;
mod first;
mod laws;
mod location;
mod reads;

pub use check::{Checked, Unseen, check_sight};
pub use laws::unread_variables_change_nothing;
pub use reads::{card_reads, test_reads};

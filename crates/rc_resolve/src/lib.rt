//! The names of a sheet's form, numbered by their first mention, and the decks and points of its setup.
//!
//! [`naming_of`] goes over a form whose shape is right, and gives the words of each kind in the order in which the
//! printed form mentions them first. By the numbers that attributes and values have, [`read_deck`] reads a deck tree
//! and [`read_entries`] a point map.
//!
//! Stands on rc_check and rc_ast, never on rc_play_spec.
#![tactic(auto)]

mod finish;
mod known;
mod laws;
mod naming_examples;
mod numbering;
mod numbers;
mod points_reading;
mod setup;
mod sheet_parts;
mod tree_reading;
mod uses;
mod walk;

pub use laws::names_are_in_order;
pub use naming_examples::{first_mentions, namings_of_sheets};
pub use numbering::{Naming, naming_of};
pub use numbers::Numbers;
pub use points_reading::read_entries;
pub use tree_reading::read_deck;

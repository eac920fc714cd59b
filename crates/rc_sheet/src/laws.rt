//! Laws of sheets and their forms. No function here does anything.

mod faultless;
mod limits;
mod names;
mod reading;
mod setup;

pub use faultless::a_faultless_form_has_a_sheet;
pub use limits::{
    players_and_teams_are_counted, sheet_has_words, sheet_is_shallow, sheet_is_within_limits,
    stages_and_choices_are_few,
};
pub use names::{mentions_stand, names_are_few, what_is_read_is_numbered};
pub use reading::{
    body_stands, effects_stand, expressions_stand, names_stand, setup_stands, sheet_stands,
};
pub use setup::{
    decks_are_decks, maps_are_in_turn, points_have_entries, setup_is_given, teams_are_a_partition,
    there_are_few_cards,
};

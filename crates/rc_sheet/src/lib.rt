//! The sheet of a form: [`sheet_of`] makes it, or names the first fault of the form; [`Reader`] reads its tree.
//!
//! The laws say that what is read off a form stands for it, that each form without a fault is read, as a sheet that is
//! well formed and numbered by first mentions, and that a sheet's printed text is read back.
//!
//! Stands on rc_resolve and rc_print, never on rc_play_spec.
#![tactic(auto)]

mod accepting;
mod alternatives;
mod decks;
mod effects;
mod expressions;
mod fail;
mod form_laws;
mod items;
mod laws;
mod locations;
mod made;
mod names;
mod owners;
mod players;
mod reader;
mod scope;
mod setup;
mod sheet;
mod sides;
mod variables;

pub use accepting::sheet_of;
pub use fail::Unread;
pub use form_laws::{
    a_form_has_one_sheet, a_sheet_has_its_shape, a_sheet_has_no_fault, a_sheet_has_no_second_fault,
    printed_sheet_reads_back, written_sheet_reads_back,
};
pub use laws::{
    a_faultless_form_has_a_sheet, body_stands, decks_are_decks, effects_stand, expressions_stand,
    maps_are_in_turn, mentions_stand, names_are_few, names_stand, players_and_teams_are_counted,
    points_have_entries, setup_is_given, setup_stands, sheet_has_words, sheet_is_shallow,
    sheet_is_within_limits, sheet_stands, stages_and_choices_are_few, teams_are_a_partition,
    there_are_few_cards, what_is_read_is_numbered,
};
pub use rc_check::{SheetFail, SheetFault, SheetKind};
pub use reader::Reader;

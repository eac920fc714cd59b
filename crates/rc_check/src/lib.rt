//! The faults of a sheet's form. The first round is the grammar as a table of places and forms, and finds what has not
//! its shape; the second finds what stands twice, is unknown, is of the wrong kind or is too many, and a form without
//! cards. Its definition stands whole in `specs/SecondFaults.antt`.
//!
//! Stands on rc_form and rc_sheet_spec, never on rc_ast.
#![tactic(auto)]

mod around;
mod atoms;
mod check;
mod choice;
mod faces;
mod fail;
mod fault;
mod grammar;
mod grammar_laws;
mod head;
mod keyword;
mod kinds;
mod laws;
mod names;
mod owned;
mod parts;
mod role;
mod shape;
mod sides;
mod spelling;
mod standing;
mod summary;
mod walk;
mod whole;

pub use atoms::{is_variable, is_word};
pub use check::check_semantics;
pub use choice::{is_form_word, rule_of};
pub use fail::SheetFail;
pub use fault::{SheetFault, SheetKind};
pub use grammar::{Rule, Symbol};
pub use grammar_laws::one_form_at_most;
pub use keyword::Keyword;
pub use laws::{
    attributes_again, decks, kinds_and_classes, known_cards, limits_together, lines_again,
    locations_for_cards, most_cards, most_names, most_owned, nested_parts, no_cards,
    one_walk_finds_the_first, pairs, peeked_cards, players_in_teams, sides_alike, sides_by_form,
    sides_of_other_sorts, stages_around, stages_in_stages, the_first_is_the_least,
    unbound_variables, unknown_names, variables_again, variables_of_other_sorts,
};
pub use shape::{check_shape, start_of};

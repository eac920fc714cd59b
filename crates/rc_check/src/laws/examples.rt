//! The second round of faults, computed on worked forms and parts. No function here does anything.

mod limits;
mod mixed;
mod parts;
mod setup;

pub use limits::{most_cards, most_names, most_owned};
pub use mixed::{limits_together, sides_alike, sides_by_form, stages_in_stages};
pub use parts::{
    kinds_and_classes, known_cards, locations_for_cards, nested_parts, pairs, peeked_cards,
    sides_of_other_sorts, stages_around, unbound_variables, unknown_names, variables_again,
    variables_of_other_sorts,
};
pub use setup::{attributes_again, decks, lines_again, no_cards, players_in_teams};

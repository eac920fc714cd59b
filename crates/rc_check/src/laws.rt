//! Laws of the second round of faults. No function here does anything.

mod examples;
mod first;

pub use examples::{
    attributes_again, decks, kinds_and_classes, known_cards, limits_together, lines_again,
    locations_for_cards, most_cards, most_names, most_owned, nested_parts, no_cards, pairs,
    peeked_cards, players_in_teams, sides_alike, sides_by_form, sides_of_other_sorts,
    stages_around, stages_in_stages, unbound_variables, unknown_names, variables_again,
    variables_of_other_sorts,
};
pub use first::{one_walk_finds_the_first, the_first_is_the_least};

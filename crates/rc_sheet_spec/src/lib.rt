//! The definitions of sheets that the contracts of several crates cite: sheets as trees, which form stands for which
//! sheet, and which sheets are well formed.
//!
//! Stands on rc_base, never on rc_form.
#![tactic(auto)]

mod clause_examples;
mod examples;
mod laws;
mod part_examples;
mod printing_examples;
mod sight_examples;

pub use clause_examples::{
    a_line_of_teams, depths, faulty_parts, heads_and_places, names_counted, numbers_of_names,
    own_domains, own_variable, owners_counted, owners_in_stages, ranges, seen_by_mover, words,
};
pub use examples::{
    four_cards_form, four_cards_numbered, four_cards_stands, four_cards_well_formed,
};
pub use laws::names_numbered_one_by_one;
pub use part_examples::{
    binders, cycles, decks, effects, faces, limits, lines_in_any_order, mentions, no_owners,
    no_sides, owners, partitions, parts_of_expressions, references, scopes, sides, small_limits,
    stages, teams,
};
pub use printing_examples::{four_cards_printed, printed_parts, setup_printed};
pub use sight_examples::{
    first_by_offset, in_sight, lengths, one_first_offset, out_of_sight, places,
};

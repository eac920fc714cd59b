//! House texts of whole sources, computed: the sheet is read off the form that the source's tokens spell, and played by
//! the plan behind it. And the names of sheets, numbered. No function here does anything.
//!
//! Stands on rc_play_spec and rc_sheet.
#![tactic(auto)]

mod collections;
mod cycles;
mod draws;
mod effects;
mod four_cards;
mod menus;
mod names;
mod references;
mod rollouts;
mod scores;

pub use collections::{
    first_of_ties, groups_by_first_appearance, inner_collections_are_cut, nothing_equals_nothing,
};
pub use cycles::{
    directions_turn, inner_stages_start_at_the_current_player, innermost_stage_turns,
    last_name_counts, names_keep_directions, names_pass_inner_stages, players_name_themselves,
};
pub use draws::{
    matches_of_a_range, picks_by_turn, rollouts_take_the_first_largest, shuffles_by_deal,
    shuffles_of_nothing_count,
};
pub use effects::{
    counts_are_taken_once, domains_are_taken_once, repeats_are_limited, tests_are_made_once,
};
pub use four_cards::{
    effects_read_hidden_cards, empty_menus_are_no_decisions, first_items, limit_before_a_decision,
    limit_before_any_decision, lowest_score_is_best, scripts_modulo_the_menu,
    variables_follow_their_card,
};
pub use menus::{
    first_items_of_a_large_pile, guards_are_asked_once, items_are_counted_over_alternatives,
    outer_domains_vary_slowest,
};
pub use names::{first_mentions_tell_owners, names_are_numbered_by_their_first_mention};
pub use references::{
    all_places_are_full, one_place_is_full, own_place_forgets, topmost_goes,
    variables_keep_references,
};
pub use rollouts::{
    playouts_count_picks_and_shuffles_together, playouts_pick_by_item, rollouts_add_up_rank_points,
};
pub use scores::{
    points_are_clamped_card_by_card, sums_are_clamped_once, team_sums_are_exact,
    teams_rank_together,
};

//! What expressions are worth at a table, and what a machine reads of a match and changes in it, whatever it plays on:
//! numbers, tests, cards and collections, the members of domains, the frames of open stages, scores and the counts of a
//! control.
//!
//! Stands on rc_code and rc_rules, never on rc_form or rc_undo.
#![tactic(auto)]

mod arithmetic;
mod asked;
mod atoms;
mod binding;
mod cards;
mod change;
mod collection;
mod comparing;
mod context;
mod counting;
mod current;
mod cycling;
mod expressions;
mod few;
mod frames;
mod groups;
mod hand;
mod held;
mod known;
mod leaves;
mod lookup;
mod loops;
mod members;
mod once;
mod peeking;
mod reading;
mod rows;
mod scene;
mod scope;
mod scoring;
mod shuffles;
mod sought;
mod stages;
mod starting;
mod tests;
mod wanted;

pub use arithmetic::{clamped_difference, clamped_product, clamped_sum};
pub use asked::asked_now;
pub use atoms::comparison_holds;
pub use binding::expressions_bind_few;
pub use cards::{Card, Cards};
pub use change::Change;
pub use collection::Collection;
pub use comparing::each_has;
pub use context::{Context, scene_now};
pub use counting::{count_decision, member_count, new_control};
pub use current::{Current, current_inside, current_of};
pub use cycling::{class_of, name_next, turn_round};
pub use expressions::{card_of, coll_of, int_of};
pub use few::{FewCards, few_cards_now};
pub use frames::{close_frame, open_frame, pass_frame};
pub use groups::{Values, note_values, regroup, value_at};
pub use hand::{bare, compared_at_hand, number_at_hand};
pub use held::held_among;
pub use leaves::{attr_of_id, cards_of, value_in};
pub use lookup::{loc_at, num_at, who_of};
pub use members::{Member, bare_bind_at, bind_of, member_at};
pub use once::worth_once;
pub use peeking::joined_marks;
pub use reading::{card_now, cards_now, int_now, loc_now, num_now, test_now, who_now};
pub use rows::{ids_of, top_id};
pub use scene::Scene;
pub use scope::{Bind, Bindings};
pub use scoring::{code_has_ended, has_ended, scores_now};
pub use shuffles::places;
pub use sought::{Sought, SoughtWorth, are_as_sought, is_worth};
pub use starting::{about_of, site_of};
pub use tests::{sought_of, test_of};
pub use wanted::{
    SoughtValue, are_met_in, equal_at, is_fixed_collection, is_fixed_owner, is_so, wanted_at,
};

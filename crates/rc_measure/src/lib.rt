//! Measures of the matches of a plan: how long they are, how often a choice is one, how far scores lie apart, who
//! leads. They are counted off records and written.
//!
//! Stands on rc_text, never on rc_flat or rc_plain.
#![tactic(auto)]

mod laws;
mod leads;
mod measures;
mod scores;
mod tally;
mod turns;
mod write;

pub use laws::{
    choices_add_up, leaders_have_most, measures_have_numbers, points_add_up, turns_are_in_order,
};
pub use measures::{Measures, measures_of};
pub use write::write_measures;

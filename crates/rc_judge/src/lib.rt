//! The judge of house texts: whether the matches that a text tells are plays that the sheet and the plan allow, and
//! else the first line that isn't so, and why. It plays along once.
//!
//! Stands on rc_plain and rc_text, never on rc_flat or rc_cache.
#![tactic(auto)]

mod judging;
mod legend;
mod margin;
mod naming;
mod playing;
mod rows;
mod verdict;

pub use judging::{judge, judge_and_name, judge_named};
pub use naming::bounds_of;
pub use verdict::{Named, Verdict, Why};

//! The built-in trick game: its text, the law that it is accepted, the plan by which `bench` plays it, and what `bench`
//! writes.
//!
//! Stands on rc_text and rc_sheet.
#![tactic(auto)]

mod game;
mod plan;
mod writing;

pub use game::{the_trick_game_is_accepted, trick_text};
pub use plan::bench_plan;
pub use writing::summary;

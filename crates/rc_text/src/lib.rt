//! House texts: the matches of a plan as they were played, and the standings of its strategies. They are written and
//! read.
//!
//! Stands on rc_rules, never on rc_flat or rc_plain.
#![tactic(auto)]

mod bounds;
mod copies;
mod faces;
pub mod fields;
mod house;
mod lines;
mod places;
mod ranking;
mod reading;
mod write;

pub use bounds::bounds_told;
pub use faces::legend;
pub use house::{HouseText, NamedText, write_house, write_named, write_record};
pub use ranking::{ahead, points_at, points_in, points_of, points_over, standings};
pub use rc_rules::{Bound, Bounds};
pub use reading::{TextFail, read_house, read_named};
pub use write::write_standings;

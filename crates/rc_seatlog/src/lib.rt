//! Seat logs: what a seat saw at each decision of a match. They are written and read.
//!
//! Stands on rc_text and rc_log_spec, never on rc_flat or rc_plain.
#![tactic(auto)]

mod lines;
mod places;
mod reading;
mod told;
mod views;
mod write;

pub use reading::{LogFail, read_log};
pub use told::LogText;
pub use views::{first_views_of, views_of};
pub use write::{write_first, write_log};

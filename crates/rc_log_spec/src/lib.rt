//! The definitions of seat logs: what a seat sees at each decision of a match, the lines and the bytes that tell it,
//! and what is read line by line; and laws of these. No function here does anything.
//!
//! Stands on rc_view.
#![tactic(auto)]

mod laws;

pub use laws::{
    faults_are_first, logs_are_read, logs_of_matches_are_read, logs_tell_views, records_tell_views,
    views_of_matches_count,
};

//! The matches of a plan: their records, played on the flat machine in order by any chooser, or by several workers at
//! one time over one book; what is told of all of them, and their standings. Each worker claims matches until none is
//! left. Which worker plays which match decides nothing about the records.
//!
//! Stands on rc_outside, rc_cache, rc_claims, rc_rollout, rc_match and rc_text, never on rc_plain.
#![tactic(auto)]

// in order, and what is told of all
mod laws;
mod plays;
mod records;
mod series;

// by several workers
mod claiming;
mod gathering;
mod sharing;
mod turn;
mod workers;

pub use claiming::play_claimed;
pub use laws::looks_are_rollout_picks;
pub use plays::{own_choices, series_of};
pub use records::{record_of, records_of};
pub use series::{Series, series_from};
pub use sharing::play_shared;
pub use workers::series_by_workers;

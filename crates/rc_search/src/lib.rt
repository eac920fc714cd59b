//! A strategy that searches: it looks some decisions deep into tables that are redrawn for what its seat sees.
//!
//! Stands on rc_rollout and rc_match, never on rc_plain or rc_cache.
#![tactic(auto)]

mod dealer;
mod plain;
mod playing;
mod pruned;
mod rival;
mod rooms;
mod root;
mod sides;
mod stand;
mod totals;

pub use playing::{has_two_teams, play_rival};
pub use rival::{Found, Rival, Seen};
pub use totals::{plain_totals, pruned_totals};

//! What a seat sees of a match, and the bytes by which a view is known.
//!
//! Stands on rc_rules.
#![tactic(auto)]

mod key;
mod laws;
mod sight;
mod view;

pub use key::key_bytes;
pub use laws::{fitting_controls_have_keys, keys_are_short, keys_tell_views};
pub use sight::Sight;
pub use view::{View, view_of};

//! Deals that are drawn anew for what a seat sees, what is asked of them, and the traits of what remembers the answers
//! and of what chooses by them.
//!
//! Stands on rc_view, never on rc_flat.
#![tactic(auto)]

mod asking;
mod chooser;
mod desk;
mod entry;
mod filling;
mod hidden;
mod layout;
mod marks;
mod memo;
mod need;
mod places;
mod redrawing;
mod seen;
mod tally;

pub use asking::{Ask, Key};
pub use chooser::Chooser;
pub use desk::Desk;
pub use entry::Entry;
pub use memo::{Memo, Reply};
pub use need::Need;
pub use rc_rules::About;
pub use redrawing::{Redraws, redraw};
pub use tally::Tally;

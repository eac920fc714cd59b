//! What a choice offers: the menu of its alternatives at a table, in order, with what guards ask once and for all cards
//! told apart; and what its items bind.
//!
//! Nothing here takes memory.
//!
//! Stands on rc_value, never on rc_undo or rc_flat.
#![tactic(auto)]

mod alike;
mod asks;
mod bounds;
mod filling;
mod following;
mod known;
mod menu;
mod offering;
mod parts;

pub use bounds::item_bounds;
pub use filling::{copy_menu, fill_menu_at, fill_offers_at};
pub use menu::{fill_menu, menu_of};

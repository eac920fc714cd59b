//! Games that tests play, and what watches their matches: their texts, what matches of them share, two machines side by
//! side, playouts that go back, and a memo that forgets.
//!
//! Stands on rc_plain, rc_cache, rc_rollout, rc_plan and rc_sheet.
#![tactic(auto)]

mod alike;
mod basis;
mod fickle;
mod game;
mod large;
mod observed;
mod picks;
mod returns;
mod same;
mod sheets;
mod stray;
mod texts;
mod there;

pub use alike::replay;
pub use basis::{Basis, basis_in};
pub use fickle::Fickle;
pub use game::{Game, game_in};
pub use large::largest;
pub use observed::{Observed, Observer};
pub use returns::{Playouts, Returns};
pub use same::{are_same_controls, are_same_menus, are_same_tables};
pub use sheets::{NoGame, checked_of_form};
pub use stray::Stray;
pub use texts::{DRAWS, GAME, MAGPIE, OPEN_CARD, PILES, ROWS, STAIRCASE};

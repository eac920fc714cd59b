//! Sheets of card games as trees.
//!
//! A [`Sheet`] is what a game's form says, without its spelling: each name is a number, which is the place of its
//! [`Word`] in [`Names`]. Contracts see these types as the pure trees of `rc_sheet_spec`, by `sheet_seen`, `test_seen`
//! and the like, in which no memory stands.
//!
//! Stands on rc_deck and rc_sheet_spec, never on rc_form.
#![tactic(auto)]

mod effects;
mod expressions;
mod items;
mod laws;
mod names;
mod sheet;

pub use effects::{Effect, End};
pub use expressions::{CardExpr, CollExpr, Domain, IntExpr, Loc, Num, Test, Who};
pub use items::{Alt, SheetItem};
pub use laws::cards_are_faces;
pub use names::{LocName, Names, NumName};
pub use rc_base::{Class, LocKind, Sort, Word};
pub use sheet::{Best, DeckLine, Sheet, Teams};

//! The locations of a game: what each holds, who sees it, and the numbers that the game keeps.
//!
//! A [`Shape`] says which locations and numbers there are and which face each card has. A [`Table`] is where the cards
//! are at a moment of a match. Every edit keeps a table sound: each card stands once in the locations that hold cards,
//! each `mem` has at most 512 references and all of them 1,024, numbers are within -1,000,000,000 .. 1,000,000,000, and
//! no card is marked for a seat that sees its location. None of them takes memory.
//!
//! Stands on rc_play_spec, never on rc_ast.
#![tactic(auto)]

mod by_place;
mod edits;
mod faces;
mod finding;
mod laying;
mod marks;
mod place;
mod rows;
mod runs;
mod shape;
mod sight;
mod table;
mod whereabouts;

pub use faces::{face_number, have_same_face};
pub use place::{Owner, Place};
pub use rc_base::LocKind as Kind;
pub use shape::Shape;
pub use sight::sees;
pub use table::Table;

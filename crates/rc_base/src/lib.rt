//! What texts, sheets and plays share: the definitions that the contracts of several crates cite, words and what names
//! stand for, limits, the first entry of each key, and a counter of steps that a running program doesn't see.
//!
//! Stands on no other crate.
#![tactic(auto)]

mod classes;
mod examples;
mod firsts;
pub mod limits;
mod ordered;
mod steps;
mod word;
mod words;

pub use classes::{Class, LocKind, Sort};
pub use examples::{cut_at_edges, cut_texts, literals, worths_of_faces};
pub use firsts::Firsts;
pub use ordered::OrderedWord;
pub use steps::Steps;
pub use word::{Word, is_same};
pub use words::words_in_order;

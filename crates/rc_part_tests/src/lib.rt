//! Tests of calls below the commands: readers and writers of std, decks, forms, draws and claims; machines side by
//! side, and the ways back of playouts; menus; redrawn tables, what seats see, and the bytes of views; measures; when
//! a gate is asked; and what matches remember: in a house over events, in the book that workers share, and in a memo
//! that forgets.
//!
//! Stands on rc_core, rc_measure, rc_series, rc_games and rc_trick.
#![tactic(auto)]

#[cfg(test)]
mod book;
#[cfg(test)]
mod claims;
#[cfg(test)]
mod deck;
#[cfg(test)]
mod draw;
#[cfg(test)]
mod entering;
#[cfg(test)]
mod expect;
#[cfg(test)]
mod flat;
#[cfg(test)]
mod forgetting;
#[cfg(test)]
mod form;
#[cfg(test)]
mod largest;
#[cfg(test)]
mod matches;
#[cfg(test)]
mod measures;
#[cfg(test)]
mod menus;
#[cfg(test)]
mod moves;
#[cfg(test)]
mod outside;
#[cfg(test)]
mod redraw;
#[cfg(test)]
mod stated;
#[cfg(test)]
mod turns;
#[cfg(test)]
mod twice;
#[cfg(test)]
mod view;

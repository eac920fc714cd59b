//! A whole sheet.

use crate::{IntExpr, LocName, Names, NumName, SheetItem};
use rc_deck::{DeckTree, PointMap};
use std::fmt;

/// The teams, each the list of its players.
#[derive(Drop)]
pub struct Teams {
    pub list: Vec<Vec<u8>>,
}

/// Which scores are best.
#[derive(Clone, Copy)]
pub enum Best {
    Max,
    Min,
}

/// A deck, and the location that its cards begin in.
#[derive(Drop)]
pub struct DeckLine {
    pub loc: u16,
    pub tree: DeckTree,
}

/// A game's sheet. Without teams each player is one alone.
pub struct Sheet {
    pub players: u8,
    pub teams: Option<Teams>,
    pub names: Names,
    pub decks: Vec<DeckLine>,
    pub points: Vec<PointMap>,
    pub locs: Vec<LocName>,
    pub nums: Vec<NumName>,
    pub items: Vec<SheetItem>,
    pub best: Best,
    pub score: IntExpr,
}

// A derived drop is proved again in each crate that may drop a sheet, and this one once.
impl Drop for Sheet {
    fn drop(self) {
        let Sheet {
            players: _,
            teams: _teams,
            names: _names,
            decks: _decks,
            points: _points,
            locs: _locs,
            nums: _nums,
            items: _items,
            best: _,
            score: _score,
        } = self;
    }
}

/// Only the number of players stands there: a whole sheet is printed by `rc_print`.
impl fmt::Debug for Sheet {
    fn fmt<W: fmt::Write>(&self, f: &mut fmt::Formatter<W>) -> fmt::Result {
        f.debug_struct("Sheet")
            .field("players", &self.players)
            .finish_non_exhaustive()
    }
}

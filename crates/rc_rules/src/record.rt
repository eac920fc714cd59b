//! The record of a match, and the standings.

/// A choice: the seat, the choice site, and the item out of a menu of this size.
#[derive(Clone, Copy, PartialEq, Eq, Debug)]
pub struct Pick {
    pub seat: u8,
    pub site: u8,
    pub item: u16,
    pub size: u16,
}

/// How a match ends: nothing is left to run, or the turn limit is met.
#[derive(Clone, Copy, PartialEq, Eq, Debug)]
pub enum Ended {
    Done,
    Limit,
}

/// A player's score, and the rank points for it.
#[derive(Clone, Copy, PartialEq, Eq, Debug)]
pub struct Score {
    pub player: u8,
    pub score: i64,
    pub points: u8,
}

/// A match: its number, the seeds of its shuffles and of its seats, and how it was played. Shuffles are counted modulo
/// 2^32.
#[derive(Debug, Drop)]
pub struct MatchRecord {
    pub number: u32,
    pub deal: u64,
    pub seats: u64,
    pub picks: Vec<Pick>,
    pub shuffles: u32,
    pub stop: Ended,
    pub turn: u32,
    pub scores: Vec<Score>,
}

/// A strategy's place among the strategies, and its rank points over all matches.
#[derive(Clone, Copy, PartialEq, Eq, Debug)]
pub struct Standing {
    pub place: u8,
    pub strategy: u8,
    pub points: u32,
}

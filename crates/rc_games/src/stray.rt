//! Why a match doesn't go as it is to.
use rc_deck::Memory;

/// What two machines differ in, or what keeps a match from its end.
#[derive(Clone, Copy, Debug, PartialEq, Eq)]
pub enum Stray {
    /// They stop elsewhere, or not where somebody picks.
    Stop,
    Shuffles,
    Table,
    Control,
    Menu,
    Scores,
    /// The match goes on behind the turn limit.
    Endless,
    /// There was no memory.
    Memory,
}

impl From<Memory> for Stray {
    fn from(_error: Memory) -> Stray {
        Stray::Memory
    }
}

//! Plans: who plays how, which matches are played, and for how many turns at most.
ghost use Rattle.std.specs.Prelude.{◌≡◌, IfOk};
ghost use Rattle.rc_rules.specs.Plan.{strategy_seen};

use rc_deck::Memory;
use std::alloc::Global;

/// How a seat chooses among the items of a menu.
#[derive(Debug)]
pub enum Strategy {
    /// The number for each of the seat's decisions in turn, modulo the size of the menu; behind the last number it is
    /// 0.
    Script(Vec<u16>),
    /// A pick by chance that a key of at most 18 digits decides.
    Random { key: u64 },
    /// The item that does best in so many playouts, 1 to 1,000, by a key of at most 18 digits.
    Rollout { rounds: u16, key: u64 },
}

/// A match: the seed of its shuffles and that of its seats, each of at most 18 digits.
#[derive(Clone, Copy, PartialEq, Eq, Debug)]
pub struct Deal {
    pub deal: u64,
    pub seats: u64,
}

/// A strategy for each player, one match or more, and the most turns of a match.
#[derive(Debug)]
pub struct Plan {
    pub strategies: Vec<Strategy>,
    pub matches: Vec<Deal>,
    pub turns: u32,
}

// A derived drop is proved again in each crate that may drop a plan, and these once.

impl Drop for Strategy {
    fn drop(self) {
        match self {
            Strategy::Script(_numbers) => {}
            Strategy::Random { key: _ } => {}
            Strategy::Rollout { rounds: _, key: _ } => {}
        }
    }
}

impl Drop for Plan {
    fn drop(self) {
        let Plan {
            strategies: _strategies,
            matches: _matches,
            turns: _,
        } = self;
    }
}

impl Strategy {
    /// The same strategy once more.
    pub fn copy(&self, alloc: Global) -> Result<Strategy, Memory>
        ensures { IfOk result (λ copy. strategy_seen copy ≡ strategy_seen self.now) }
    {
        match self {
            Strategy::Script(numbers) => match numbers.to_vec(alloc) {
                Ok(numbers) => Ok(Strategy::Script(numbers)),
                Err(_) => Err(Memory),
            },
            Strategy::Random { key } => Ok(Strategy::Random { key: *key }),
            Strategy::Rollout { rounds, key } => Ok(Strategy::Rollout {
                rounds: *rounds,
                key: *key,
            }),
        }
    }
}

//! Who shuffles in searches.
ghost use Rattle.std.specs.Prelude.{◌≡◌, ◌<◌};
ghost use Rattle.rc_play_spec.specs.Draws.{drawn_for, key32 as key32_of, search_redraws};
ghost use Rattle.rc_search.specs.Shuffling.{dealing_on};

use rc_draw::{Purpose, key32, put_in_order};
use rc_rules::Dealer;
use std::marker::Model;

// How many numbers there are for the shuffles of a round.
const SHUFFLES_OF_ROUND: u64 = 1 << 48;

/// A round of a search: the key of the search, its seat, the seed of the seats, and the round's number.
#[derive(Clone, Copy, Debug)]
pub(crate) struct Way {
    pub(crate) key: u64,
    pub(crate) seat: u8,
    pub(crate) seed: u64,
    pub(crate) round: u16,
}

impl Way {
    /// The key by which its table is redrawn.
    pub(crate) fn deal_key(&self) -> [u8; 32]
        ensures { result ≡ key32_of self.now.key (drawn_for self.now.seat search_redraws) self.now.seed self.now.round }
    {
        key32(
            self.key,
            Purpose::SearchRedraw.of(self.seat),
            self.seed,
            self.round as u64,
        )
    }
}

/// Shuffles on the way from the root of a round. The shuffles are counted from 0, modulo 2^48, and each has a key of
/// its own.
#[derive(Debug, Drop)]
pub(crate) struct SearchDealer {
    way: Way,
    made: u64,
}

impl Model for SearchDealer {
    ghost use Rattle.std.specs.Prelude.{◌<◌};
    ghost use Rattle.rc_search.specs.Shuffling.{Shuffling};

    ghost Value = { Shuffling };

    ghost view = { λ d. record { way = d.way; made = d.made } };

    ghost invariant = { λ d. d.made < 281474976710656 };
}

impl SearchDealer {
    /// A dealer on this way, behind so many shuffles.
    pub(crate) fn new(way: &Way, made: u64) -> SearchDealer
        requires { made < 281474976710656 }
        ensures { result ≡ record { way = way.now; made = made } }
    {
        SearchDealer { way: *way, made }
    }

    /// How many shuffles were made.
    pub(crate) fn shuffle_count(&self) -> u64
        ensures count { result ≡ self.now.made }
        ensures few { result < 281474976710656 }
    {
        self.made
    }
}

impl Dealer for SearchDealer {
    ghost dealing = { λ d. dealing_on d.way };

    ghost state = { λ d. d.made };

    fn shuffle(&mut self, list: &mut [u16]) {
        let way = &self.way;
        let number = way.round as u64 * SHUFFLES_OF_ROUND + self.made;
        put_in_order(
            way.key,
            Purpose::SearchShuffle.of(way.seat),
            way.seed,
            number,
            list,
        );
        self.made = (self.made + 1) % SHUFFLES_OF_ROUND;
    }
}

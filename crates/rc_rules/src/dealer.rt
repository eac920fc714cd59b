//! Who shuffles.
ghost use Rattle.std.specs.Prelude.{◌≡◌, ◌≤◌, ℕ, length};
ghost use Rattle.std.specs.List.Sorted.{IsPermutation};
ghost use Rattle.rc_base.specs.Numbers.{below};
ghost use Rattle.rc_base.specs.Limits.{most_cards};
ghost use Rattle.rc_play_spec.specs.Table.{taken};
ghost use Rattle.rc_play_spec.specs.Effects.{Dealing};
ghost use Rattle.rc_play_spec.specs.Keyed.{dealing_of};

use rc_draw::put_in_order;
use std::marker::Model;

/// Permutes lists. How it does so no call changes; which order the next list takes is a matter of the state in which it
/// is.
pub trait Dealer {
    ghost dealing: { Self → Dealing ℕ };

    ghost state: { Self → ℕ };

    /// Puts a list of at most 512 items into the order of the state, and goes on to the next state.
    fn shuffle(&mut self, list: &mut [u16])
        requires few { length list.old ≤ most_cards }
        ensures taken { list.new ≡ taken ((dealing self.old).order (state self.old) (length list.old)) list.old }
        ensures order { IsPermutation (below (length list.old))
            ((dealing self.old).order (state self.old) (length list.old)) }
        ensures next { state self.new ≡ (dealing self.old).next (state self.old) (length list.old) }
        ensures same { dealing self.new ≡ dealing self.old };
}

/// The dealer of a match: the j-th of its shuffles, from 0, goes by a key of the match's seed and j. It counts modulo
/// 2^32.
#[derive(Debug, Drop)]
pub struct MatchDealer {
    deal: u64,
    count: u32,
}

impl Model for MatchDealer {
    ghost use Rattle.rc_rules.specs.Dealer.{Dealt};

    ghost Value = { Dealt };

    ghost view = { λ d. record { deal = d.deal; count = d.count } };
}

impl MatchDealer {
    /// A dealer before its first shuffle.
    pub fn new(deal: u64) -> MatchDealer
        ensures { result ≡ record { deal = deal; count = 0 } }
    {
        MatchDealer { deal, count: 0 }
    }

    /// How many lists it shuffled, modulo 2^32.
    pub fn count(&self) -> u32
        ensures { result ≡ self.now.count }
    {
        self.count
    }
}

impl Dealer for MatchDealer {
    ghost dealing = { λ d. dealing_of d.deal };

    ghost state = { λ d. d.count };

    fn shuffle(&mut self, list: &mut [u16]) {
        put_in_order(self.deal, 1, u64::from(self.count), 0, list);
        self.count = self.count.wrapping_add(1);
    }
}

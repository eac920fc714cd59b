//! Collections.
ghost use Rattle.std.specs.Prelude.{◌≡◌, ◌<◌, ◌≤◌, length, map, Some, slice_index_or, option_map, IfSome};
ghost use Rattle.rc_base.specs.Limits.{most_in_collection};

use crate::Card;
use rc_base::limits::MOST_IN_COLLECTION;
use std::marker::Model;

/// Where the cards of a collection stand: in a location, whose number says that it holds references, or in a list of
/// its own.
#[derive(Clone, Copy)]
pub enum Listing<'s> {
    There { ids: &'s [u16], mem: Option<u16> },
    Built(&'s [Card]),
}

/// A collection of at most 512 cards.
#[derive(Drop)]
pub struct Collection<'s> {
    source: Listing<'s>,
}

impl<'s> Model for Collection<'s> {
    ghost use Rattle.std.specs.Prelude.{List, ◌≤◌, length};
    ghost use Rattle.rc_base.specs.Limits.{most_in_collection};
    ghost use Rattle.rc_play_spec.specs.Scene.{CardValue};

    ghost Value = { List CardValue };

    ghost use Rattle.rc_value.specs.Seen.{listed};

    ghost view = { λ c. listed c.source };

    ghost invariant = { λ c. length (listed c.source) ≤ most_in_collection };
}

impl<'s> Collection<'s> {
    ghost use Rattle.rc_play_spec.specs.Ends.{first_of, last_of};
    ghost use Rattle.rc_play_spec.specs.Scene.{id_of};
    ghost use Rattle.rc_play_spec.specs.Value.{cut};
    ghost use Rattle.rc_value.specs.Seen.{read_in};
    ghost use Rattle.rc_value.specs.Cards.{value_seen, values_seen};

    /// The cards of a location.
    pub fn there(ids: &'s [u16], mem: Option<u16>) -> Collection<'s>
        ensures { result ≡ cut (map (read_in mem) ids.now) }
    {
        let count = ids.len().min(MOST_IN_COLLECTION);
        Collection {
            source: Listing::There {
                ids: &ids[..count],
                mem,
            },
        }
    }

    /// These cards.
    pub fn of_cards(cards: &'s [Card]) -> Collection<'s>
        requires few { length cards.now ≤ most_in_collection }
        ensures { result ≡ values_seen cards.now }
    {
        Collection {
            source: Listing::Built(cards),
        }
    }

    /// The first of these cards that count.
    pub fn part(cards: &'s [Card]) -> Collection<'s>
        ensures { result ≡ cut (values_seen cards.now) }
    {
        let count = cards.len().min(MOST_IN_COLLECTION);
        Collection {
            source: Listing::Built(&cards[..count]),
        }
    }

    /// Their ids, where they stand in a location.
    #[inline(always)]
    pub fn ids(&self) -> Option<&[u16]>
        ensures ids { IfSome result (λ ids. ids.now ≡ map id_of self.now) }
        ensures few { IfSome result (λ ids. length ids.now ≤ most_in_collection) }
    {
        match &self.source {
            Listing::There { ids, mem: _ } => Some(*ids),
            Listing::Built(_) => None,
        }
    }

    /// How many there are.
    #[inline(always)]
    pub fn len(&self) -> usize
        ensures count { result ≡ length self.now }
        ensures few { result ≤ most_in_collection }
    {
        match &self.source {
            Listing::There { ids, mem: _ } => ids.len(),
            Listing::Built(cards) => cards.len(),
        }
    }

    /// The card at a place.
    #[inline(always)]
    pub fn at(&self, place: usize) -> Card
        requires { place < length self.now }
        ensures { value_seen result ≡ slice_index_or self.now place (value_seen result) }
    {
        match &self.source {
            Listing::There { ids, mem } => match *mem {
                None => Card::Held(ids[place]),
                Some(loc) => Card::Noted {
                    loc,
                    id: ids[place],
                },
            },
            Listing::Built(cards) => cards[place],
        }
    }

    /// The first.
    pub fn first(&self) -> Option<Card>
        ensures { option_map value_seen result ≡ first_of self.now }
    {
        if self.len() == 0 {
            return None;
        }
        Some(self.at(0))
    }

    /// The last.
    pub fn last(&self) -> Option<Card>
        ensures { option_map value_seen result ≡ last_of self.now }
    {
        let count = self.len();
        if count == 0 {
            return None;
        }
        Some(self.at(count - 1))
    }
}

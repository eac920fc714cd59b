//! Cards.
ghost use Rattle.std.specs.Prelude.{◌≡◌, option_map};
ghost use Rattle.rc_play_spec.specs.Scene.{id_of};
ghost use Rattle.rc_value.specs.Cards.{value_seen};

use arrayvec::ArrayVec;
use rc_base::limits::MOST_IN_COLLECTION;

/// A card, wherever it is, or a reference that was read in a location.
#[derive(Clone, Copy, PartialEq, Eq, Debug)]
pub enum Card {
    Held(u16),
    Noted { loc: u16, id: u16 },
}

impl Default for Card {
    fn default() -> Card {
        Card::Held(0)
    }
}

impl Card {
    /// The card's number, wherever it is.
    pub fn id(self) -> u16
        ensures { result ≡ id_of (value_seen self) }
    {
        match self {
            Card::Held(id) => id,
            Card::Noted { loc: _, id } => id,
        }
    }
}

/// The card's number, if there is a card.
#[inline(always)]
pub(crate) fn id_or_none(card: Option<Card>) -> Option<u16>
    ensures { result ≡ option_map id_of (option_map value_seen card) }
{
    match card {
        Some(card) => Some(card.id()),
        None => None,
    }
}

/// The cards of a collection.
pub type Cards = ArrayVec<Card, MOST_IN_COLLECTION>;

//! Cards without references.
ghost use Rattle.std.specs.Prelude.{◌≡◌, ◌≤◌, [], length};
ghost use Rattle.rc_base.specs.Limits.{most_in_collection};
ghost use Rattle.rc_value.specs.Cards.{values_seen};
ghost use Rattle.rc_value.specs.Held.{held_among};

use crate::Card;
use arrayvec::ArrayVec;
use rc_base::limits::MOST_IN_COLLECTION;

/// Writes the numbers of these cards into an empty list, but of no reference.
pub fn held_among(cards: &[Card], ids: &mut ArrayVec<u16, MOST_IN_COLLECTION>)
    requires empty { ids.old.items ≡ [] }
    requires few { length cards.now ≤ most_in_collection }
    ensures { ids.new.items ≡ held_among (values_seen cards.now) }
{
    for at in 0..cards.len() {
        match cards[at] {
            Card::Held(id) => ids.push(id),
            Card::Noted { .. } => {}
        }
    }
}

//! Guards as those of games in which a suit is followed: a card meets them that passes a test, or each card where none
//! passes it. The cards are gone through once for both.
ghost use Rattle.std.specs.Prelude.{◌≡◌, ◌<◌, ◌≤◌, ◌++◌, ◌∷◌, [], List, true, false, length, map, take};
ghost use Rattle.std.specs.Prelude.{All, IfSome, if◌then◌else◌};
ghost use Rattle.rc_base.specs.Limits.{most_items, most_in_list};
ghost use Rattle.rc_play_spec.specs.Menu.{from_each};
ghost use Rattle.rc_play_spec.specs.Scene.{CardValue, id_of};
ghost use Rattle.rc_code.specs.Guards.{IsFixedCardTest, IsFixedGuard, IsFixedPart};
ghost use Rattle.rc_rules.specs.Menu.{item_seen, menu_seen};
ghost use Rattle.rc_menu.specs.Following.{has_value_in, passes_or_none, passes_test, IsSplit};
ghost use Rattle.rc_menu.specs.Menu.{extended};
ghost use Rattle.rc_value.specs.Scene.{scene_seen};

use crate::asks::{SoughtCard, ask_in};
use crate::offering::{offer_count, offer_having};
use crate::parts::wanted_by;
use rc_code::{CardTest, Guard, GuardPart, GuardTest};
use rc_rules::{Item, Items};
use rc_value::{Bindings, Scene};

/// The parts of a guard that are asked first, and then the test that a card is to pass where some card does.
#[derive(Clone, Copy)]
pub(crate) struct Split<'g> {
    pub(crate) parts: &'g [GuardPart],
    pub(crate) then: Option<&'g CardTest>,
}

/// The parts of a guard, without the last two where these say that a card passes a test, or that none does.
#[inline(always)]
pub(crate) fn split_of(guard: &Guard) -> Split<'_>
    requires fixed { IsFixedGuard guard.now }
    ensures split { IsSplit guard.now result }
    ensures parts { All IsFixedPart result.parts.now }
    ensures then { IfSome result.then (λ card_test. IsFixedCardTest card_test.now) }
    ensures few { length result.parts.now ≤ 4 }
{
    let parts = guard.parts.as_slice();
    let follows = guard.follows;
    if !follows {
        return Split { parts, then: None };
    }
    let Some((_, rest)) = parts.split_last() else {
        unreachable!();
    };
    let Some((one, before)) = rest.split_last() else {
        unreachable!();
    };
    match &one.guard_test {
        GuardTest::OfCard(card_test) => Split {
            parts: before,
            then: Some(card_test),
        },
        _ => unreachable!(),
    }
}

// Offers those that have this value, or all where none has it.
#[inline(always)]
fn offer_or_all(row: &[Option<u16>], value: u16, ids: &[u16], item: &Item, menu: &mut Items)
    requires few { length ids.now ≤ most_in_list }
    requires room { length item.now.spots.items < 4 }
    requires free { length menu.old.items < most_items }
    ensures { menu_seen menu.new.items ≡ take most_items (menu_seen menu.old.items
        ++ map (extended (item_seen item.now)) (from_each
        (λ id. if passes_or_none (has_value_in row.now value) ids.now id then [] ∷ [] else []) 0 ids.now)) }
{
    let before = menu.len();
    offer_having(row, value, ids, item, menu);
    if menu.len() == before {
        offer_count(ids.len(), item, menu);
    }
}

/// Offers those of the cards with these ids that pass a test, or all where none passes it. Where no value is asked, it
/// offers nothing, and says so.
#[inline(always)]
pub(crate) fn offer_passing(
    scene: &Scene,
    scope: &Bindings,
    card_test: &CardTest,
    ids: &[u16],
    item: &Item,
    menu: &mut Items,
) -> bool
    requires outside { scope.now ≡ [] }
    requires fixed { IsFixedCardTest card_test.now }
    requires few { length ids.now ≤ most_in_list }
    requires room { length item.now.spots.items < 4 }
    requires free { length menu.old.items < most_items }
    ensures done { result ≡ true → (cards : List CardValue) → ids.now ≡ map id_of cards
        → menu_seen menu.new.items ≡ take most_items (menu_seen menu.old.items
        ++ map (extended (item_seen item.now)) (from_each
        (λ c. if passes_or_none (passes_test (scene_seen scene.now) card_test.now) cards c then [] ∷ [] else []) 0
        cards)) }
    ensures left { result ≡ false → menu.new.items ≡ menu.old.items }
{
    let wanted = wanted_by(scene, scope, card_test);
    match scene.lookup.values(wanted.name) {
        Some(row) => match ask_in(row, wanted) {
            SoughtCard::Value { value, row } => {
                offer_or_all(row, value, ids, item, menu);
                true
            }
            _ => false,
        },
        None => false,
    }
}

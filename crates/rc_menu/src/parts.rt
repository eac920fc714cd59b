//! Guards of the cards of a location that are known in parts. Nothing of them hangs on a variable but values of the
//! card itself, so each part is asked once, with no walk over a tree, outside all binders.
ghost use Rattle.std.specs.Prelude.{◌≡◌, ℕ, ◌+◌, ◌<◌, ◌≤◌, [], true, length, map, All, IfSome, if◌then◌else◌};
ghost use Rattle.std.specs.List.{list_all};
ghost use Rattle.rc_sheet_spec.specs.Sheet.{Test as PureTest, cards_in, has_value, top_card};
ghost use Rattle.rc_play_spec.specs.Scene.{CardValue};
ghost use Rattle.rc_play_spec.specs.Value.{test_value};
ghost use Rattle.rc_ast.specs.Names.{loc_seen};
ghost use Rattle.rc_code.specs.Guards.{in_sense, part_meant, guard_test_meant, card_test_meant, IsFixedPart, IsFixedGuardTest, IsFixedCardTest};
ghost use Rattle.rc_menu.specs.Asks.{ask_value, asks_value, joined, one_suffices, parts_told, IsJoined};
ghost use Rattle.rc_menu.specs.Known.{IsAtHand, IsTurned};
ghost use Rattle.rc_value.specs.Scene.{scene_seen};
ghost use Rattle.rc_value.specs.Wanted.{IsWantedAt};

use crate::asks::{Asks, ask_in};
use crate::known::{AtHand, are_there, turned_if, turned_wanted};
use rc_ast::Loc;
use rc_code::{CardTest, GuardPart, GuardTest, Joint, Sense};
use rc_value::{Bindings, Scene, SoughtValue, attr_of_id, comparison_holds, top_id};

// The value that a card is to have.
#[inline(always)]
pub(crate) fn wanted_by(scene: &Scene, scope: &Bindings, card_test: &CardTest) -> SoughtValue
    requires { IsFixedCardTest card_test.now }
    ensures { (place : ℕ) → IsWantedAt (scene_seen scene.now) place (card_test_meant place card_test.now) result }
{
    match card_test {
        CardTest::Value { name, value } => SoughtValue {
            name: *name,
            value: Some(*value),
            equal: true,
        },
        CardTest::Against {
            name,
            against,
            other,
        } => SoughtValue {
            name: *name,
            value: attr_of_id(scene, top_id(scene, scope, against), *other),
            equal: true,
        },
    }
}

// Whether the top card of a location has a value.
#[inline(always)]
fn top_has(scene: &Scene, scope: &Bindings, at: &Loc, name: u16, value: u16) -> bool
    ensures { result ≡ test_value (scene_seen scene.now) scope.now
        (has_value (top_card (cards_in (loc_seen at.now))) name value) }
{
    attr_of_id(scene, top_id(scene, scope, at), name) == Some(value)
}

// What is at hand of a test of a guard.
#[inline(always)]
fn guard_test_at_hand(scene: &Scene, scope: &Bindings, guard_test: &GuardTest) -> AtHand
    requires outside { scope.now ≡ [] }
    requires fixed { IsFixedGuardTest guard_test.now }
    ensures { IsAtHand (scene_seen scene.now) scope.now (guard_test_meant guard_test.now) result }
{
    match guard_test {
        GuardTest::Known(comparison) => AtHand::Holds(comparison_holds(scene, scope, comparison)),
        GuardTest::OfCard(card_test) => AtHand::OfCard(wanted_by(scene, scope, card_test)),
        GuardTest::Top { at, name, value } => {
            AtHand::Holds(top_has(scene, scope, at, *name, *value))
        }
        GuardTest::Among {
            any,
            among,
            bound: _,
            sense,
            card_test,
        } => {
            let plain = wanted_by(scene, scope, card_test);
            let wanted = turned_wanted(is_opposite(*sense), plain);
            AtHand::Holds(are_there(scene, scope, among, wanted, *any))
        }
    }
}

#[inline(always)]
fn is_opposite(sense: Sense) -> bool
    ensures { (t : PureTest) → IsTurned result t (in_sense sense t) }
{
    match sense {
        Sense::Plain => false,
        Sense::Ne => true,
        Sense::Not => true,
    }
}

// What is at hand of a part.
#[inline(always)]
fn part_at_hand(scene: &Scene, scope: &Bindings, part: &GuardPart) -> AtHand
    requires outside { scope.now ≡ [] }
    requires fixed { IsFixedPart part.now }
    ensures { IsAtHand (scene_seen scene.now) scope.now (part_meant part.now) result }
{
    let hand = guard_test_at_hand(scene, scope, &part.guard_test);
    turned_if(is_opposite(part.sense), hand)
}

// Joins a part to what is asked, where there is a row of values for it: whether it settles all.
#[inline(always)]
fn part_settles<'t>(
    scene: &'t Scene,
    scope: &Bindings,
    part: &GuardPart,
    any: bool,
    asks: &mut Asks<'t>,
) -> Option<bool>
    requires outside { scope.now ≡ [] }
    requires fixed { IsFixedPart part.now }
    requires room { length asks.old.items < 4 }
    requires sought { list_all asks_value asks.old.items ≡ true }
    ensures joined { IfSome result (λ settled. IsJoined (scene_seen scene.now) scope.now
        (part_meant part.now) any settled asks.old.items asks.new.items) }
    ensures count { length asks.new.items ≤ length asks.old.items + 1 }
    ensures sought { list_all asks_value asks.new.items ≡ true }
{
    match part_at_hand(scene, scope, part) {
        AtHand::OfCard(wanted) => match scene.lookup.values(wanted.name) {
            Some(row) => {
                asks.push(ask_in(row, wanted));
                Some(false)
            }
            None => None,
        },
        AtHand::Holds(holds) => Some(holds == any),
        AtHand::Unclear => None,
    }
}

// The same with all parts.
#[inline(always)]
pub(crate) fn parts_settle<'t>(
    scene: &'t Scene,
    scope: &Bindings,
    parts: &[GuardPart],
    any: bool,
    asks: &mut Asks<'t>,
) -> Option<bool>
    requires outside { scope.now ≡ [] }
    requires fixed { All IsFixedPart parts.now }
    requires few { length parts.now ≤ 4 }
    requires empty { asks.old.items ≡ [] }
    ensures joined { IfSome result (λ settled. (c : CardValue)
        → joined any (parts_told (scene_seen scene.now) scope.now parts.now c)
        ≡ (if settled then any else joined any (map (ask_value (scene_seen scene.now) scope.now c) asks.new.items))) }
    ensures sought { list_all asks_value asks.new.items ≡ true }
{
    for place in 0..parts.len() {
        match part_settles(scene, scope, &parts[place], any, asks) {
            Some(settled) => {
                if settled {
                    return Some(true);
                }
            }
            None => return None,
        }
    }
    Some(false)
}

// Whether one part is enough.
#[inline(always)]
pub(crate) fn is_one_enough(joint: Joint) -> bool
    ensures { result ≡ one_suffices joint }
{
    match joint {
        Joint::Any => true,
        _ => false,
    }
}

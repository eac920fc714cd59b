//! What is at hand: numbers, values and tests that are read off the table with no list, and with no other test inside
//! them. Most of what a game asks is so. These functions stand in line where they are called, and what isn't at hand is
//! left to others.
ghost use Rattle.std.specs.Prelude.{◌≡◌, true, MatchOption, IfSome, option_map, map, length, pos, Some};
ghost use Rattle.rc_play_spec.specs.Ends.{last_of};
ghost use Rattle.rc_play_spec.specs.Scene.{id_of};
ghost use Rattle.rc_play_spec.specs.Value.{attr_of_any, both, card_bound, members, nat_same, worth_of_any, card_value, coll_value, int_value, test_value};
ghost use Rattle.rc_ast.specs.Expressions.{card_seen, coll_seen, domain_seen, int_seen, test_seen};
ghost use Rattle.rc_value.specs.Comparing.{compare};
ghost use Rattle.rc_value.specs.Picks.{is_gathered};
ghost use Rattle.rc_value.specs.Scene.{scene_seen};

use crate::collection::Collection;
use crate::comparing::compare;
use crate::leaves::{attr_of_id, cards_of, number_of, worth_of_id};
use crate::rows::{ids_of, top_id};
use crate::scene::Scene;
use crate::scope::Bindings;
use rc_ast::{CardExpr, CollExpr, Domain, IntExpr, Test};
use rc_code::Comparator;

/// The cards of a location or of a variable, which need no list of their own. None for another expression.
#[inline(always)]
pub fn bare<'a>(scene: &'a Scene, scope: &'a Bindings, expr: &CollExpr) -> Option<Collection<'a>>
    ensures { MatchOption result (is_gathered (coll_seen expr.now) ≡ true)
        (λ cards. cards ≡ coll_value (scene_seen scene.now) scope.now (coll_seen expr.now)) }
{
    match expr {
        CollExpr::Var(var) => Some(scope.group(*var)),
        CollExpr::Loc(loc) => Some(cards_of(scene, scope, loc)),
        CollExpr::Filter(_, _, _) => None,
        CollExpr::Union(_) => None,
        CollExpr::Known(_) => None,
    }
}

/// The members of a domain of such cards. None for another domain.
#[inline(always)]
pub(crate) fn bare_members<'a>(
    scene: &'a Scene,
    scope: &'a Bindings,
    domain: &Domain,
) -> Option<Collection<'a>>
    ensures { IfSome result (λ cards. map (λ c. card_bound c) cards
        ≡ members (scene_seen scene.now) scope.now (domain_seen domain.now)) }
{
    match domain {
        Domain::Coll(cards) => bare(scene, scope, cards),
        _ => None,
    }
}

/// The number that an expression stands for, if it is at hand.
#[inline(always)]
pub fn number_at_hand(scene: &Scene, scope: &Bindings, expr: &IntExpr) -> Option<i64>
    ensures { IfSome result (λ n. n ≡ int_value (scene_seen scene.now) scope.now (int_seen expr.now)) }
{
    match expr {
        IntExpr::Lit(value) => Some(*value),
        IntExpr::Num(num) => Some(number_of(scene, scope, num)),
        IntExpr::Size(cards) => size_at_hand(scene, scope, cards),
        IntExpr::Points(card, map) => points_at_hand(scene, scope, card, *map),
        _ => None,
    }
}

// The same of the second of two numbers. But for a literal it takes a call, as both are too long to stand in line.
#[inline(always)]
fn second_at_hand(scene: &Scene, scope: &Bindings, expr: &IntExpr) -> Option<i64>
    ensures { IfSome result (λ n. n ≡ int_value (scene_seen scene.now) scope.now (int_seen expr.now)) }
{
    match expr {
        IntExpr::Lit(value) => Some(*value),
        _ => number_by_call(scene, scope, expr),
    }
}

// The same by a call.
#[inline(never)]
fn number_by_call(scene: &Scene, scope: &Bindings, expr: &IntExpr) -> Option<i64>
    ensures { IfSome result (λ n. n ≡ int_value (scene_seen scene.now) scope.now (int_seen expr.now)) }
{
    number_at_hand(scene, scope, expr)
}

// How many cards a location has.
#[inline(always)]
fn size_at_hand(scene: &Scene, scope: &Bindings, expr: &CollExpr) -> Option<i64>
    ensures { IfSome result (λ n. n ≡ pos (length (coll_value (scene_seen scene.now) scope.now (coll_seen expr.now)))) }
{
    match expr {
        CollExpr::Loc(loc) => Some(ids_of(scene, scope, loc).len() as i64),
        _ => None,
    }
}

// What a card is worth.
#[inline(always)]
fn points_at_hand(scene: &Scene, scope: &Bindings, expr: &CardExpr, map: u16) -> Option<i64>
    ensures { IfSome result (λ n. n ≡ worth_of_any (scene_seen scene.now) map
        (card_value (scene_seen scene.now) scope.now (card_seen expr.now))) }
{
    match id_at_hand(scene, scope, expr) {
        Some(id) => Some(worth_of_id(scene, id, map)),
        None => None,
    }
}

/// The id of a variable's card, or of the card at the top of a location; there may be none.
#[inline(always)]
fn id_at_hand(scene: &Scene, scope: &Bindings, expr: &CardExpr) -> Option<Option<u16>>
    ensures { IfSome result (λ id. id
        ≡ option_map id_of (card_value (scene_seen scene.now) scope.now (card_seen expr.now))) }
{
    match expr {
        CardExpr::Var(var) => Some(scope.id(*var)),
        CardExpr::Top(cards) => id_on_top(scene, scope, cards),
        _ => None,
    }
}

#[inline(always)]
fn id_on_top(scene: &Scene, scope: &Bindings, expr: &CollExpr) -> Option<Option<u16>>
    ensures { IfSome result (λ id. id
        ≡ option_map id_of (last_of (coll_value (scene_seen scene.now) scope.now (coll_seen expr.now)))) }
{
    match expr {
        CollExpr::Loc(loc) => Some(top_id(scene, scope, loc)),
        _ => None,
    }
}

/// The value of a card, if the card is at hand.
#[inline(always)]
pub(crate) fn value_at_hand(
    scene: &Scene,
    scope: &Bindings,
    expr: &CardExpr,
    name: u16,
) -> Option<Option<u16>>
    ensures { IfSome result (λ v. v ≡ attr_of_any (scene_seen scene.now) name
        (card_value (scene_seen scene.now) scope.now (card_seen expr.now))) }
{
    match id_at_hand(scene, scope, expr) {
        Some(id) => Some(attr_of_id(scene, id, name)),
        None => None,
    }
}

/// Whether two numbers compare so, if they are at hand.
#[inline(always)]
pub fn compared_at_hand(
    scene: &Scene,
    scope: &Bindings,
    a: &IntExpr,
    how: Comparator,
    b: &IntExpr,
) -> Option<bool>
    ensures { IfSome result (λ is. is
        ≡ compare how (int_value (scene_seen scene.now) scope.now (int_seen a.now))
        (int_value (scene_seen scene.now) scope.now (int_seen b.now))) }
{
    match number_at_hand(scene, scope, a) {
        Some(one) => match second_at_hand(scene, scope, b) {
            Some(other) => Some(compare(how, one, other)),
            None => None,
        },
        None => None,
    }
}

#[inline(always)]
fn same_value_at_hand(
    scene: &Scene,
    scope: &Bindings,
    a: &CardExpr,
    name: u16,
    b: &CardExpr,
    other: u16,
) -> Option<bool>
    ensures { IfSome result (λ is. is
        ≡ both nat_same (attr_of_any (scene_seen scene.now) name
        (card_value (scene_seen scene.now) scope.now (card_seen a.now)))
        (attr_of_any (scene_seen scene.now) other (card_value (scene_seen scene.now) scope.now (card_seen b.now)))) }
{
    match value_at_hand(scene, scope, a, name) {
        Some(one) => match value_at_hand(scene, scope, b, other) {
            Some(two) => Some(one == two),
            None => None,
        },
        None => None,
    }
}

#[inline(always)]
fn has_value_at_hand(
    scene: &Scene,
    scope: &Bindings,
    card: &CardExpr,
    name: u16,
    value: u16,
) -> Option<bool>
    ensures { IfSome result (λ is. is
        ≡ both nat_same (attr_of_any (scene_seen scene.now) name
        (card_value (scene_seen scene.now) scope.now (card_seen card.now))) (Some value)) }
{
    match value_at_hand(scene, scope, card, name) {
        Some(has) => Some(has == Some(value)),
        None => None,
    }
}

/// Whether a test holds, if that is at hand.
#[inline(always)]
pub(crate) fn test_at_hand(scene: &Scene, scope: &Bindings, expr: &Test) -> Option<bool>
    ensures { IfSome result (λ is. is ≡ test_value (scene_seen scene.now) scope.now (test_seen expr.now)) }
{
    match expr {
        Test::EqInt(a, b) => compared_at_hand(scene, scope, a, Comparator::Equal, b),
        Test::Less(a, b) => compared_at_hand(scene, scope, a, Comparator::Less, b),
        Test::LessEq(a, b) => compared_at_hand(scene, scope, a, Comparator::AtMost, b),
        Test::More(a, b) => compared_at_hand(scene, scope, a, Comparator::More, b),
        Test::MoreEq(a, b) => compared_at_hand(scene, scope, a, Comparator::AtLeast, b),
        Test::EqAttr(a, name, b, other) => same_value_at_hand(scene, scope, a, *name, b, *other),
        Test::Is(card, name, value) => has_value_at_hand(scene, scope, card, *name, *value),
        _ => None,
    }
}

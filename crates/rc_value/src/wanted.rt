//! Values that cards are to have.
ghost use Rattle.std.specs.Prelude.{◌≡◌, ◌+◌, ◌<◌, ◌≤◌, true, false, length, filter, option_map, slice_index_or, None, IfSome, if◌then◌else◌};
ghost use mathlib.Core.Bool.{beq};
ghost use Rattle.rc_base.specs.Limits.{most_in_collection, most_in_list};
ghost use Rattle.rc_sheet_spec.specs.Sheet.{card_var};
ghost use Rattle.rc_ast.specs.Names.{who_seen};
ghost use Rattle.rc_ast.specs.Expressions.{card_seen, coll_seen, test_seen};
ghost use Rattle.rc_flow.specs.Reads.{reads_card};
ghost use Rattle.rc_value.specs.Cards.{value_seen};
ghost use Rattle.rc_value.specs.Over.{over};
ghost use Rattle.rc_value.specs.Scene.{scene_seen};
ghost use Rattle.rc_value.specs.Wanted.{compares, meets, wanted_value, turned};
ghost use Rattle.rc_value.specs.Wanted.{IsFixed, IsFixedCollection, IsFixedOwner, IsWantedAt};

use crate::Card;
use crate::hand::value_at_hand;
use crate::leaves::{attr_of, value_in};
use crate::scene::Scene;
use crate::scope::Bindings;
use rc_ast::{CardExpr, CollExpr, Test, Who};
use rc_flow::card_reads;

/// A value for an attribute that a card is to have, or not to have.
#[derive(Clone, Copy)]
pub struct SoughtValue {
    pub name: u16,
    pub value: Option<u16>,
    pub equal: bool,
}

/// Whether a value is the one that is wanted, or isn't.
#[inline(always)]
pub fn is_so(equal: bool, wanted: Option<u16>, value: Option<u16>) -> bool
    ensures { result ≡ compares equal wanted value }
{
    if equal {
        value == wanted
    } else {
        value != wanted
    }
}

// Whether a value is as it is wanted.
#[inline(always)]
fn is_met(wanted: SoughtValue, value: Option<u16>) -> bool
    ensures { result ≡ meets wanted value }
{
    is_so(wanted.equal, wanted.value, value)
}

/// Whether a card is as it is wanted.
#[inline(always)]
pub(crate) fn is_as_wanted(scene: &Scene, wanted: SoughtValue, card: Card) -> bool
    ensures { result ≡ wanted_value (scene_seen scene.now) wanted (value_seen card) }
{
    is_met(wanted, attr_of(scene, Some(card), wanted.name))
}

/// Whether the card with this id is so, by the row of the attribute's values.
#[inline(always)]
pub(crate) fn is_met_in(row: &[Option<u16>], wanted: SoughtValue, id: u16) -> bool
    ensures { result ≡ meets wanted (slice_index_or row.now id None) }
{
    is_met(wanted, value_in(row, id))
}

/// Whether one of the cards with these ids is so, or all of them, by the row of the attribute's values.
#[inline(always)]
pub fn are_met_in(row: &[Option<u16>], wanted: SoughtValue, ids: &[u16], any: bool) -> bool
    ensures { result ≡ over any (λ id. meets wanted (slice_index_or row.now id None)) ids.now }
{
    for place in 0..ids.len() {
        if settles(row, wanted, ids[place], any) {
            return any;
        }
    }
    !any
}

// Whether the card with this id settles it: it is so, where one is enough, or isn't, where all are to be.
#[inline(always)]
fn settles(row: &[Option<u16>], wanted: SoughtValue, id: u16, any: bool) -> bool
    ensures { result ≡ beq (meets wanted (slice_index_or row.now id None)) any }
{
    is_so(wanted.equal == any, wanted.value, value_in(row, id))
}

/// How many of the cards with these ids are so, by the row of the attribute's values.
#[inline(always)]
pub(crate) fn count_met_in(row: &[Option<u16>], wanted: SoughtValue, ids: &[u16]) -> usize
    requires few { length ids.now ≤ most_in_collection }
    ensures count { result ≡ length (filter (λ id. meets wanted (slice_index_or row.now id None)) ids.now) }
    ensures few { result ≤ most_in_list }
{
    let mut count = 0;
    for place in 0..ids.len() {
        count = count_if(count, is_met_in(row, wanted, ids[place]));
    }
    count
}

/// One more, where it passes.
#[inline(always)]
pub(crate) fn count_if(count: usize, passes: bool) -> usize
    requires { count < most_in_list }
    ensures { result ≡ (if passes then count + 1 else count) }
{
    if passes { count + 1 } else { count }
}

/// Whether an expression for a card is this variable.
#[inline(always)]
pub(crate) fn is_variable(expr: &CardExpr, place: usize) -> bool
    ensures { result ≡ true → card_seen expr.now ≡ card_var place }
{
    match expr {
        CardExpr::Var(var) => *var as usize == place,
        _ => false,
    }
}

/// Whether one expression is this variable, and the other doesn't read it.
pub(crate) fn is_against(expr: &CardExpr, other: &CardExpr, place: usize) -> bool
    ensures variable { result ≡ true → card_seen expr.now ≡ card_var place }
    ensures unread { result ≡ true → reads_card place (card_seen other.now) ≡ false }
{
    is_variable(expr, place) && !card_reads(other, place)
}

/// The opposite of what is wanted.
#[inline(always)]
pub(crate) fn opposite_of(wanted: Option<SoughtValue>) -> Option<SoughtValue>
    ensures { result ≡ option_map turned wanted }
{
    match wanted {
        Some(wanted) => Some(SoughtValue {
            name: wanted.name,
            value: wanted.value,
            equal: !wanted.equal,
        }),
        None => None,
    }
}

/// Whether an owner is the same whatever variables stand for.
#[inline(always)]
pub fn is_fixed_owner(who: Who) -> bool
    ensures { result ≡ true → IsFixedOwner (who_seen who) }
{
    match who {
        Who::Game => true,
        Who::CurrentPlayer => true,
        Who::CurrentTeam => true,
        Who::TeamOfCurrent => true,
        _ => false,
    }
}

/// Whether a collection is a location that no variable owns.
#[inline(always)]
pub fn is_fixed_collection(expr: &CollExpr) -> bool
    ensures { result ≡ true → IsFixedCollection (coll_seen expr.now) }
{
    match expr {
        CollExpr::Loc(loc) => is_fixed_owner(loc.who),
        _ => false,
    }
}

// Whether a card is the top of a location that no variable owns: it is the same whatever variables stand for.
#[inline(always)]
fn is_fixed(expr: &CardExpr) -> bool
    ensures { result ≡ true → IsFixed (card_seen expr.now) }
{
    match expr {
        CardExpr::Top(cards) => is_fixed_collection(cards),
        _ => false,
    }
}

/// A test of the card of the variable at a place as a value that the card is to have, in any scope that ends before it,
/// where that is at hand: a value that the sheet names, or that of the card at the top of a location that no variable
/// owns.
#[inline(always)]
pub fn wanted_at(scene: &Scene, scope: &Bindings, place: usize, test: &Test) -> Option<SoughtValue>
    ensures { IfSome result (IsWantedAt (scene_seen scene.now) place (test_seen test.now)) }
{
    match test {
        Test::Ne(inner) => opposite_of(equal_at(scene, scope, place, inner)),
        Test::Not(inner) => opposite_of(equal_at(scene, scope, place, inner)),
        _ => equal_at(scene, scope, place, test),
    }
}

/// The same, but for opposites.
#[inline(always)]
pub fn equal_at(scene: &Scene, scope: &Bindings, place: usize, test: &Test) -> Option<SoughtValue>
    ensures { IfSome result (IsWantedAt (scene_seen scene.now) place (test_seen test.now)) }
{
    match test {
        Test::EqAttr(a, name, b, other) => {
            if is_variable(a, place) && is_fixed(b) {
                return equal_to(*name, value_at_hand(scene, scope, b, *other));
            }
            None
        }
        Test::Is(card, name, value) => {
            if is_variable(card, place) {
                return equal_to(*name, Some(Some(*value)));
            }
            None
        }
        _ => None,
    }
}

// The value that an attribute is to have, if it is known.
#[inline(always)]
fn equal_to(name: u16, value: Option<Option<u16>>) -> Option<SoughtValue>
    ensures { result ≡ option_map (λ v. record { name = name; value = v; equal = true }) value }
{
    match value {
        Some(value) => Some(SoughtValue {
            name,
            value,
            equal: true,
        }),
        None => None,
    }
}

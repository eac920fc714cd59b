//! What a test asks of the cards that its innermost variable runs over, where that is at hand: all else that the test
//! reads is read once for all of them, with no list and with no other test.
ghost use Rattle.std.specs.Prelude.{◌≡◌, true, IfSome, option_map};
ghost use Rattle.rc_sheet_spec.specs.Sheet.{card_var, worth_of};
ghost use Rattle.rc_ast.specs.Names.{who_seen};
ghost use Rattle.rc_ast.specs.Expressions.{card_seen, coll_seen, int_seen, test_seen};
ghost use Rattle.rc_value.specs.Once.{IsCardOnce, IsTopOnce, IsOuterOwner, IsWorthCompared, alike, valued};
ghost use Rattle.rc_value.specs.Scene.{scene_seen};
ghost use Rattle.rc_value.specs.Sought.{IsSought};
ghost use Rattle.rc_value.specs.declared.sought.Sought.TheVariants.{Worth};

use crate::Card;
use crate::comparing::{made_for_all, numbers_of, turn_comparison};
use crate::leaves::attr_of;
use crate::rows::top_card;
use crate::scene::Scene;
use crate::scope::Bindings;
use crate::sought::{Sought, SoughtWorth, opposite, same_face, same_value};
use crate::wanted::is_variable;
use rc_ast::{CardExpr, CollExpr, IntExpr, Test, Who};
use rc_code::Comparator;

/// Whether an owner is no variable but one of so many outer ones.
#[inline(always)]
pub(crate) fn is_outer_owner(who: Who, count: usize) -> bool
    ensures { result ≡ true → IsOuterOwner count (who_seen who) }
{
    match who {
        Who::TeamOfVar(var) => (var as usize) < count,
        Who::Var(var) => (var as usize) < count,
        Who::Game => true,
        Who::CurrentPlayer => true,
        Who::CurrentTeam => true,
        Who::TeamOfCurrent => true,
    }
}

// The card at the top of a location or of an outer variable's cards; there may be none.
#[inline(always)]
fn top_once(scene: &Scene, scope: &Bindings, expr: &CollExpr) -> Option<Option<Card>>
    ensures { IfSome result (IsTopOnce (scene_seen scene.now) scope.now (coll_seen expr.now)) }
{
    match expr {
        CollExpr::Loc(loc) => {
            if is_outer_owner(loc.who, scope.len()) {
                return Some(top_card(scene, scope, loc));
            }
            None
        }
        CollExpr::Var(var) => {
            if (*var as usize) < scope.len() {
                return Some(scope.group(*var).last());
            }
            None
        }
        _ => None,
    }
}

/// The card of an outer variable, or at the top of such cards, whatever one more variable stands for. There may be
/// none.
#[inline(always)]
pub(crate) fn card_once(scene: &Scene, scope: &Bindings, expr: &CardExpr) -> Option<Option<Card>>
    ensures { IfSome result (IsCardOnce (scene_seen scene.now) scope.now (card_seen expr.now)) }
{
    match expr {
        CardExpr::Var(var) => {
            if (*var as usize) < scope.len() {
                return Some(scope.card(*var));
            }
            None
        }
        CardExpr::Top(cards) => top_once(scene, scope, cards),
        _ => None,
    }
}

// To have the value of a card, if the card is known.
#[inline(always)]
fn value_of_once(scene: &Scene, name: u16, card: Option<Option<Card>>, other: u16) -> Option<Sought>
    ensures { result ≡ option_map (valued (scene_seen scene.now) name other) card }
{
    match card {
        Some(card) => Some(same_value(name, attr_of(scene, card, other))),
        None => None,
    }
}

// To have the face of a card, if the card is known.
#[inline(always)]
fn face_of_once(card: Option<Option<Card>>) -> Option<Sought>
    ensures { result ≡ option_map alike card }
{
    match card {
        Some(card) => Some(same_face(card)),
        None => None,
    }
}

// The same of a test that is no opposite.
#[inline(always)]
fn equal_once(scene: &Scene, scope: &Bindings, test: &Test) -> Option<Sought>
    ensures { IfSome result (IsSought (scene_seen scene.now) scope.now (test_seen test.now)) }
{
    match test {
        Test::EqAttr(a, name, b, other) => {
            if is_variable(a, scope.len()) {
                return value_of_once(scene, *name, card_once(scene, scope, b), *other);
            }
            if is_variable(b, scope.len()) {
                return value_of_once(scene, *other, card_once(scene, scope, a), *name);
            }
            None
        }
        Test::EqCard(a, b) => {
            if is_variable(a, scope.len()) {
                return face_of_once(card_once(scene, scope, b));
            }
            if is_variable(b, scope.len()) {
                return face_of_once(card_once(scene, scope, a));
            }
            None
        }
        Test::Is(card, name, value) => {
            if is_variable(card, scope.len()) {
                return Some(same_value(*name, Some(*value)));
            }
            None
        }
        _ => None,
    }
}

// The map by which a number is what the card of the variable at a place is worth.
#[inline(always)]
fn map_of(expr: &IntExpr, place: usize) -> Option<u16>
    ensures { IfSome result (λ map. int_seen expr.now ≡ worth_of (card_var place) map) }
{
    match expr {
        IntExpr::Points(card, map) if is_variable(card, place) => Some(*map),
        _ => None,
    }
}

// What a test compares with what the card of the variable at a place is worth: by which map, how, and with what.
#[inline(always)]
fn worth_compared<'t>(test: &'t Test, place: usize) -> Option<(u16, Comparator, &'t IntExpr)>
    ensures { IfSome result (λ it. IsWorthCompared place (test_seen test.now) it.0 it.1 (int_seen it.2.now)) }
{
    let (a, how, b) = numbers_of(test)?;
    match map_of(a, place) {
        Some(map) => Some((map, how, b)),
        None => Some((map_of(b, place)?, turn_comparison(how), a)),
    }
}

/// What a comparison asks of what the innermost variable's card is worth, where the other number is the same for all.
#[inline(never)]
pub fn worth_once(scene: &Scene, scope: &Bindings, test: &Test) -> Option<SoughtWorth>
    ensures { IfSome result (λ worth. IsSought (scene_seen scene.now) scope.now (test_seen test.now) (Worth worth)) }
{
    let (map, how, other) = worth_compared(test, scope.len())?;
    match i32::try_from(made_for_all(scene, scope, other)?) {
        Ok(against) => Some(SoughtWorth {
            map,
            how,
            against,
            equal: true,
        }),
        Err(_) => None,
    }
}

/// What a test asks of the innermost variable's card, where that is at hand.
#[inline(always)]
pub(crate) fn sought_once(scene: &Scene, scope: &Bindings, test: &Test) -> Option<Sought>
    ensures { IfSome result (IsSought (scene_seen scene.now) scope.now (test_seen test.now)) }
{
    match test {
        Test::Ne(inner) => opposite(equal_once(scene, scope, inner)),
        Test::Not(inner) => opposite(equal_once(scene, scope, inner)),
        _ => equal_once(scene, scope, test),
    }
}

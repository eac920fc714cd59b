//! What is at hand of the tests of a guard. Some hold or don't whatever variables stand for: comparisons of numbers
//! that no variable owns, and whether the cards of such a location are as they are wanted.
ghost use Rattle.std.specs.Prelude.{◌≡◌, ◌<◌, true, IfSome, length};
ghost use Rattle.rc_sheet_spec.specs.Sheet.{cards_in, each_card};
ghost use Rattle.rc_play_spec.specs.Value.{coll_value};
ghost use Rattle.rc_ast.specs.Names.{loc_seen};
ghost use Rattle.rc_ast.specs.Expressions.{coll_seen, int_seen, test_seen, domain_seen};
ghost use Rattle.rc_menu.specs.Known.{hand_turned, wanted_turned, IsAtHand, IsKnownAt, IsKnownOver, IsFixedNumber, IsKnownPair, IsTurned};
ghost use Rattle.rc_value.specs.Over.{over};
ghost use Rattle.rc_value.specs.Scene.{scene_seen};
ghost use Rattle.rc_value.specs.Wanted.{wanted_value, IsFixedOwner};

use rc_ast::{CollExpr, Domain, IntExpr, Loc, Test};
use rc_code::Comparator;
use rc_value::{
    Bindings, Scene, Sought, SoughtValue, are_as_sought, are_met_in, cards_of, compared_at_hand,
    equal_at, ids_of, is_fixed_collection, is_fixed_owner, wanted_at,
};

/// What is at hand of a test of the innermost variable's card: which value the card is to have, or whether the test
/// holds for any card.
#[derive(Clone, Copy)]
pub(crate) enum AtHand {
    OfCard(SoughtValue),
    Holds(bool),
    Unclear,
}

/// What is at hand of a test.
#[inline(always)]
pub(crate) fn at_hand(scene: &Scene, scope: &Bindings, test: &Test) -> AtHand
    requires { length scope.now < 5 }
    ensures { IsAtHand (scene_seen scene.now) scope.now (test_seen test.now) result }
{
    let (plain, opposite) = plain_of(test);
    turned_if(opposite, plain_at_hand(scene, scope, plain))
}

// A test, or the test of which it is the opposite, and whether it is that.
#[inline(always)]
fn plain_of<'t>(test: &'t Test) -> (&'t Test, bool)
    ensures { IsTurned result.1 (test_seen result.0.now) (test_seen test.now) }
{
    match test {
        Test::Ne(inner) => (inner, true),
        Test::Not(inner) => (inner, true),
        _ => (test, false),
    }
}

/// How a value is wanted for the opposite, or the same.
#[inline(always)]
pub(crate) fn turned_wanted(opposite: bool, wanted: SoughtValue) -> SoughtValue
    ensures { result ≡ wanted_turned opposite wanted }
{
    SoughtValue {
        name: wanted.name,
        value: wanted.value,
        equal: wanted.equal != opposite,
    }
}

/// What is at hand of the opposite, or the same.
#[inline(always)]
pub(crate) fn turned_if(opposite: bool, hand: AtHand) -> AtHand
    ensures { result ≡ hand_turned opposite hand }
{
    match hand {
        AtHand::OfCard(wanted) => AtHand::OfCard(turned_wanted(opposite, wanted)),
        AtHand::Holds(holds) => AtHand::Holds(holds != opposite),
        AtHand::Unclear => AtHand::Unclear,
    }
}

// The same, but for opposites.
#[inline(always)]
fn plain_at_hand(scene: &Scene, scope: &Bindings, test: &Test) -> AtHand
    requires { length scope.now < 5 }
    ensures { IsAtHand (scene_seen scene.now) scope.now (test_seen test.now) result }
{
    match test {
        Test::EqAttr(_, _, _, _) => card_test_at_hand(scene, scope, test),
        Test::Is(_, _, _) => card_test_at_hand(scene, scope, test),
        _ => known_at_hand(scene, scope, test),
    }
}

#[inline(always)]
fn card_test_at_hand(scene: &Scene, scope: &Bindings, test: &Test) -> AtHand
    ensures { IsAtHand (scene_seen scene.now) scope.now (test_seen test.now) result }
{
    match equal_at(scene, scope, scope.len(), test) {
        Some(wanted) => AtHand::OfCard(wanted),
        None => AtHand::Unclear,
    }
}

#[inline(always)]
fn known_at_hand(scene: &Scene, scope: &Bindings, test: &Test) -> AtHand
    requires { length scope.now < 5 }
    ensures { IsAtHand (scene_seen scene.now) scope.now (test_seen test.now) result }
{
    match plain_at(scene, scope, scope.len() + 1, test) {
        Some(holds) => AtHand::Holds(holds),
        None => AtHand::Unclear,
    }
}

// Whether a test holds in any scope of so many variables, if that is at hand, and the test is no opposite.
#[inline(always)]
fn plain_at(scene: &Scene, scope: &Bindings, count: usize, test: &Test) -> Option<bool>
    ensures { IfSome result (IsKnownAt (scene_seen scene.now) count (test_seen test.now)) }
{
    match test {
        Test::EqInt(a, b) => compared_known(scene, scope, a, Comparator::Equal, b),
        Test::Less(a, b) => compared_known(scene, scope, a, Comparator::Less, b),
        Test::LessEq(a, b) => compared_known(scene, scope, a, Comparator::AtMost, b),
        Test::More(a, b) => compared_known(scene, scope, a, Comparator::More, b),
        Test::MoreEq(a, b) => compared_known(scene, scope, a, Comparator::AtLeast, b),
        Test::All(domain, _, inner) => known_over(scene, scope, count, domain, inner, false),
        Test::Any(domain, _, inner) => known_over(scene, scope, count, domain, inner, true),
        _ => None,
    }
}

// Whether no variable owns a number.
#[inline(always)]
fn is_fixed_number(expr: &IntExpr) -> bool
    ensures { result ≡ true → IsFixedNumber (int_seen expr.now) }
{
    match expr {
        IntExpr::Lit(_) => true,
        IntExpr::Num(num) => is_fixed_owner(num.who),
        IntExpr::Size(cards) => is_fixed_collection(cards),
        _ => false,
    }
}

// Whether two numbers compare so, if no variable owns them and they are at hand.
#[inline(always)]
fn compared_known(
    scene: &Scene,
    scope: &Bindings,
    a: &IntExpr,
    how: Comparator,
    b: &IntExpr,
) -> Option<bool>
    ensures { IfSome result (IsKnownPair (scene_seen scene.now) how (int_seen a.now) (int_seen b.now)) }
{
    if is_fixed_number(a) && is_fixed_number(b) {
        return compared_at_hand(scene, scope, a, how, b);
    }
    None
}

// The location that a variable runs over, if no variable owns it.
#[inline(always)]
fn location_of<'d>(domain: &'d Domain) -> Option<&'d Loc>
    ensures { IfSome result (λ loc. (domain_seen domain.now ≡ each_card (cards_in (loc_seen loc.now)))
        × IsFixedOwner (loc_seen loc.now).who) }
{
    match domain {
        Domain::Coll(cards) => match cards {
            CollExpr::Loc(loc) if is_fixed_owner(loc.who) => Some(loc),
            _ => None,
        },
        _ => None,
    }
}

// Whether one of the cards of such a location is as it is wanted, or all of them.
#[inline(never)]
fn known_over(
    scene: &Scene,
    scope: &Bindings,
    count: usize,
    domain: &Domain,
    inner: &Test,
    any: bool,
) -> Option<bool>
    ensures { IfSome result (IsKnownOver (scene_seen scene.now) count any (domain_seen domain.now)
        (test_seen inner.now)) }
{
    match location_of(domain) {
        Some(loc) => match wanted_at(scene, scope, count, inner) {
            Some(wanted) => Some(are_there(scene, scope, loc, wanted, any)),
            None => None,
        },
        None => None,
    }
}

/// Whether one of the cards of a location is as it is wanted, or all of them.
#[inline(always)]
pub(crate) fn are_there(
    scene: &Scene,
    scope: &Bindings,
    loc: &Loc,
    wanted: SoughtValue,
    any: bool,
) -> bool
    ensures { result ≡ over any (wanted_value (scene_seen scene.now) wanted)
        (coll_value (scene_seen scene.now) scope.now (cards_in (loc_seen loc.now))) }
{
    match scene.lookup.values(wanted.name) {
        Some(row) => are_met_in(row, wanted, ids_of(scene, scope, loc), any),
        None => are_as_sought(
            scene,
            Sought::Value(wanted),
            &cards_of(scene, scope, loc),
            any,
        ),
    }
}

//! Tests of all players that compare what each has, a number of his or how many cards in a location, with a number that
//! is the same for all: that one is found once, and of each player no more is looked up than what he has.
ghost use Rattle.std.specs.Prelude.{◌≡◌, ℕ, ◌+◌, ◌<◌, ◌≤◌, [], length, option_map, Some, IfSome};
ghost use Rattle.rc_base.specs.Limits.{most_in_list, most_locations};
ghost use Rattle.rc_base.specs.Numbers.{below};
ghost use Rattle.rc_sheet_spec.specs.Sheet.{all_of, cards_in, each_player, eq_int, literal, number};
ghost use Rattle.rc_sheet_spec.specs.Sheet.{size_of as size_expr, who_var};
ghost use Rattle.rc_play_spec.specs.Value.{cards_there, cut, test_value};
ghost use Rattle.rc_ast.specs.Names.{num_seen};
ghost use Rattle.rc_ast.specs.Expressions.{coll_seen, int_seen, test_seen};
ghost use Rattle.rc_value.specs.Comparing.{compare, held_at, place_held, suits, turned};
ghost use Rattle.rc_value.specs.Comparing.{ArePaired, IsComparison, IsHisOwn, IsSameForAll, IsSuited};
ghost use Rattle.rc_value.specs.declared.comparing.Own.TheVariants.{Size};
ghost use Rattle.rc_value.specs.Over.{over};
ghost use Rattle.rc_value.specs.Scene.{scene_seen};

use crate::arithmetic::{clamped_difference, clamped_product, clamped_sum};
use crate::cards::id_or_none;
use crate::leaves::{number_of, worth_of_id};
use crate::once::{card_once, is_outer_owner};
use crate::rows::ids_of;
use crate::scene::Scene;
use crate::scope::Bindings;
use rc_ast::{Class, CollExpr, IntExpr, Num, Test, Who};
use rc_code::Comparator;

/// What a player has of a name: a number, or so many cards in a location.
#[derive(Clone, Copy)]
pub(crate) enum Own {
    Number(u16),
    Size(u16),
}

/// How what a player has is to compare with a number that is the same for all players.
#[derive(Clone, Copy)]
pub(crate) struct SoughtNumber {
    pub(crate) own: Own,
    pub(crate) how: Comparator,
    pub(crate) against: i64,
}

/// What a test asks of the player that the innermost variable is to stand for, if it is such a comparison.
#[inline(always)]
pub(crate) fn suited_of(scene: &Scene, scope: &Bindings, test: &Test) -> Option<SoughtNumber>
    ensures { IfSome result (IsSuited (scene_seen scene.now) scope.now (test_seen test.now)) }
{
    match test {
        Test::EqInt(a, b) => comparison_of(scene, scope, a, Comparator::Equal, b),
        Test::Less(a, b) => comparison_of(scene, scope, a, Comparator::Less, b),
        Test::LessEq(a, b) => comparison_of(scene, scope, a, Comparator::AtMost, b),
        Test::More(a, b) => comparison_of(scene, scope, a, Comparator::More, b),
        Test::MoreEq(a, b) => comparison_of(scene, scope, a, Comparator::AtLeast, b),
        _ => None,
    }
}

/// The two numbers that a test compares, and how.
#[inline(always)]
pub(crate) fn numbers_of<'t>(test: &'t Test) -> Option<(&'t IntExpr, Comparator, &'t IntExpr)>
    ensures { IfSome result (λ it. IsComparison (int_seen it.0.now) it.1 (int_seen it.2.now) (test_seen test.now)) }
{
    match test {
        Test::EqInt(a, b) => Some((a, Comparator::Equal, b)),
        Test::Less(a, b) => Some((a, Comparator::Less, b)),
        Test::LessEq(a, b) => Some((a, Comparator::AtMost, b)),
        Test::More(a, b) => Some((a, Comparator::More, b)),
        Test::MoreEq(a, b) => Some((a, Comparator::AtLeast, b)),
        _ => None,
    }
}

// The same of two numbers, of which either may be his.
#[inline(always)]
fn comparison_of(
    scene: &Scene,
    scope: &Bindings,
    a: &IntExpr,
    how: Comparator,
    b: &IntExpr,
) -> Option<SoughtNumber>
    ensures { IfSome result (ArePaired (scene_seen scene.now) scope.now (int_seen a.now) how (int_seen b.now)) }
{
    match his_own(a, scope.len()) {
        Some(own) => against(scene, scope, own, how, b),
        None => match his_own(b, scope.len()) {
            Some(own) => against(scene, scope, own, turn_comparison(how), a),
            None => None,
        },
    }
}

/// The same comparison, told of the other number.
#[inline(always)]
pub(crate) fn turn_comparison(how: Comparator) -> Comparator
    ensures { result ≡ turned how }
{
    match how {
        Comparator::Equal => Comparator::Equal,
        Comparator::Less => Comparator::More,
        Comparator::AtMost => Comparator::AtLeast,
        Comparator::More => Comparator::Less,
        Comparator::AtLeast => Comparator::AtMost,
    }
}

// What a player has against another number, if that is the same for all.
#[inline(always)]
fn against(
    scene: &Scene,
    scope: &Bindings,
    own: Own,
    how: Comparator,
    other: &IntExpr,
) -> Option<SoughtNumber>
    ensures { IfSome result (λ s. (s.own ≡ own) × (s.how ≡ how)
        × IsSameForAll (scene_seen scene.now) scope.now (int_seen other.now) s.against) }
{
    match same_for_all(scene, scope, other) {
        Some(against) => Some(SoughtNumber { own, how, against }),
        None => None,
    }
}

// What a number is of the player that a variable stands for.
#[inline(always)]
fn his_own(expr: &IntExpr, place: usize) -> Option<Own>
    ensures { IfSome result (IsHisOwn place (int_seen expr.now)) }
{
    match expr {
        IntExpr::Num(num) => his_number(num, place),
        IntExpr::Size(cards) => his_size(cards, place),
        _ => None,
    }
}

#[inline(always)]
fn his_number(num: &Num, place: usize) -> Option<Own>
    ensures { IfSome result (IsHisOwn place (number (num_seen num.now))) }
{
    match num.who {
        Who::Var(var) if var as usize == place => Some(Own::Number(num.name)),
        _ => None,
    }
}

#[inline(always)]
fn his_size(expr: &CollExpr, place: usize) -> Option<Own>
    ensures { IfSome result (IsHisOwn place (size_expr (coll_seen expr.now))) }
{
    match expr {
        CollExpr::Loc(loc) => match loc.who {
            Who::Var(var) if var as usize == place => Some(Own::Size(loc.name)),
            _ => None,
        },
        _ => None,
    }
}

// A number that doesn't hang on one more variable: a literal, or one that the variable doesn't own.
#[inline(always)]
fn same_for_all(scene: &Scene, scope: &Bindings, expr: &IntExpr) -> Option<i64>
    ensures { IfSome result (IsSameForAll (scene_seen scene.now) scope.now (int_seen expr.now)) }
{
    match expr {
        IntExpr::Lit(value) => Some(*value),
        IntExpr::Num(num) => {
            if is_outer_owner(num.who, scope.len()) {
                return Some(number_of(scene, scope, num));
            }
            None
        }
        _ => None,
    }
}

/// The same, or how many cards a location has, what a card is worth, or what is made of two such numbers. It stands
/// apart, as tests of players seldom read these.
#[cycle(made)]
#[inline(never)]
pub(crate) fn made_for_all(scene: &Scene, scope: &Bindings, expr: &IntExpr) -> Option<i64>
    ensures { IfSome result (IsSameForAll (scene_seen scene.now) scope.now (int_seen expr.now)) }
{
    match expr {
        IntExpr::Size(cards) => match &**cards {
            CollExpr::Loc(loc) if is_outer_owner(loc.who, scope.len()) => {
                Some(ids_of(scene, scope, loc).len() as i64)
            }
            _ => None,
        },
        IntExpr::Points(card, map) => {
            let card = card_once(scene, scope, card)?;
            Some(worth_of_id(scene, id_or_none(card), *map))
        }
        IntExpr::Add(a, b) => {
            let one = made_for_all(scene, scope, a)?;
            Some(clamped_sum(one, made_for_all(scene, scope, b)?))
        }
        IntExpr::Sub(a, b) => {
            let one = made_for_all(scene, scope, a)?;
            Some(clamped_difference(one, made_for_all(scene, scope, b)?))
        }
        IntExpr::Mul(a, b) => {
            let one = made_for_all(scene, scope, a)?;
            Some(clamped_product(one, made_for_all(scene, scope, b)?))
        }
        _ => same_for_all(scene, scope, expr),
    }
}

/// Whether one of the players has what is asked, or all of them. How many cards each has is asked most, and so in a
/// loop of its own.
#[inline(always)]
pub(crate) fn over_suited(scene: &Scene, suited: SoughtNumber, any: bool) -> bool
    ensures { result ≡ over any (suits (scene_seen scene.now) suited)
        (below (scene_seen scene.now).known.sheet.players) }
{
    match suited.own {
        Own::Size(name) => over_sized(scene, name, suited.how, suited.against, any),
        Own::Number(_) => over_each(scene, suited, any),
    }
}

// The same of how many cards each has. Mostly so many are asked for, and no more nor less.
#[inline(always)]
fn over_sized(scene: &Scene, name: u16, how: Comparator, against: i64, any: bool) -> bool
    ensures { result ≡ over any (suits (scene_seen scene.now)
        (record { own = Size name; how = how; against = against }))
        (below (scene_seen scene.now).known.sheet.players) }
{
    let own = Own::Size(name);
    match how {
        Comparator::Equal => {
            let how = Comparator::Equal;
            over_each(scene, SoughtNumber { own, how, against }, any)
        }
        _ => over_each(scene, SoughtNumber { own, how, against }, any),
    }
}

// The same, player by player. What each has stands as far behind what the first one has as his number says, so a place
// is looked up once.
#[inline(always)]
fn over_each(scene: &Scene, suited: SoughtNumber, any: bool) -> bool
    ensures { result ≡ over any (suits (scene_seen scene.now) suited)
        (below (scene_seen scene.now).known.sheet.players) }
{
    let first = first_place(scene, suited.own);
    for player in 0..scene.sheet.players {
        if does_suit(scene, suited, first, player) == any {
            return any;
        }
    }
    !any
}

// The place of what the first player has of a name, if he has any.
#[inline(always)]
fn first_place(scene: &Scene, own: Own) -> Option<u16>
    ensures place { result ≡ place_held (scene_seen scene.now).known.sheet own 0 }
    ensures few { IfSome result (λ at. at ≤ most_locations) }
{
    match own {
        Own::Number(name) => scene.lookup.number(name, Class::Player, 0),
        Own::Size(name) => scene.lookup.location(name, Class::Player, 0),
    }
}

#[inline(always)]
fn does_suit(scene: &Scene, suited: SoughtNumber, first: Option<u16>, player: u8) -> bool
    requires first { first ≡ place_held (scene_seen scene.now).known.sheet suited.own 0 }
    requires few { IfSome first (λ at. at ≤ most_locations) }
    requires there { player < (scene_seen scene.now).known.sheet.players }
    ensures { result ≡ suits (scene_seen scene.now) suited player }
{
    compare(
        suited.how,
        held_behind(scene, suited.own, first, player),
        suited.against,
    )
}

// What stands as far behind a place as a player's number says, and 0 where there is no place.
#[inline(always)]
fn held_behind(scene: &Scene, own: Own, first: Option<u16>, player: u8) -> i64
    requires { IfSome first (λ at. at ≤ most_locations) }
    ensures { result ≡ held_at (scene_seen scene.now) own (option_map (λ at. at + player) first) }
{
    match first {
        Some(first) => held_at(scene, own, first + u16::from(player)),
        None => 0,
    }
}

// What stands at a place: a number, or so many cards.
#[inline(always)]
fn held_at(scene: &Scene, own: Own, at: u16) -> i64
    ensures { result ≡ held_at (scene_seen scene.now) own (Some at) }
{
    match own {
        Own::Number(_) => scene.table.number(at),
        Own::Size(_) => size_at(scene, at) as i64,
    }
}

// How many cards stand at a place.
#[inline(always)]
fn size_at(scene: &Scene, at: u16) -> usize
    ensures count { result ≡ length (cut (cards_there (scene_seen scene.now) (Some at))) }
    ensures few { result ≤ most_in_list }
{
    scene.table.list(at).len()
}

/// Whether each player has so many cards in his location of a name. Neither the word of the test's variable nor the
/// offset of the location's form matters.
#[inline(always)]
pub fn each_has(scene: &Scene, name: u16, count: i64) -> bool
    ensures { (bound at : ℕ) → result
        ≡ test_value (scene_seen scene.now) []
        (all_of each_player bound (eq_int (size_expr (cards_in (record { who = who_var 0; name = name; at = at })))
        (literal count))) }
{
    let suited = SoughtNumber {
        own: Own::Size(name),
        how: Comparator::Equal,
        against: count,
    };
    over_suited(scene, suited, false)
}

/// Whether one number compares so with another.
#[inline(always)]
pub(crate) fn compare(how: Comparator, one: i64, other: i64) -> bool
    ensures { result ≡ compare how one other }
{
    match how {
        Comparator::Equal => one == other,
        Comparator::Less => one < other,
        Comparator::AtMost => one <= other,
        Comparator::More => other < one,
        Comparator::AtLeast => other <= one,
    }
}

//! Whether tests hold.
ghost use Rattle.std.specs.Prelude.{◌≡◌, ◌+◌, ◌<◌, ◌≤◌, ◌++◌, ◌∷◌, [], map, length, IfSome, true, not};
ghost use Rattle.rc_base.specs.Numbers.{below};
ghost use Rattle.rc_play_spec.specs.Value.{test_value, tests_value, card_bound, player_bound};
ghost use Rattle.rc_ast.specs.Expressions.{test_seen, tests_seen};
ghost use Rattle.rc_value.specs.Depth.{test_depth, tests_depth, is_single, runs_over_cards};
ghost use Rattle.rc_value.specs.Over.{over};
ghost use Rattle.rc_value.specs.Scene.{scene_seen};
ghost use Rattle.rc_value.specs.Sought.{IsSought};

use crate::Cards;
use crate::collection::Collection;
use crate::comparing::{over_suited, suited_of};
use crate::expressions::{card_of, coll_of, int_of, value_of};
use crate::hand::{bare_members, test_at_hand};
use crate::leaves::are_same;
use crate::lookup::who_of;
use crate::once::{sought_once, worth_once};
use crate::scene::Scene;
use crate::scope::{Bind, Bindings};
use crate::sought::{Sought, are_as_sought, opposite, same_face, same_value};
use crate::wanted::is_against;
use rc_ast::{Domain, Test};

/// Whether a test holds.
#[cycle(values)]
pub fn test_of(scene: &Scene, scope: &Bindings, expr: &Test) -> bool
    requires fits { length scope.now + test_depth (test_seen expr.now) ≤ 5 }
    ensures { result ≡ test_value (scene_seen scene.now) scope.now (test_seen expr.now) }
{
    match expr {
        Test::And(tests) => over_tests(scene, scope, tests, false),
        Test::Or(tests) => over_tests(scene, scope, tests, true),
        Test::Ne(inner) => fails(scene, scope, inner),
        Test::Not(inner) => fails(scene, scope, inner),
        Test::All(domain, _, inner) => match domain {
            Domain::Players => over_players(scene, scope, inner, false),
            Domain::Coll(_) => over_cards(scene, scope, expr),
            Domain::Parts(_, _) => unreachable!(),
        },
        Test::Any(domain, _, inner) => match domain {
            Domain::Players => over_players(scene, scope, inner, true),
            Domain::Coll(_) => over_cards(scene, scope, expr),
            Domain::Parts(_, _) => unreachable!(),
        },
        _ => single_test(scene, scope, expr),
    }
}

#[cycle(values)]
#[inline(never)]
fn fails(scene: &Scene, scope: &Bindings, test: &Test) -> bool
    requires fits { length scope.now + test_depth (test_seen test.now) ≤ 5 }
    ensures { result ≡ not (test_value (scene_seen scene.now) scope.now (test_seen test.now)) }
{
    !test_of(scene, scope, test)
}

// A test with no other test inside it.
#[cycle(values)]
#[inline(always)]
fn single_test(scene: &Scene, scope: &Bindings, expr: &Test) -> bool
    requires single { is_single (test_seen expr.now) ≡ true }
    requires fits { length scope.now + test_depth (test_seen expr.now) ≤ 5 }
    ensures { result ≡ test_value (scene_seen scene.now) scope.now (test_seen expr.now) }
{
    match test_at_hand(&*scene, &*scope, expr) {
        Some(holds) => holds,
        None => single_asked(scene, scope, expr),
    }
}

// The same, whatever it takes.
#[cycle(values)]
#[inline(never)]
fn single_asked(scene: &Scene, scope: &Bindings, expr: &Test) -> bool
    requires single { is_single (test_seen expr.now) ≡ true }
    requires fits { length scope.now + test_depth (test_seen expr.now) ≤ 5 }
    ensures { result ≡ test_value (scene_seen scene.now) scope.now (test_seen expr.now) }
{
    match expr {
        Test::EqInt(a, b) => int_of(scene, scope, a) == int_of(scene, scope, b),
        Test::EqCard(a, b) => are_same(scene, card_of(scene, scope, a), card_of(scene, scope, b)),
        Test::EqAttr(a, name, b, other) => {
            value_of(scene, scope, a, *name) == value_of(scene, scope, b, *other)
        }
        Test::EqWho(a, b) => who_of(scene, scope, a) == who_of(scene, scope, b),
        Test::Less(a, b) => int_of(scene, scope, a) < int_of(scene, scope, b),
        Test::LessEq(a, b) => int_of(scene, scope, a) <= int_of(scene, scope, b),
        Test::More(a, b) => int_of(scene, scope, a) > int_of(scene, scope, b),
        Test::MoreEq(a, b) => int_of(scene, scope, a) >= int_of(scene, scope, b),
        Test::Is(card, name, value) => value_of(scene, scope, card, *name) == Some(*value),
        _ => unreachable!(),
    }
}

// A test that runs over cards.
#[cycle(values)]
#[inline(never)]
fn over_cards(scene: &Scene, scope: &Bindings, expr: &Test) -> bool
    requires over { runs_over_cards (test_seen expr.now) ≡ true }
    requires fits { length scope.now + test_depth (test_seen expr.now) ≤ 5 }
    ensures { result ≡ test_value (scene_seen scene.now) scope.now (test_seen expr.now) }
{
    match expr {
        Test::All(domain, _, inner) => match bare_members(&*scene, &*scope, domain) {
            Some(cards) => over_list(scene, scope, &cards, inner, false),
            None => over_built(scene, scope, expr),
        },
        Test::Any(domain, _, inner) => match bare_members(&*scene, &*scope, domain) {
            Some(cards) => over_list(scene, scope, &cards, inner, true),
            None => over_built(scene, scope, expr),
        },
        _ => unreachable!(),
    }
}

/// What a test asks of the innermost variable's card: its value, its face or its worth, or an opposite of these. All
/// else that the test reads is read once for all cards.
#[cycle(values)]
pub fn sought_of(scene: &Scene, scope: &Bindings, test: &Test) -> Option<Sought>
    requires fits { length scope.now + (1 + test_depth (test_seen test.now)) ≤ 5 }
    ensures { IfSome result (IsSought (scene_seen scene.now) scope.now (test_seen test.now)) }
{
    match sought_once(&*scene, &*scope, test) {
        Some(sought) => Some(sought),
        None => sought_asked(scene, scope, &scope.with(Bind::Player(0)), test),
    }
}

// The same, whatever it takes. What a card is compared with doesn't hang on the innermost variable, so that anything
// may stand for the variable.
#[cycle(values)]
#[inline(never)]
fn sought_asked(scene: &Scene, scope: &Bindings, inside: &Bindings, test: &Test) -> Option<Sought>
    requires inside { inside.now ≡ scope.now ++ player_bound 0 ∷ [] }
    requires fits { length scope.now + (1 + test_depth (test_seen test.now)) ≤ 5 }
    ensures { IfSome result (IsSought (scene_seen scene.now) scope.now (test_seen test.now)) }
{
    match test {
        Test::EqAttr(a, name, b, other) => {
            if is_against(a, b, scope.len()) {
                return Some(same_value(*name, value_of(scene, inside, b, *other)));
            }
            if is_against(b, a, scope.len()) {
                return Some(same_value(*other, value_of(scene, inside, a, *name)));
            }
            None
        }
        Test::EqCard(a, b) => {
            if is_against(a, b, scope.len()) {
                return Some(same_face(card_of(scene, inside, b)));
            }
            if is_against(b, a, scope.len()) {
                return Some(same_face(card_of(scene, inside, a)));
            }
            None
        }
        Test::Ne(inner) => opposite(sought_asked(scene, scope, inside, inner)),
        Test::Not(inner) => opposite(sought_asked(scene, scope, inside, inner)),
        _ => Some(Sought::Worth(worth_once(&*scene, &*scope, test)?)),
    }
}

// A test that runs over cards which stand in no list.
#[cycle(values)]
#[inline(never)]
fn over_built(scene: &Scene, scope: &Bindings, expr: &Test) -> bool
    requires over { runs_over_cards (test_seen expr.now) ≡ true }
    requires fits { length scope.now + test_depth (test_seen expr.now) ≤ 5 }
    ensures { result ≡ test_value (scene_seen scene.now) scope.now (test_seen expr.now) }
{
    let mut room = Cards::new();
    match expr {
        Test::All(domain, _, inner) => match domain {
            Domain::Players => unreachable!(),
            Domain::Coll(cards) => {
                coll_of(scene, scope, cards, &mut room);
                over_list(
                    scene,
                    scope,
                    &Collection::of_cards(room.as_slice()),
                    inner,
                    false,
                )
            }
            Domain::Parts(_, _) => unreachable!(),
        },
        Test::Any(domain, _, inner) => match domain {
            Domain::Players => unreachable!(),
            Domain::Coll(cards) => {
                coll_of(scene, scope, cards, &mut room);
                over_list(
                    scene,
                    scope,
                    &Collection::of_cards(room.as_slice()),
                    inner,
                    true,
                )
            }
            Domain::Parts(_, _) => unreachable!(),
        },
        _ => unreachable!(),
    }
}

// Whether one of the tests holds, or all of them.
#[cycle(values)]
#[inline(never)]
#[tactic(auto, using(crate::proofs::Steps::tests_here))]
fn over_tests(scene: &Scene, scope: &Bindings, tests: &Vec<Test>, any: bool) -> bool
    requires fits { length scope.now + tests_depth (tests_seen tests.now.items) ≤ 5 }
    ensures { result ≡ over any (λ b. b) (tests_value (scene_seen scene.now) scope.now (tests_seen tests.now.items)) }
{
    for test in tests {
        if test_of(scene, scope, test) == any {
            return any;
        }
    }
    !any
}

// Whether a test holds for one of the players, or for all of them.
#[cycle(values)]
#[inline(never)]
fn over_players(scene: &Scene, scope: &Bindings, test: &Test, any: bool) -> bool
    requires fits { length scope.now + (1 + test_depth (test_seen test.now)) ≤ 5 }
    ensures { result ≡ over any (λ m. test_value (scene_seen scene.now) (scope.now ++ m ∷ []) (test_seen test.now))
        (map (λ n. player_bound n) (below (scene_seen scene.now).known.sheet.players)) }
{
    match suited_of(&*scene, &*scope, test) {
        Some(suited) => over_suited(scene, suited, any),
        None => over_players_asked(scene, scope, test, any),
    }
}

// The same, each player asked by himself.
#[cycle(values)]
#[inline(never)]
fn over_players_asked(scene: &Scene, scope: &Bindings, test: &Test, any: bool) -> bool
    requires fits { length scope.now + (1 + test_depth (test_seen test.now)) ≤ 5 }
    ensures { result ≡ over any (λ m. test_value (scene_seen scene.now) (scope.now ++ m ∷ []) (test_seen test.now))
        (map (λ n. player_bound n) (below (scene_seen scene.now).known.sheet.players)) }
{
    let mut inside = scope.with(Bind::Player(0));
    for player in 0..scene.sheet.players {
        inside.rebind(Bind::Player(player));
        if test_of(scene, &inside, test) == any {
            return any;
        }
    }
    !any
}

// Whether a test holds for one of the cards, or for all of them.
#[cycle(values)]
fn over_list(scene: &Scene, scope: &Bindings, cards: &Collection, test: &Test, any: bool) -> bool
    requires fits { length scope.now + (1 + test_depth (test_seen test.now)) ≤ 5 }
    ensures { result ≡ over any (λ m. test_value (scene_seen scene.now) (scope.now ++ m ∷ []) (test_seen test.now))
        (map (λ c. card_bound c) cards.now) }
{
    match sought_of(scene, scope, test) {
        Some(sought) => are_as_sought(scene, sought, cards, any),
        None => over_list_asked(scene, scope, cards, test, any),
    }
}

// The same, each card asked by itself.
#[cycle(values)]
#[inline(never)]
fn over_list_asked(
    scene: &Scene,
    scope: &Bindings,
    cards: &Collection,
    test: &Test,
    any: bool,
) -> bool
    requires fits { length scope.now + (1 + test_depth (test_seen test.now)) ≤ 5 }
    ensures { result ≡ over any (λ m. test_value (scene_seen scene.now) (scope.now ++ m ∷ []) (test_seen test.now))
        (map (λ c. card_bound c) cards.now) }
{
    let mut inside = scope.with(Bind::Player(0));
    for place in 0..cards.len() {
        inside.rebind(Bind::Card(cards.at(place)));
        if test_of(scene, &inside, test) == any {
            return any;
        }
    }
    !any
}

//! The values of expressions for cards and numbers.
ghost use Rattle.std.specs.Prelude.{◌≡◌, ◌+◌, ◌<◌, ◌≤◌, ◌++◌, ◌∷◌, [], map, filter, length, option_map, true};
ghost use Rattle.rc_base.specs.Limits.{most_in_collection};
ghost use Rattle.rc_play_spec.specs.Ends.{first_of, last_of};
ghost use Rattle.rc_play_spec.specs.Value.{card_value, coll_value, colls_value, int_value, test_value, card_bound, attr_of_any, worth_of_any, sum_worth, cut};
ghost use Rattle.rc_ast.specs.Expressions.{coll_seen, colls_seen, int_seen, test_seen};
ghost use Rattle.rc_ast.specs.Expressions.{card_seen};
ghost use Rattle.rc_value.specs.Cards.{value_seen, values_seen};
ghost use Rattle.rc_value.specs.Depth.{card_depth, coll_depth, colls_depth, int_depth, test_depth};
ghost use Rattle.rc_value.specs.Depth.{is_calculated, is_filtered};
ghost use Rattle.rc_value.specs.Picks.{picked_of};
ghost use Rattle.rc_value.specs.Scene.{scene_seen};

use crate::arithmetic::{clamped_difference, clamped_product, clamped_sum};
use crate::cards::id_or_none;
use crate::collection::Collection;
use crate::hand::{bare, number_at_hand, value_at_hand};
use crate::known::add_known;
use crate::leaves::{attr_of, cards_of, number_of, worth_of_id};
use crate::loops::{Which, append, pick_from, push_if, sum};
use crate::rows::{bottom_card, ids_of, top_card};
use crate::scene::Scene;
use crate::scope::{Bind, Bindings};
use crate::sought::{add_as_sought, count_as_sought};
use crate::tests::{sought_of, test_of};
use crate::{Card, Cards};
use rc_ast::{CardExpr, CollExpr, IntExpr, Test};
use rc_base::limits::MOST_IN_COLLECTION;

/// The cards of a collection, written into an empty list.
#[cycle(values)]
#[inline(always)]
pub fn coll_of(scene: &Scene, scope: &Bindings, expr: &CollExpr, out: &mut Cards)
    requires empty { out.old.items ≡ [] }
    requires fits { length scope.now + coll_depth (coll_seen expr.now) ≤ 5 }
    ensures { values_seen out.new.items ≡ coll_value (scene_seen scene.now) scope.now (coll_seen expr.now) }
{
    add(scene, scope, expr, out);
}

// Puts the cards of a collection behind others, as long as there is room.
#[cycle(values)]
fn add(scene: &Scene, scope: &Bindings, expr: &CollExpr, out: &mut Cards)
    requires fits { length scope.now + coll_depth (coll_seen expr.now) ≤ 5 }
    ensures cards { values_seen out.new.items
        ≡ cut (values_seen out.old.items ++ coll_value (scene_seen scene.now) scope.now (coll_seen expr.now)) }
    ensures few { length out.new.items ≤ most_in_collection }
{
    match expr {
        CollExpr::Var(var) => append(out, &scope.group(*var)),
        CollExpr::Loc(loc) => append(out, &cards_of(scene, scope, loc)),
        CollExpr::Filter(cards, _, test) => match bare(&*scene, &*scope, cards) {
            Some(all) => add_passing(scene, scope, test, &all, out),
            None => add_gathered(scene, scope, expr, out),
        },
        CollExpr::Union(parts) => add_parts(scene, scope, parts, out),
        CollExpr::Known(loc) => add_known(scene, scope, loc, out),
    }
}

// Those of cards that take a list which pass. In a function of its own, since a list is filled where a function begins.
#[cycle(values)]
#[inline(never)]
fn add_gathered(scene: &Scene, scope: &Bindings, expr: &CollExpr, out: &mut Cards)
    requires filters { is_filtered (coll_seen expr.now) ≡ true }
    requires fits { length scope.now + coll_depth (coll_seen expr.now) ≤ 5 }
    ensures cards { values_seen out.new.items
        ≡ cut (values_seen out.old.items ++ coll_value (scene_seen scene.now) scope.now (coll_seen expr.now)) }
    ensures few { length out.new.items ≤ most_in_collection }
{
    match expr {
        CollExpr::Filter(cards, _, test) => {
            let mut room = Cards::new();
            coll_of(scene, scope, cards, &mut room);
            add_passing(
                scene,
                scope,
                test,
                &Collection::of_cards(room.as_slice()),
                out,
            );
        }
        _ => unreachable!(),
    }
}

#[cycle(values)]
#[tactic(auto, using(crate::proofs::Steps::colls_here))]
fn add_parts(scene: &Scene, scope: &Bindings, parts: &Vec<CollExpr>, out: &mut Cards)
    requires fits { length scope.now + colls_depth (colls_seen parts.now.items) ≤ 5 }
    ensures cards { values_seen out.new.items ≡ cut (values_seen out.old.items
        ++ colls_value (scene_seen scene.now) scope.now (colls_seen parts.now.items)) }
    ensures few { length out.new.items ≤ most_in_collection }
{
    // what a list keeps
    let _count = out.len();
    for part in parts {
        add(scene, scope, part, out);
    }
}

// Those of the cards that pass.
#[cycle(values)]
fn add_passing(scene: &Scene, scope: &Bindings, test: &Test, all: &Collection, out: &mut Cards)
    requires fits { length scope.now + (1 + test_depth (test_seen test.now)) ≤ 5 }
    ensures cards { values_seen out.new.items ≡ cut (values_seen out.old.items ++ filter
        (λ c. test_value (scene_seen scene.now) (scope.now ++ card_bound c ∷ []) (test_seen test.now)) all.now) }
    ensures few { length out.new.items ≤ most_in_collection }
{
    match sought_of(scene, scope, test) {
        Some(sought) => add_as_sought(scene, sought, all, out),
        None => add_asked(scene, scope, test, all, out),
    }
}

// The same, each card asked by itself.
#[cycle(values)]
fn add_asked(scene: &Scene, scope: &Bindings, test: &Test, all: &Collection, out: &mut Cards)
    requires fits { length scope.now + (1 + test_depth (test_seen test.now)) ≤ 5 }
    ensures cards { values_seen out.new.items ≡ cut (values_seen out.old.items ++ filter
        (λ c. test_value (scene_seen scene.now) (scope.now ++ card_bound c ∷ []) (test_seen test.now)) all.now) }
    ensures few { length out.new.items ≤ most_in_collection }
{
    // what a list keeps
    let _count = out.len();
    let mut inside = scope.with(Bind::Player(0));
    for place in 0..all.len() {
        let card = all.at(place);
        inside.rebind(Bind::Card(card));
        let passes = test_of(scene, &inside, test);
        push_if(out, card, passes);
    }
}

/// The card that an expression stands for.
#[cycle(values)]
pub fn card_of(scene: &Scene, scope: &Bindings, expr: &CardExpr) -> Option<Card>
    requires fits { length scope.now + card_depth (card_seen expr.now) ≤ 5 }
    ensures { option_map value_seen result ≡ card_value (scene_seen scene.now) scope.now (card_seen expr.now) }
{
    match expr {
        CardExpr::Var(var) => scope.card(*var),
        CardExpr::Top(cards) => top_of(scene, scope, cards),
        CardExpr::Bottom(cards) => bottom_of(scene, scope, cards),
        CardExpr::Max(cards, map) => pick_card(scene, scope, cards, Which::Max(*map)),
        CardExpr::Min(cards, map) => pick_card(scene, scope, cards, Which::Min(*map)),
    }
}

// The card at the top of a collection.
#[cycle(values)]
fn top_of(scene: &Scene, scope: &Bindings, expr: &CollExpr) -> Option<Card>
    requires fits { length scope.now + coll_depth (coll_seen expr.now) ≤ 5 }
    ensures { option_map value_seen result
        ≡ last_of (coll_value (scene_seen scene.now) scope.now (coll_seen expr.now)) }
{
    match expr {
        CollExpr::Loc(loc) => top_card(scene, scope, loc),
        _ => pick_card(scene, scope, expr, Which::Top),
    }
}

// The card at the bottom of a collection.
#[cycle(values)]
fn bottom_of(scene: &Scene, scope: &Bindings, expr: &CollExpr) -> Option<Card>
    requires fits { length scope.now + coll_depth (coll_seen expr.now) ≤ 5 }
    ensures { option_map value_seen result
        ≡ first_of (coll_value (scene_seen scene.now) scope.now (coll_seen expr.now)) }
{
    match expr {
        CollExpr::Loc(loc) => bottom_card(scene, scope, loc),
        _ => pick_card(scene, scope, expr, Which::Bottom),
    }
}

// The value of the card that an expression stands for.
#[cycle(values)]
pub(crate) fn value_of(scene: &Scene, scope: &Bindings, expr: &CardExpr, name: u16) -> Option<u16>
    requires fits { length scope.now + card_depth (card_seen expr.now) ≤ 5 }
    ensures { result ≡ attr_of_any (scene_seen scene.now) name
        (card_value (scene_seen scene.now) scope.now (card_seen expr.now)) }
{
    match value_at_hand(&*scene, &*scope, expr, name) {
        Some(value) => value,
        None => value_asked(scene, scope, expr, name),
    }
}

// The same, whatever it takes.
#[cycle(values)]
#[inline(never)]
fn value_asked(scene: &Scene, scope: &Bindings, expr: &CardExpr, name: u16) -> Option<u16>
    requires fits { length scope.now + card_depth (card_seen expr.now) ≤ 5 }
    ensures { result ≡ attr_of_any (scene_seen scene.now) name
        (card_value (scene_seen scene.now) scope.now (card_seen expr.now)) }
{
    attr_of(scene, card_of(scene, scope, expr), name)
}

// What the card that an expression stands for is worth.
#[cycle(values)]
fn points_of(scene: &Scene, scope: &Bindings, expr: &CardExpr, map: u16) -> i64
    requires fits { length scope.now + card_depth (card_seen expr.now) ≤ 5 }
    ensures { result ≡ worth_of_any (scene_seen scene.now) map
        (card_value (scene_seen scene.now) scope.now (card_seen expr.now)) }
{
    worth_of_id(scene, id_or_none(card_of(scene, scope, expr)), map)
}

#[cycle(values)]
fn pick_card(scene: &Scene, scope: &Bindings, expr: &CollExpr, pick: Which) -> Option<Card>
    requires fits { length scope.now + coll_depth (coll_seen expr.now) ≤ 5 }
    ensures { option_map value_seen result
        ≡ picked_of (scene_seen scene.now) pick (coll_value (scene_seen scene.now) scope.now (coll_seen expr.now)) }
{
    match bare(&*scene, &*scope, expr) {
        Some(cards) => pick_from(scene, &cards, pick),
        None => picked_built(scene, scope, expr, pick),
    }
}

#[cycle(values)]
#[inline(never)]
fn picked_built(scene: &Scene, scope: &Bindings, expr: &CollExpr, pick: Which) -> Option<Card>
    requires fits { length scope.now + coll_depth (coll_seen expr.now) ≤ 5 }
    ensures { option_map value_seen result
        ≡ picked_of (scene_seen scene.now) pick (coll_value (scene_seen scene.now) scope.now (coll_seen expr.now)) }
{
    let mut room = Cards::new();
    coll_of(scene, scope, expr, &mut room);
    pick_from(scene, &Collection::of_cards(room.as_slice()), pick)
}

/// The number that an expression stands for.
#[cycle(values)]
pub fn int_of(scene: &Scene, scope: &Bindings, expr: &IntExpr) -> i64
    requires fits { length scope.now + int_depth (int_seen expr.now) ≤ 5 }
    ensures { result ≡ int_value (scene_seen scene.now) scope.now (int_seen expr.now) }
{
    match number_at_hand(&*scene, &*scope, expr) {
        Some(number) => number,
        None => int_asked(scene, scope, expr),
    }
}

// The same, whatever it takes.
#[cycle(values)]
#[inline(never)]
fn int_asked(scene: &Scene, scope: &Bindings, expr: &IntExpr) -> i64
    requires fits { length scope.now + int_depth (int_seen expr.now) ≤ 5 }
    ensures { result ≡ int_value (scene_seen scene.now) scope.now (int_seen expr.now) }
{
    match expr {
        IntExpr::Lit(value) => *value,
        IntExpr::Num(num) => number_of(scene, scope, num),
        IntExpr::Size(cards) => count_of(scene, scope, cards) as i64,
        IntExpr::Sum(cards, map) => sum_of(scene, scope, cards, *map),
        IntExpr::Points(card, map) => points_of(scene, scope, card, *map),
        IntExpr::Add(_, _) => arithmetic_value(scene, scope, expr),
        IntExpr::Sub(_, _) => arithmetic_value(scene, scope, expr),
        IntExpr::Mul(_, _) => arithmetic_value(scene, scope, expr),
    }
}

// A number that is made of two others. In a function of its own, so that the others are found with nothing to be kept
// meanwhile.
#[cycle(values)]
#[inline(never)]
fn arithmetic_value(scene: &Scene, scope: &Bindings, expr: &IntExpr) -> i64
    requires made { is_calculated (int_seen expr.now) ≡ true }
    requires fits { length scope.now + int_depth (int_seen expr.now) ≤ 5 }
    ensures { result ≡ int_value (scene_seen scene.now) scope.now (int_seen expr.now) }
{
    match expr {
        IntExpr::Add(a, b) => clamped_sum(int_of(scene, scope, a), int_of(scene, scope, b)),
        IntExpr::Sub(a, b) => clamped_difference(int_of(scene, scope, a), int_of(scene, scope, b)),
        IntExpr::Mul(a, b) => clamped_product(int_of(scene, scope, a), int_of(scene, scope, b)),
        _ => unreachable!(),
    }
}

// How many cards a collection has. Those of several parts are counted where they stand.
#[cycle(values)]
fn count_of(scene: &Scene, scope: &Bindings, expr: &CollExpr) -> usize
    requires fits { length scope.now + coll_depth (coll_seen expr.now) ≤ 5 }
    ensures count { result ≡ length (coll_value (scene_seen scene.now) scope.now (coll_seen expr.now)) }
    ensures few { result ≤ most_in_collection }
{
    match expr {
        CollExpr::Var(var) => scope.group(*var).len(),
        CollExpr::Loc(loc) => ids_of(scene, scope, loc).len(),
        CollExpr::Filter(_, _, _) => count_filtered(scene, scope, expr),
        CollExpr::Union(parts) => count_parts(scene, scope, parts),
        CollExpr::Known(_) => count_built(scene, scope, expr),
    }
}

// The same, of cards that stand in a list and are to have one value, with no list of those that pass.
#[cycle(values)]
#[inline(never)]
fn count_filtered(scene: &Scene, scope: &Bindings, expr: &CollExpr) -> usize
    requires fits { length scope.now + coll_depth (coll_seen expr.now) ≤ 5 }
    ensures count { result ≡ length (coll_value (scene_seen scene.now) scope.now (coll_seen expr.now)) }
    ensures few { result ≤ most_in_collection }
{
    match expr {
        CollExpr::Filter(cards, _, test) => match bare(&*scene, &*scope, cards) {
            Some(all) => match sought_of(scene, scope, test) {
                Some(sought) => count_as_sought(scene, sought, &all),
                None => count_built(scene, scope, expr),
            },
            None => count_built(scene, scope, expr),
        },
        _ => count_built(scene, scope, expr),
    }
}

#[cycle(values)]
#[inline(never)]
fn count_built(scene: &Scene, scope: &Bindings, expr: &CollExpr) -> usize
    requires fits { length scope.now + coll_depth (coll_seen expr.now) ≤ 5 }
    ensures count { result ≡ length (coll_value (scene_seen scene.now) scope.now (coll_seen expr.now)) }
    ensures few { result ≤ most_in_collection }
{
    let mut room = Cards::new();
    coll_of(scene, scope, expr, &mut room);
    room.len()
}

#[cycle(values)]
#[tactic(auto, using(crate::proofs::Steps::colls_here))]
fn count_parts(scene: &Scene, scope: &Bindings, parts: &Vec<CollExpr>) -> usize
    requires fits { length scope.now + colls_depth (colls_seen parts.now.items) ≤ 5 }
    ensures count { result ≡ length (cut (colls_value (scene_seen scene.now) scope.now (colls_seen parts.now.items))) }
    ensures few { result ≤ most_in_collection }
{
    let mut count = 0;
    for part in parts {
        let more = count_of(scene, scope, part).min(MOST_IN_COLLECTION - count);
        count += more;
    }
    count
}

// The sum of what the cards of a collection are worth.
#[cycle(values)]
fn sum_of(scene: &Scene, scope: &Bindings, expr: &CollExpr, map: u16) -> i64
    requires fits { length scope.now + coll_depth (coll_seen expr.now) ≤ 5 }
    ensures { result ≡ sum_worth (scene_seen scene.now) map
        (coll_value (scene_seen scene.now) scope.now (coll_seen expr.now)) }
{
    match bare(&*scene, &*scope, expr) {
        Some(cards) => sum(scene, &cards, map),
        None => sum_built(scene, scope, expr, map),
    }
}

#[cycle(values)]
#[inline(never)]
fn sum_built(scene: &Scene, scope: &Bindings, expr: &CollExpr, map: u16) -> i64
    requires fits { length scope.now + coll_depth (coll_seen expr.now) ≤ 5 }
    ensures { result ≡ sum_worth (scene_seen scene.now) map
        (coll_value (scene_seen scene.now) scope.now (coll_seen expr.now)) }
{
    let mut room = Cards::new();
    coll_of(scene, scope, expr, &mut room);
    sum(scene, &Collection::of_cards(room.as_slice()), map)
}

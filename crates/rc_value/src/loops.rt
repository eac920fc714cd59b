//! Loops over the cards of a collection.
ghost use Rattle.std.specs.Prelude.{◌≡◌, ◌++◌, ◌∷◌, [], ◌≤◌, length, map, fold, pos, ◌+ℤ◌, int_lt};
ghost use Rattle.std.specs.Prelude.{option_map, if◌then◌else◌};
ghost use Rattle.rc_base.specs.Clamp.{clamped};
ghost use Rattle.rc_base.specs.Limits.{most_in_collection, most_in_list};
ghost use Rattle.rc_play_spec.specs.Scene.{held};
ghost use Rattle.rc_play_spec.specs.Value.{cut, sum_worth, best_of, int_more, worth};
ghost use Rattle.rc_value.specs.Cards.{value_seen, values_seen};
ghost use Rattle.rc_value.specs.Picks.{picked_of};
ghost use Rattle.rc_value.specs.Scene.{scene_seen};

use crate::collection::Collection;
use crate::leaves::worth_of;
use crate::scene::Scene;
use crate::{Card, Cards};
use rc_base::limits::{LARGEST_NUMBER, MOST_IN_COLLECTION};

/// Which card of a collection.
#[derive(Clone, Copy)]
pub enum Which {
    Top,
    Bottom,
    Max(u16),
    Min(u16),
}

/// The card of a collection.
pub fn pick_from(scene: &Scene, cards: &Collection, pick: Which) -> Option<Card>
    ensures { option_map value_seen result ≡ picked_of (scene_seen scene.now) pick cards.now }
{
    match pick {
        Which::Top => cards.last(),
        Which::Bottom => cards.first(),
        Which::Max(map) => best(scene, cards, map, true),
        Which::Min(map) => best(scene, cards, map, false),
    }
}

/// Puts the cards of a collection behind others, as long as there is room.
pub fn append(all: &mut Cards, more: &Collection)
    ensures cards { values_seen all.new.items ≡ cut (values_seen all.old.items ++ more.now) }
    ensures few { length all.new.items ≤ most_in_collection }
{
    let room = MOST_IN_COLLECTION - all.len();
    for place in 0..more.len().min(room) {
        all.push(more.at(place));
    }
}

// Puts a card behind others, if there is room.
#[inline(always)]
fn push(cards: &mut Cards, card: Card)
    ensures cards { values_seen cards.new.items ≡ cut (values_seen cards.old.items ++ value_seen card ∷ []) }
    ensures few { length cards.new.items ≤ most_in_collection }
{
    if cards.len() < MOST_IN_COLLECTION {
        cards.push(card);
    }
}

/// The same, where it passes.
#[inline(always)]
pub fn push_if(cards: &mut Cards, card: Card, passes: bool)
    ensures cards { values_seen cards.new.items
        ≡ (if passes then cut (values_seen cards.old.items ++ value_seen card ∷ []) else values_seen cards.old.items) }
    ensures few { length cards.new.items ≤ most_in_collection }
{
    // what a list keeps
    let _count = cards.len();
    if passes {
        push(cards, card);
    }
}

/// The sum of what the cards are worth.
pub fn sum(scene: &Scene, cards: &Collection, map: u16) -> i64
    ensures { result ≡ sum_worth (scene_seen scene.now) map cards.now }
{
    match cards.ids() {
        Some(ids) => sum_of_ids(scene, ids, map),
        None => sum_one_by_one(scene, cards, map),
    }
}

// The same of the cards with these ids.
fn sum_of_ids(scene: &Scene, ids: &[u16], points: u16) -> i64
    requires few { length ids.now ≤ most_in_list }
    ensures { result ≡ clamped (fold ◌+ℤ◌ (pos 0) (map (λ id. worth (scene_seen scene.now) points (held id)) ids.now)) }
{
    let mut sum = 0i64;
    for place in 0..ids.len() {
        sum += worth_of(scene, Card::Held(ids[place]), points);
    }
    sum.clamp(-LARGEST_NUMBER, LARGEST_NUMBER)
}

fn sum_one_by_one(scene: &Scene, cards: &Collection, map: u16) -> i64
    ensures { result ≡ sum_worth (scene_seen scene.now) map cards.now }
{
    let mut sum = 0i64;
    for place in 0..cards.len() {
        sum += worth_of(scene, cards.at(place), map);
    }
    sum.clamp(-LARGEST_NUMBER, LARGEST_NUMBER)
}

// The first of the largest, or of the smallest.
fn best(scene: &Scene, cards: &Collection, map: u16, largest: bool) -> Option<Card>
    ensures { option_map value_seen result
        ≡ best_of (if largest then int_more else int_lt) (worth (scene_seen scene.now) map) cards.now }
{
    let count = cards.len();
    if count == 0 {
        return None;
    }
    let mut found = cards.at(0);
    for place in 1..count {
        found = better(scene, found, cards.at(place), map, largest);
    }
    Some(found)
}

// The other card, where it is worth more, or less.
fn better(scene: &Scene, found: Card, other: Card, map: u16, largest: bool) -> Card
    ensures { value_seen result ≡ (if (if largest then int_more else int_lt)
        (worth (scene_seen scene.now) map (value_seen other))
        (worth (scene_seen scene.now) map (value_seen found)) then value_seen other else value_seen found) }
{
    let a = worth_of(scene, other, map);
    let b = worth_of(scene, found, map);
    let is_better = if largest { a > b } else { a < b };
    if is_better { other } else { found }
}

//! What is sought in cards: a value for an attribute, the face of another card, or a worth.
ghost use Rattle.std.specs.Prelude.{◌≡◌, ◌≤◌, ◌++◌, length, filter, option_map, true};
ghost use Rattle.rc_base.specs.Limits.{most_in_collection, most_in_list};
ghost use Rattle.rc_play_spec.specs.Value.{cut};
ghost use Rattle.rc_value.specs.Cards.{value_seen, values_seen};
ghost use Rattle.rc_value.specs.Over.{over};
ghost use Rattle.rc_value.specs.Scene.{scene_seen};
ghost use Rattle.rc_value.specs.Sought.{face_value, reversed, sought_value, worth_value};
ghost use Rattle.rc_value.specs.declared.sought.Sought.TheVariants.{Value, Face};

use crate::collection::Collection;
use crate::comparing::compare;
use crate::leaves::{are_same, worth_of};
use crate::loops::push_if;
use crate::scene::Scene;
use crate::wanted::{SoughtValue, are_met_in, count_if, count_met_in, is_as_wanted};
use crate::{Card, Cards};
use rc_code::Comparator;

/// A card whose face others are to have, or not to have. Where there is none, no card has its face.
#[derive(Clone, Copy)]
pub struct SoughtFace {
    pub card: Option<Card>,
    pub equal: bool,
}

/// How what a card is worth by a point map is to compare with a number, or is not to. The number takes half a word, as
/// all numbers of a game fit there, so that what is sought stays short: it is handed on again and again.
#[derive(Clone, Copy)]
pub struct SoughtWorth {
    pub map: u16,
    pub how: Comparator,
    pub against: i32,
    pub equal: bool,
}

/// What a test asks of a card, where all else that it reads is the same for each card.
#[derive(Clone, Copy)]
pub enum Sought {
    Value(SoughtValue),
    Face(SoughtFace),
    Worth(SoughtWorth),
}

/// Whether what a card is worth is so.
#[inline(always)]
pub fn is_worth(scene: &Scene, sought: SoughtWorth, card: Card) -> bool
    ensures { result ≡ worth_value (scene_seen scene.now) sought (value_seen card) }
{
    let worth = worth_of(scene, card, sought.map);
    let is = compare(sought.how, worth, sought.against as i64);
    if sought.equal { is } else { !is }
}

// Whether a card's face is so.
#[inline(always)]
fn is_like(scene: &Scene, likeness: SoughtFace, card: Card) -> bool
    ensures { result ≡ face_value (scene_seen scene.now) likeness (value_seen card) }
{
    let same = are_same(scene, Some(card), likeness.card);
    if likeness.equal { same } else { !same }
}

// Whether a card is as it is sought.
#[inline(always)]
fn is_as_sought(scene: &Scene, sought: Sought, card: Card) -> bool
    ensures { result ≡ sought_value (scene_seen scene.now) sought (value_seen card) }
{
    match sought {
        Sought::Value(wanted) => is_as_wanted(scene, wanted, card),
        Sought::Face(likeness) => is_like(scene, likeness, card),
        Sought::Worth(worth) => is_worth(scene, worth, card),
    }
}

/// To have a value for an attribute.
#[inline(always)]
pub(crate) fn same_value(name: u16, value: Option<u16>) -> Sought
    ensures { result ≡ Value (record { name = name; value = value; equal = true }) }
{
    Sought::Value(SoughtValue {
        name,
        value,
        equal: true,
    })
}

/// To have the face of a card.
#[inline(always)]
pub(crate) fn same_face(card: Option<Card>) -> Sought
    ensures { result ≡ Face (record { card = card; equal = true }) }
{
    Sought::Face(SoughtFace { card, equal: true })
}

/// The opposite of what is sought.
#[inline(always)]
pub(crate) fn opposite(sought: Option<Sought>) -> Option<Sought>
    ensures { result ≡ option_map reversed sought }
{
    match sought {
        Some(Sought::Value(wanted)) => Some(Sought::Value(SoughtValue {
            name: wanted.name,
            value: wanted.value,
            equal: !wanted.equal,
        })),
        Some(Sought::Face(likeness)) => Some(Sought::Face(SoughtFace {
            card: likeness.card,
            equal: !likeness.equal,
        })),
        Some(Sought::Worth(worth)) => Some(Sought::Worth(SoughtWorth {
            map: worth.map,
            how: worth.how,
            against: worth.against,
            equal: !worth.equal,
        })),
        None => None,
    }
}

/// Whether one of the cards is so, or all of them.
pub fn are_as_sought(scene: &Scene, sought: Sought, cards: &Collection, any: bool) -> bool
    ensures { result ≡ over any (sought_value (scene_seen scene.now) sought) cards.now }
{
    if let Sought::Value(wanted) = sought {
        if let Some(ids) = cards.ids() {
            if let Some(row) = scene.lookup.values(wanted.name) {
                return are_met_in(row, wanted, ids, any);
            }
        }
    }
    are_one_by_one(scene, sought, cards, any)
}

// The same, card by card.
#[inline(never)]
fn are_one_by_one(scene: &Scene, sought: Sought, cards: &Collection, any: bool) -> bool
    ensures { result ≡ over any (sought_value (scene_seen scene.now) sought) cards.now }
{
    for place in 0..cards.len() {
        if is_as_sought(scene, sought, cards.at(place)) == any {
            return any;
        }
    }
    !any
}

/// How many of the cards are so.
pub(crate) fn count_as_sought(scene: &Scene, sought: Sought, cards: &Collection) -> usize
    ensures count { result ≡ length (filter (sought_value (scene_seen scene.now) sought) cards.now) }
    ensures few { result ≤ most_in_list }
{
    if let Sought::Value(wanted) = sought {
        if let Some(ids) = cards.ids() {
            if let Some(row) = scene.lookup.values(wanted.name) {
                return count_met_in(row, wanted, ids);
            }
        }
    }
    count_one_by_one(scene, sought, cards)
}

// The same, card by card.
#[inline(never)]
fn count_one_by_one(scene: &Scene, sought: Sought, cards: &Collection) -> usize
    ensures count { result ≡ length (filter (sought_value (scene_seen scene.now) sought) cards.now) }
    ensures few { result ≤ most_in_list }
{
    let mut count = 0;
    for place in 0..cards.len() {
        count = count_if(count, is_as_sought(scene, sought, cards.at(place)));
    }
    count
}

/// Puts the cards that are so behind others, as long as there is room. There is a loop for each kind.
pub(crate) fn add_as_sought(scene: &Scene, sought: Sought, cards: &Collection, out: &mut Cards)
    ensures cards { values_seen out.new.items
        ≡ cut (values_seen out.old.items ++ filter (sought_value (scene_seen scene.now) sought) cards.now) }
    ensures few { length out.new.items ≤ most_in_collection }
{
    match sought {
        Sought::Value(wanted) => add_each(scene, Sought::Value(wanted), cards, out),
        Sought::Face(likeness) => add_each(scene, Sought::Face(likeness), cards, out),
        Sought::Worth(worth) => add_each(scene, Sought::Worth(worth), cards, out),
    }
}

// The same, card by card.
#[inline(always)]
fn add_each(scene: &Scene, sought: Sought, cards: &Collection, out: &mut Cards)
    ensures cards { values_seen out.new.items
        ≡ cut (values_seen out.old.items ++ filter (sought_value (scene_seen scene.now) sought) cards.now) }
    ensures few { length out.new.items ≤ most_in_collection }
{
    // what a list keeps
    let _count = out.len();
    for place in 0..cards.len() {
        let card = cards.at(place);
        push_if(out, card, is_as_sought(scene, sought, card));
    }
}

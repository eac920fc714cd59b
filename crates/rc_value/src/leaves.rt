//! What a scene says of cards, locations and numbers.
ghost use Rattle.std.specs.Prelude.{◌≡◌, option_map, slice_get, slice_index_or, Option, Some, None, if◌then◌else◌, pos};
ghost use Rattle.rc_base.specs.Clamp.{IsWithinClamp};
ghost use Rattle.rc_base.specs.Deck.{value_at as value_at_of};
ghost use Rattle.rc_play_spec.specs.Shape.{face_at, face_eq, holds_references};
ghost use Rattle.rc_play_spec.specs.Scene.{CardValue, id_of};
ghost use Rattle.rc_play_spec.specs.Value.{worth, worth_of_any, attr_of_any, both, loc_place, num_place, number_there, cards_there, cut};
ghost use Rattle.rc_ast.specs.Names.{loc_seen, num_seen};
ghost use Rattle.rc_value.specs.Cards.{value_seen};
ghost use Rattle.rc_value.specs.Scene.{scene_seen};

use crate::Card;
use crate::collection::Collection;
use crate::lookup::{loc_at, num_at};
use crate::scene::Scene;
use crate::scope::Bindings;
use rc_ast::{Loc, Num};
use rc_deck::attr;
use rc_table::{Shape, have_same_face};

/// What a card is worth by a point map.
#[tactic(auto, unfolding(crate::specs::Scene::scene_seen))]
#[inline(always)]
pub fn worth_of(scene: &Scene, card: Card, map: u16) -> i64
    ensures worth { result ≡ worth (scene_seen scene.now) map (value_seen card) }
    ensures few { IsWithinClamp result }
{
    match scene.lookup.worths(map) {
        Some(row) => worth_in(row, card.id()),
        None => 0,
    }
}

// What a card is worth by the row of a point map; what isn't a card is worth nothing.
#[inline(always)]
fn worth_in(row: &[i64], id: u16) -> i64
    ensures { result ≡ slice_index_or row.now id (pos 0) }
{
    match row.get(id as usize) {
        Some(worth) => *worth,
        None => 0,
    }
}

/// What the card with an id is worth by a point map; no card is worth nothing.
#[inline(always)]
pub fn worth_of_id(scene: &Scene, id: Option<u16>, map: u16) -> i64
    ensures { (card : Option CardValue) → id ≡ option_map id_of card
        → result ≡ worth_of_any (scene_seen scene.now) map card }
{
    match id {
        Some(id) => worth_of(scene, Card::Held(id), map),
        None => 0,
    }
}

/// The value of the card with an id for an attribute, if there is an id and its card has one.
#[inline(always)]
pub fn attr_of_id(scene: &Scene, id: Option<u16>, name: u16) -> Option<u16>
    ensures { (card : Option CardValue) → id ≡ option_map id_of card
        → result ≡ attr_of_any (scene_seen scene.now) name card }
{
    match id {
        Some(id) => value_at(scene, id, name),
        None => None,
    }
}

/// The value of a card for an attribute, if there is a card and it has one.
#[tactic(auto, unfolding(crate::specs::Scene::scene_seen))]
#[inline(always)]
pub fn attr_of(scene: &Scene, card: Option<Card>, name: u16) -> Option<u16>
    ensures { result ≡ attr_of_any (scene_seen scene.now) name (option_map value_seen card) }
{
    match card {
        Some(card) => value_at(scene, card.id(), name),
        None => None,
    }
}

// The same for the card with this number.
#[tactic(auto, unfolding(crate::specs::Scene::scene_seen))]
#[inline(always)]
fn value_at(scene: &Scene, id: u16, name: u16) -> Option<u16>
    ensures { result ≡ value_at_of (face_at scene.now.table.now.shape id) name }
{
    match scene.lookup.values(name) {
        Some(row) => value_in(row, id),
        None => pairs_value(scene.table.shape(), id, name),
    }
}

// The same, read off the pairs of the card's face.
fn pairs_value(shape: &Shape, id: u16, name: u16) -> Option<u16>
    ensures { result ≡ value_at_of (face_at shape.now id) name }
{
    match shape.face(id) {
        Some(face) => attr(face, name),
        None => None,
    }
}

/// The value of the card with this id in the row of an attribute; what isn't a card has none.
#[inline(always)]
pub fn value_in(row: &[Option<u16>], id: u16) -> Option<u16>
    ensures { result ≡ slice_index_or row.now id None }
{
    match row.get(id as usize) {
        Some(value) => *value,
        None => None,
    }
}

/// Whether two cards have the same face, or both are nothing.
#[tactic(auto, unfolding(crate::specs::Scene::scene_seen))]
pub fn are_same(scene: &Scene, a: Option<Card>, b: Option<Card>) -> bool
    ensures { result ≡ both face_eq (option_map (scene_seen scene.now).face (option_map value_seen a))
        (option_map (scene_seen scene.now).face (option_map value_seen b)) }
{
    match a {
        None => b.is_none(),
        Some(a) => match b {
            None => false,
            Some(b) => have_same_face(scene.table.shape(), a.id(), b.id()),
        },
    }
}

/// The value of a number that the game keeps, and 0 where there is no such number.
#[tactic(auto, unfolding(crate::specs::Scene::scene_seen))]
#[inline(always)]
pub fn number_of(scene: &Scene, scope: &Bindings, num: &Num) -> i64
    ensures { result ≡ number_there (scene_seen scene.now).known.numbers
        (num_place (scene_seen scene.now).known scope.now (num_seen num.now)) }
{
    match num_at(scene, scope, num) {
        Some(num) => scene.table.number(num),
        None => 0,
    }
}

// The location, where it holds references.
#[inline(always)]
fn mem_at(shape: &Shape, loc: u16) -> Option<u16>
    ensures { result ≡ (if holds_references (slice_get shape.now.places loc) then Some loc else None) }
{
    if shape.holds_references(loc) {
        Some(loc)
    } else {
        None
    }
}

/// The cards of a location, and none where there is no such location.
#[tactic(auto, unfolding(crate::specs::Scene::scene_seen))]
#[inline(always)]
pub fn cards_of<'a>(scene: &'a Scene, scope: &Bindings, loc: &Loc) -> Collection<'a>
    ensures { result ≡ cut (cards_there (scene_seen scene.now)
        (loc_place (scene_seen scene.now).known scope.now (loc_seen loc.now))) }
{
    match loc_at(scene, scope, loc) {
        Some(loc) => Collection::there(scene.table.list(loc), mem_at(scene.table.shape(), loc)),
        None => Collection::of_cards(&[]),
    }
}

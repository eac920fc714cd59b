//! Groups of cards with equal values of an attribute.
ghost use Rattle.std.specs.Prelude.{◌≡◌, ◌+◌, ◌<◌, ◌≤◌, [], length, filter, filter_map, slice_index_or, Some, if◌then◌else◌, ◌++◌, ◌∷◌};
ghost use Rattle.rc_base.specs.Limits.{most_in_collection};
ghost use Rattle.rc_sheet_spec.specs.WellFormed.{is_among};
ghost use Rattle.rc_play_spec.specs.Value.{attr_of as attr_value, both, nat_same, firsts};
ghost use Rattle.rc_value.specs.Cards.{value_seen, values_seen};
ghost use Rattle.rc_value.specs.Groups.{noted_in};
ghost use Rattle.rc_value.specs.Scene.{scene_seen};

use crate::collection::Collection;
use crate::leaves::attr_of;
use crate::scene::Scene;
use crate::{Card, Cards};
use arrayvec::ArrayVec;
use rc_base::limits::MOST_IN_COLLECTION;

/// Values of an attribute.
pub type Values = ArrayVec<u16, MOST_IN_COLLECTION>;

/// Writes the different values that cards have for an attribute into an empty list, in order of first appearance.
pub fn note_values(scene: &Scene, cards: &Collection, name: u16, values: &mut Values)
    requires empty { values.old.items ≡ [] }
    ensures { values.new.items ≡ firsts (filter_map (attr_value (scene_seen scene.now) name) cards.now) }
{
    for place in 0..cards.len() {
        note(values, attr_of(scene, Some(cards.at(place)), name));
    }
}

/// The value at a place.
pub fn value_at(values: &Values, place: usize) -> u16
    requires { place < length values.now.items }
    ensures { result ≡ slice_index_or values.now.items place result }
{
    values[place]
}

// Puts a value behind others, where it isn't among them.
fn note(values: &mut Values, value: Option<u16>)
    requires { length values.old.items < most_in_collection }
    ensures values { values.new.items ≡ noted_in values.old.items value }
    ensures few { length values.new.items ≤ length values.old.items + 1 }
{
    if let Some(value) = value {
        if !is_known(values, value) {
            values.push(value);
        }
    }
}

fn is_known(values: &Values, value: u16) -> bool
    ensures { result ≡ is_among value values.now.items }
{
    values.as_slice().iter().any(|other| value == *other)
}

/// Writes the cards that have this value of the attribute into a list, whatever it held before.
pub fn regroup(scene: &Scene, cards: &Collection, name: u16, value: u16, group: &mut Cards)
    ensures { values_seen group.new.items
        ≡ filter (λ c. both nat_same (attr_value (scene_seen scene.now) name c) (Some value)) cards.now }
{
    group.clear();
    for place in 0..cards.len() {
        let card = cards.at(place);
        let has = has_value(scene, card, name, value);
        put(group, card, has);
    }
}

fn has_value(scene: &Scene, card: Card, name: u16, value: u16) -> bool
    ensures { result ≡ both nat_same (attr_value (scene_seen scene.now) name (value_seen card)) (Some value) }
{
    attr_of(scene, Some(card), name) == Some(value)
}

// Puts a card behind others, where it passes.
fn put(cards: &mut Cards, card: Card, passes: bool)
    requires room { length cards.old.items < most_in_collection }
    ensures cards { values_seen cards.new.items
        ≡ (if passes then values_seen cards.old.items ++ value_seen card ∷ [] else values_seen cards.old.items) }
    ensures few { length cards.new.items ≤ length cards.old.items + 1 }
{
    if passes {
        cards.push(card);
    }
}

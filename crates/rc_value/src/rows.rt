//! What stands in a location, read off its row of ids.
ghost use Rattle.std.specs.Prelude.{◌≡◌, ◌≤◌, length, map, option_map, slice_get};
ghost use Rattle.rc_base.specs.Limits.{most_in_list};
ghost use Rattle.rc_play_spec.specs.Ends.{first_of, last_of};
ghost use Rattle.rc_play_spec.specs.Scene.{id_of, value_in};
ghost use Rattle.rc_play_spec.specs.Shape.{holds_references};
ghost use Rattle.rc_play_spec.specs.Value.{cards_there, cut, loc_place};
ghost use Rattle.rc_ast.specs.Names.{loc_seen};
ghost use Rattle.rc_value.specs.Cards.{value_seen};
ghost use Rattle.rc_value.specs.Scene.{scene_seen};

use crate::Card;
use crate::lookup::loc_at;
use crate::scene::Scene;
use crate::scope::Bindings;
use rc_ast::Loc;
use rc_table::Shape;

/// The ids of the cards of a location, from bottom to top.
#[tactic(auto, unfolding(crate::specs::Scene::scene_seen))]
#[inline(always)]
pub fn ids_of<'a>(scene: &'a Scene, scope: &Bindings, loc: &Loc) -> &'a [u16]
    ensures ids { result.now ≡ map id_of
        (cut (cards_there (scene_seen scene.now)
        (loc_place (scene_seen scene.now).known scope.now (loc_seen loc.now)))) }
    ensures few { length result.now ≤ most_in_list }
{
    match loc_at(scene, scope, loc) {
        Some(at) => scene.table.list(at),
        None => &[],
    }
}

#[inline(always)]
fn last(ids: &[u16]) -> Option<u16>
    ensures { result ≡ last_of ids.now }
{
    ids.last().copied()
}

#[inline(always)]
fn first(ids: &[u16]) -> Option<u16>
    ensures { result ≡ first_of ids.now }
{
    ids.first().copied()
}

/// The id of the card at the top of a location, if one is there.
#[inline(always)]
pub fn top_id(scene: &Scene, scope: &Bindings, loc: &Loc) -> Option<u16>
    ensures { result ≡ option_map id_of
        (last_of (cut (cards_there (scene_seen scene.now)
        (loc_place (scene_seen scene.now).known scope.now (loc_seen loc.now))))) }
{
    last(ids_of(scene, scope, loc))
}

// The card that an id of a location stands for, if there is one.
#[inline(always)]
fn card_in(shape: &Shape, loc: u16, id: Option<u16>) -> Option<Card>
    ensures { option_map value_seen result
        ≡ option_map (value_in (holds_references (slice_get shape.now.places loc)) loc) id }
{
    match id {
        Some(id) => {
            if shape.holds_references(loc) {
                Some(Card::Noted { loc, id })
            } else {
                Some(Card::Held(id))
            }
        }
        None => None,
    }
}

/// The card at the top of a location, if one is there.
#[tactic(auto, unfolding(crate::specs::Scene::scene_seen))]
#[inline(always)]
pub fn top_card(scene: &Scene, scope: &Bindings, loc: &Loc) -> Option<Card>
    ensures { option_map value_seen result
        ≡ last_of (cut (cards_there (scene_seen scene.now)
        (loc_place (scene_seen scene.now).known scope.now (loc_seen loc.now)))) }
{
    match loc_at(scene, scope, loc) {
        Some(at) => card_in(scene.table.shape(), at, last(scene.table.list(at))),
        None => None,
    }
}

/// The card at the bottom of a location, if one is there.
#[tactic(auto, unfolding(crate::specs::Scene::scene_seen))]
pub fn bottom_card(scene: &Scene, scope: &Bindings, loc: &Loc) -> Option<Card>
    ensures { option_map value_seen result
        ≡ first_of (cut (cards_there (scene_seen scene.now)
        (loc_place (scene_seen scene.now).known scope.now (loc_seen loc.now)))) }
{
    match loc_at(scene, scope, loc) {
        Some(at) => card_in(scene.table.shape(), at, first(scene.table.list(at))),
        None => None,
    }
}

//! The cards that the current player sees, wherever they are.
ghost use Rattle.std.specs.Prelude.{◌≡◌, ◌<◌, ◌≤◌, ◌++◌, length, map, filter, All};
ghost use Rattle.rc_base.specs.Limits.{most_in_collection};
ghost use Rattle.rc_play_spec.specs.Table.{is_marked};
ghost use Rattle.rc_play_spec.specs.Scene.{held};
ghost use Rattle.rc_play_spec.specs.Value.{cut, known_there, loc_place};
ghost use Rattle.rc_ast.specs.Names.{loc_seen};
ghost use Rattle.rc_value.specs.Cards.{values_seen};
ghost use Rattle.rc_value.specs.Scene.{scene_seen};

use crate::leaves::cards_of;
use crate::lookup::loc_at;
use crate::loops::{append, push_if};
use crate::scene::Scene;
use crate::scope::Bindings;
use crate::{Card, Cards};
use rc_ast::Loc;
use rc_table::{Table, sees};

/// Puts the cards of a location that the current player sees behind others, as long as there is room: all where it sees
/// the location, and otherwise those that are marked for it.
#[tactic(auto, unfolding(crate::specs::Scene::scene_seen))]
#[inline(never)]
pub fn add_known(scene: &Scene, scope: &Bindings, loc: &Loc, out: &mut Cards)
    ensures cards { values_seen out.new.items
        ≡ cut (values_seen out.old.items ++ cut (known_there (scene_seen scene.now)
        (loc_place (scene_seen scene.now).known scope.now (loc_seen loc.now)))) }
    ensures few { length out.new.items ≤ most_in_collection }
{
    // what a list keeps
    let _count = out.len();
    let Some(at) = loc_at(scene, scope, loc) else {
        return;
    };
    if sees(scene.table.shape(), scene.current.player, at) {
        append(out, &cards_of(scene, scope, loc));
        return;
    }
    add_marked(scene.table, scene.current.player, scene.table.list(at), out);
}

// Those with these ids that are marked for a seat.
fn add_marked(table: &Table, seat: u8, ids: &[u16], out: &mut Cards)
    requires ids { All (λ id. id < length table.now.shape.faces) ids.now }
    ensures cards { values_seen out.new.items
        ≡ cut (values_seen out.old.items ++ map held (filter (is_marked table.now.table.marks seat) ids.now)) }
    ensures few { length out.new.items ≤ most_in_collection }
{
    // what a list keeps
    let _count = out.len();
    for place in 0..ids.len() {
        let known = has_mark(table, ids[place], seat);
        push_if(out, Card::Held(ids[place]), known);
    }
}

// Whether a card is marked for a seat. None is for somebody who doesn't play.
fn has_mark(table: &Table, id: u16, seat: u8) -> bool
    requires { id < length table.now.shape.faces }
    ensures { result ≡ is_marked table.now.table.marks seat id }
{
    if seat >= table.shape().players() {
        return false;
    }
    table.is_marked(id, seat)
}

//! Where locations and numbers stand.
ghost use Rattle.std.specs.Prelude.{◌≡◌};
ghost use Rattle.rc_play_spec.specs.Value.{who_value, loc_place, num_place};
ghost use Rattle.rc_ast.specs.Names.{who_seen, loc_seen, num_seen};
ghost use Rattle.rc_value.specs.Scene.{scene_seen};

use crate::scene::Scene;
use crate::scope::Bindings;
use rc_ast::{Class, Loc, Num, Who};

/// The number of an owner: a player's or a team's, and 0 for the game.
#[tactic(auto, unfolding(crate::specs::Scene::scene_seen))]
#[inline(always)]
pub fn who_of(scene: &Scene, scope: &Bindings, who: &Who) -> u8
    ensures { result ≡ who_value (scene_seen scene.now).known scope.now (who_seen who.now) }
{
    match who {
        Who::Game => 0,
        Who::CurrentPlayer => scene.current.player,
        Who::CurrentTeam => scene.current.team,
        Who::TeamOfCurrent => scene.table.shape().team_of(scene.current.player),
        Who::TeamOfVar(var) => scene.table.shape().team_of(scope.player(*var)),
        Who::Var(var) => scope.player(*var),
    }
}

/// The number of a location, if there is one. Who owns it is told once, with the class that he is of: so a count tells
/// whether there is such a place.
#[inline(always)]
pub fn loc_at(scene: &Scene, scope: &Bindings, loc: &Loc) -> Option<u16>
    ensures { result ≡ loc_place (scene_seen scene.now).known scope.now (loc_seen loc.now) }
{
    let places = scene.lookup;
    match &loc.who {
        Who::Game => places.location(loc.name, Class::Game, 0),
        Who::CurrentPlayer => places.location(loc.name, Class::Player, scene.current.player),
        Who::Var(var) => places.location(loc.name, Class::Player, scope.player(*var)),
        _ => places.location(loc.name, Class::Team, who_of(scene, scope, &loc.who)),
    }
}

/// The number of a number that the game keeps, if there is one, found alike.
#[inline(always)]
pub fn num_at(scene: &Scene, scope: &Bindings, num: &Num) -> Option<u16>
    ensures { result ≡ num_place (scene_seen scene.now).known scope.now (num_seen num.now) }
{
    let places = scene.lookup;
    match &num.who {
        Who::Game => places.number(num.name, Class::Game, 0),
        Who::CurrentPlayer => places.number(num.name, Class::Player, scene.current.player),
        Who::Var(var) => places.number(num.name, Class::Player, scope.player(*var)),
        _ => places.number(num.name, Class::Team, who_of(scene, scope, &num.who)),
    }
}

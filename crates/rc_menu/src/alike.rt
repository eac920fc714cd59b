//! What is offered alike of all members of a domain: where a guard doesn't read which member it is asked of, it is
//! asked once, and how many members there are is all that is wanted of them.
ghost use Rattle.std.specs.Prelude.{◌≡◌, ◌+◌, ◌≤◌, ◌++◌, ◌∷◌, [], length, if◌then◌else◌, IfSome};
ghost use Rattle.rc_base.specs.Limits.{most_in_collection};
ghost use Rattle.rc_play_spec.specs.Menu.{spots_of};
ghost use Rattle.rc_play_spec.specs.Scene.{CardValue};
ghost use Rattle.rc_play_spec.specs.Value.{Bind as PureBind, coll_value, groups_by};
ghost use Rattle.rc_ast.specs.Expressions.{coll_seen};
ghost use Rattle.rc_ast.specs.Items.{alt_seen};
ghost use Rattle.rc_menu.specs.Alike.{may_read_in, AreGroups, AreGroupsOf};
ghost use Rattle.rc_value.specs.Binding.{alt_depth};
ghost use Rattle.rc_value.specs.Depth.{coll_depth};
ghost use Rattle.rc_value.specs.Scene.{scene_seen};

use rc_ast::{Alt, CollExpr, Domain};
use rc_flow::test_reads;
use rc_value::{
    Bind, Bindings, Cards, Collection, Scene, Values, bare, coll_of, is_fixed_collection,
    note_values, test_of,
};

/// Whether an alternative offers each member of the domain around it, or none. It isn't told where what it offers may
/// hang on the member.
#[inline(never)]
pub(crate) fn offered_alike(scene: &Scene, scope: &Bindings, inner: &Alt) -> Option<bool>
    requires fits { length scope.now + (1 + alt_depth (alt_seen inner.now)) ≤ 5 }
    ensures { IfSome result (λ passes. (m : PureBind CardValue) →
        spots_of (scene_seen scene.now) (scope.now ++ m ∷ []) (alt_seen inner.now) ≡ (if passes then [] ∷ [] else [])) }
{
    match inner {
        Alt::Do(_) => Some(true),
        Alt::If(guard, _) => {
            if test_reads(guard, scope.len()) {
                return None;
            }
            Some(test_of(scene, &scope.with(Bind::Player(0)), guard))
        }
        Alt::Any(_, _, _) => None,
    }
}

// How many different values these cards have for an attribute.
fn count_values(scene: &Scene, cards: &Collection, name: u16) -> usize
    ensures count { result ≡ length (groups_by (scene_seen scene.now) name cards.now) }
    ensures few { result ≤ most_in_collection }
{
    let mut values = Values::new();
    note_values(scene, cards, name, &mut values);
    values.len()
}

/// How many groups there are of the cards of an expression, which may be known.
pub(crate) fn groups_of(
    scene: &Scene,
    scope: &Bindings,
    cards: &CollExpr,
    name: u16,
    known: Option<usize>,
) -> usize
    requires known { AreGroupsOf (scene_seen scene.now) scope.now (coll_seen cards.now) name known }
    requires domain { length scope.now + coll_depth (coll_seen cards.now) ≤ 5 }
    ensures count { result ≡ length (groups_by (scene_seen scene.now) name
        (coll_value (scene_seen scene.now) scope.now (coll_seen cards.now))) }
    ensures few { result ≤ most_in_collection }
{
    match known {
        Some(count) => count,
        None => count_groups(scene, scope, cards, name),
    }
}

// How many there are. None is made.
fn count_groups(scene: &Scene, scope: &Bindings, cards: &CollExpr, name: u16) -> usize
    requires domain { length scope.now + coll_depth (coll_seen cards.now) ≤ 5 }
    ensures count { result ≡ length (groups_by (scene_seen scene.now) name
        (coll_value (scene_seen scene.now) scope.now (coll_seen cards.now))) }
    ensures few { result ≤ most_in_collection }
{
    match bare(scene, scope, cards) {
        Some(all) => count_values(scene, &all, name),
        None => count_built_groups(scene, scope, cards, name),
    }
}

// The same of cards that need a list of their own.
#[inline(never)]
fn count_built_groups(scene: &Scene, scope: &Bindings, cards: &CollExpr, name: u16) -> usize
    requires domain { length scope.now + coll_depth (coll_seen cards.now) ≤ 5 }
    ensures count { result ≡ length (groups_by (scene_seen scene.now) name
        (coll_value (scene_seen scene.now) scope.now (coll_seen cards.now))) }
    ensures few { result ≤ most_in_collection }
{
    let mut room = Cards::new();
    coll_of(scene, scope, cards, &mut room);
    count_values(scene, &Collection::of_cards(room.as_slice()), name)
}

// Whether an alternative's guard reads the variable at a place, or may do so behind further ones.
fn may_read(alt: &Alt, place: usize) -> bool
    ensures { result ≡ may_read_in place (alt_seen alt.now) }
{
    match alt {
        Alt::Do(_) => false,
        Alt::If(guard, _) => test_reads(guard, place),
        Alt::Any(_, _, _) => true,
    }
}

/// How many groups the domain of an alternative has, if they are the same for each member of the domain around it, and
/// nothing reads them.
#[inline(never)]
pub(crate) fn groups_inside(scene: &Scene, scope: &Bindings, inner: &Alt) -> Option<usize>
    requires fits { length scope.now + (1 + alt_depth (alt_seen inner.now)) ≤ 5 }
    ensures { (m : PureBind CardValue) →
        AreGroups (scene_seen scene.now) (scope.now ++ m ∷ []) (alt_seen inner.now) result }
{
    match inner {
        Alt::Any(domain, _, within) => match domain {
            Domain::Parts(cards, name) => {
                if !is_fixed_collection(cards) || may_read(within, scope.len() + 1) {
                    return None;
                }
                Some(count_groups(scene, scope, cards, *name))
            }
            _ => None,
        },
        _ => None,
    }
}

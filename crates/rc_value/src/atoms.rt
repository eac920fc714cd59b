//! Comparisons in flat form, which are read off the table with no walk over a tree.
ghost use Rattle.std.specs.Prelude.{◌≡◌};
ghost use Rattle.rc_play_spec.specs.Value.{int_value, test_value};
ghost use Rattle.rc_code.specs.FlatMeaning.{amount_meant, comparison_meant};
ghost use Rattle.rc_value.specs.Scene.{scene_seen};

use crate::comparing::compare;
use crate::leaves::{attr_of_id, number_of, worth_of_id};
use crate::rows::{ids_of, top_id};
use crate::scene::Scene;
use crate::scope::Bindings;
use rc_code::{Amount, Comparison};

// The number that a flat form stands for.
#[inline(always)]
fn amount_of(scene: &Scene, scope: &Bindings, amount: &Amount) -> i64
    ensures { result ≡ int_value (scene_seen scene.now) scope.now (amount_meant amount.now) }
{
    match amount {
        Amount::Literal(value) => *value,
        Amount::Number(num) => number_of(scene, scope, num),
        Amount::Size(loc) => ids_of(scene, scope, loc).len() as i64,
        Amount::Worth(loc, map) => worth_of_id(scene, top_id(scene, scope, loc), *map),
    }
}

/// Whether a comparison holds. It is too long to stand in line.
#[tactic(auto, using(crate::proofs::AtomLemmas::compared_is))]
#[inline(never)]
pub fn comparison_holds(scene: &Scene, scope: &Bindings, comparison: &Comparison) -> bool
    ensures { result ≡ test_value (scene_seen scene.now) scope.now (comparison_meant comparison.now) }
{
    match comparison {
        Comparison::Compare { how, one, other } => {
            let one = amount_of(scene, scope, one);
            let other = amount_of(scene, scope, other);
            compare(*how, one, other)
        }
        Comparison::Same {
            one,
            name,
            other,
            other_name,
        } => {
            let value = attr_of_id(scene, top_id(scene, scope, one), *name);
            let other_value = attr_of_id(scene, top_id(scene, scope, other), *other_name);
            value == other_value
        }
    }
}

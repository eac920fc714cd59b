//! Tests that are asked again and again. In flat form they are read off the table with no walk over a tree.
ghost use Rattle.std.specs.Prelude.{◌≡◌};
ghost use Rattle.rc_sheet_spec.specs.Sheet.{and_of, no_test, test};
ghost use Rattle.rc_play_spec.specs.Value.{test_value};
ghost use Rattle.rc_code.specs.FlatMeaning.{comparison_meant};
ghost use Rattle.rc_value.specs.Context.{scene_in, IsContextOf, in_scope};
ghost use Rattle.rc_value.specs.Under.{IsTestUnder};

use crate::comparison_holds;
use crate::context::{Context, scene_now};
use crate::reading::test_now;
use rc_code::{Comparison, CompiledTest, FlatTest};
use rc_rules::Frames;
use rc_table::Table;

#[inline(always)]
fn comparison_now(
    context: &Context,
    comparison: &Comparison,
    table: &Table,
    frames: &Frames,
) -> bool
    requires stands { IsContextOf context.now table.now frames.now.items }
    ensures { result ≡ test_value (scene_in context.now table.now frames.now.items) context.now.scope.now
        (comparison_meant comparison.now) }
{
    comparison_holds(
        &scene_now(context, table, frames),
        context.scope,
        comparison,
    )
}

#[inline(always)]
fn both_now(
    context: &Context,
    one: &Comparison,
    other: &Comparison,
    table: &Table,
    frames: &Frames,
) -> bool
    requires stands { IsContextOf context.now table.now frames.now.items }
    ensures { result ≡ test_value (scene_in context.now table.now frames.now.items) context.now.scope.now
        (and_of (test (comparison_meant one.now) (test (comparison_meant other.now) no_test))) }
{
    let scene = scene_now(context, table, frames);
    comparison_holds(&scene, context.scope, one) && comparison_holds(&scene, context.scope, other)
}

/// Whether a test holds.
#[inline(always)]
pub fn asked_now(context: &Context, asked: &CompiledTest, table: &Table, frames: &Frames) -> bool
    requires stands { IsContextOf context.now table.now frames.now.items }
    requires well { in_scope context.now IsTestUnder asked.now }
    ensures { result ≡ test_value (scene_in context.now table.now frames.now.items) context.now.scope.now asked.now }
{
    match asked.flat() {
        Some(FlatTest::One(comparison)) => comparison_now(context, comparison, table, frames),
        Some(FlatTest::Both(one, other)) => both_now(context, one, other, table, frames),
        _ => test_now(context, asked.test(), table, frames),
    }
}

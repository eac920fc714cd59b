//! What expressions stand for, now.
ghost use Rattle.std.specs.Prelude.{◌≡◌, ◌+◌, ◌≤◌, [], length, option_map, All, IfSome};
ghost use Rattle.rc_base.specs.Clamp.{IsWithinClamp};
ghost use Rattle.rc_sheet_spec.specs.WellFormed.{holds_references};
ghost use Rattle.rc_play_spec.specs.Value.{card_value, coll_value, int_value, test_value, who_value, loc_place, num_place};
ghost use Rattle.rc_play_spec.specs.Bound.{IsCardOf};
ghost use Rattle.rc_ast.specs.Names.{who_seen, loc_seen, num_seen};
ghost use Rattle.rc_ast.specs.Expressions.{card_seen, coll_seen, int_seen, test_seen};
ghost use Rattle.rc_value.specs.Cards.{value_seen, values_seen};
ghost use Rattle.rc_value.specs.Depth.{card_depth, int_depth};
ghost use Rattle.rc_value.specs.Context.{scene_in, IsContextOf, in_scope};
ghost use Rattle.rc_value.specs.Under.{IsCardUnder, IsCollUnder, IsIntUnder, IsTestUnder};
ghost use Rattle.rc_value.specs.Leads.{HoldsAs};

use crate::context::{Context, scene_now};
use crate::{
    Card, Cards, card_of, coll_of, expressions_bind_few, int_of, loc_at, num_at, test_of, who_of,
};
use rc_ast::{CardExpr, CollExpr, IntExpr, Loc, Num, Test, Who};
use rc_play_spec::values_stay_within_limits;
use rc_rules::Frames;
use rc_table::Table;

/// The card that an expression stands for, if there is one.
#[inline(always)]
pub fn card_now(context: &Context, expr: &CardExpr, table: &Table, frames: &Frames) -> Option<Card>
    requires stands { IsContextOf context.now table.now frames.now.items }
    requires well { in_scope context.now IsCardUnder (card_seen expr.now) }
    ensures card { option_map value_seen result
        ≡ card_value (scene_in context.now table.now frames.now.items) context.now.scope.now (card_seen expr.now) }
    ensures there { IfSome result (λ card. IsCardOf context.now.about.now.shape (value_seen card)) }
{
    expressions_bind_few();
    // what an about and a table keep
    let _fits = context.about.sheet();
    let _sound = table.shape();
    found_card(context, expr, table, frames)
}

// The same. What a variable stands for is read without a scene.
#[inline(always)]
fn found_card(context: &Context, expr: &CardExpr, table: &Table, frames: &Frames) -> Option<Card>
    requires stands { IsContextOf context.now table.now frames.now.items }
    requires fits { length context.now.scope.now + card_depth (card_seen expr.now) ≤ 5 }
    ensures { option_map value_seen result
        ≡ card_value (scene_in context.now table.now frames.now.items) context.now.scope.now (card_seen expr.now) }
{
    match expr {
        CardExpr::Var(var) => context.scope.card(*var),
        _ => card_of(&scene_now(context, table, frames), context.scope, expr),
    }
}

/// The cards that an expression stands for, written into an empty list.
pub fn cards_now(
    context: &Context,
    expr: &CollExpr,
    table: &Table,
    frames: &Frames,
    out: &mut Cards,
)
    requires stands { IsContextOf context.now table.now frames.now.items }
    requires well { in_scope context.now IsCollUnder (coll_seen expr.now) }
    requires empty { out.old.items ≡ [] }
    ensures cards { values_seen out.new.items
        ≡ coll_value (scene_in context.now table.now frames.now.items) context.now.scope.now (coll_seen expr.now) }
    ensures there { All (λ card. IsCardOf context.now.about.now.shape (value_seen card)) out.new.items }
{
    expressions_bind_few();
    // what an about and a table keep
    let _fits = context.about.sheet();
    let _sound = table.shape();
    coll_of(&scene_now(context, table, frames), context.scope, expr, out);
}

/// The number that an expression stands for.
#[inline(always)]
pub fn int_now(context: &Context, expr: &IntExpr, table: &Table, frames: &Frames) -> i64
    requires stands { IsContextOf context.now table.now frames.now.items }
    requires well { in_scope context.now IsIntUnder (int_seen expr.now) }
    ensures value { result ≡ int_value (scene_in context.now table.now frames.now.items) context.now.scope.now
        (int_seen expr.now) }
    ensures clamped { IsWithinClamp result }
{
    expressions_bind_few();
    values_stay_within_limits();
    // what a table keeps
    let _sound = table.shape();
    found_int(context, expr, table, frames)
}

// The same. A number that is written out is read without a scene.
#[inline(always)]
fn found_int(context: &Context, expr: &IntExpr, table: &Table, frames: &Frames) -> i64
    requires stands { IsContextOf context.now table.now frames.now.items }
    requires fits { length context.now.scope.now + int_depth (int_seen expr.now) ≤ 5 }
    ensures { result ≡ int_value (scene_in context.now table.now frames.now.items) context.now.scope.now
        (int_seen expr.now) }
{
    match expr {
        IntExpr::Lit(value) => *value,
        _ => int_of(&scene_now(context, table, frames), context.scope, expr),
    }
}

/// Whether a test holds.
#[inline(always)]
pub fn test_now(context: &Context, expr: &Test, table: &Table, frames: &Frames) -> bool
    requires stands { IsContextOf context.now table.now frames.now.items }
    requires well { in_scope context.now IsTestUnder (test_seen expr.now) }
    ensures { result ≡ test_value (scene_in context.now table.now frames.now.items) context.now.scope.now
        (test_seen expr.now) }
{
    expressions_bind_few();
    test_of(&scene_now(context, table, frames), context.scope, expr)
}

/// The number of an owner.
#[inline(always)]
pub fn who_now(context: &Context, who: Who, table: &Table, frames: &Frames) -> u8
    requires stands { IsContextOf context.now table.now frames.now.items }
    ensures { result ≡ who_value (scene_in context.now table.now frames.now.items).known context.now.scope.now
        (who_seen who) }
{
    who_of(&scene_now(context, table, frames), context.scope, &who)
}

/// The location that is meant, if there is one.
#[inline(always)]
pub fn loc_now(context: &Context, loc: &Loc, table: &Table, frames: &Frames) -> Option<u16>
    requires stands { IsContextOf context.now table.now frames.now.items }
    ensures location { result ≡ loc_place (scene_in context.now table.now frames.now.items).known context.now.scope.now
        (loc_seen loc.now) }
    ensures holds { IfSome result (λ at. HoldsAs context.now.about.now.shape
        (holds_references context.now.about.now.sheet loc.now.name) at) }
{
    // what an about keeps
    let _fits = context.about.sheet();
    loc_at(&scene_now(context, table, frames), context.scope, loc)
}

/// The place of the number that is meant, if there is one.
#[inline(always)]
pub fn num_now(context: &Context, num: &Num, table: &Table, frames: &Frames) -> Option<u16>
    requires stands { IsContextOf context.now table.now frames.now.items }
    ensures { result ≡ num_place (scene_in context.now table.now frames.now.items).known context.now.scope.now
        (num_seen num.now) }
{
    num_at(&scene_now(context, table, frames), context.scope, num)
}

//! Numbers that are set and changed.
ghost use Rattle.std.specs.Prelude.{◌≡◌, false, OnOk, IsOk};
ghost use Rattle.rc_base.specs.Clamp.{clamped, IsWithinClamp};
ghost use Rattle.rc_play_spec.specs.Effects as effects;
ghost use Rattle.rc_play_spec.specs.Value.{int_value};
ghost use Rattle.rc_ast.specs.Names.{num_seen};
ghost use Rattle.rc_ast.specs.Expressions.{int_seen};
ghost use Rattle.rc_table.specs.Laid.{relaid};
ghost use Rattle.rc_value.specs.Context.{scene_in, IsContextOf, in_scope};
ghost use Rattle.rc_value.specs.Under.{IsEffectUnder, IsIntUnder};
ghost use Rattle.rc_value.specs.declared.change.Change.TheVariants.{Set};
ghost use Rattle.rc_value.specs.Leads.{LeadsTo, effect_by, new_by};
ghost use Rattle.rc_undo.specs.Undo.{Keeps};

use rc_ast::{IntExpr, Num};
use rc_base::limits::LARGEST_NUMBER;
use rc_deck::Memory;
use rc_play_spec::values_stay_within_limits;
use rc_rules::Frames;
use rc_table::Table;
use rc_undo::Board;
use rc_value::{Change, Context, int_now, num_now, number_at_hand, scene_now};

/// Sets a number to the value of an expression. A value that is written out takes no call.
#[inline(never)]
pub fn set_number(
    context: &Context,
    num: &Num,
    value: &IntExpr,
    board: &mut Board,
    frames: &Frames,
) -> Result<(), Memory>
    requires stands { IsContextOf context.now board.old.laid frames.now.items }
    requires well { in_scope context.now IsEffectUnder (effect_by Set (num_seen num.now) (int_seen value.now)) }
    ensures leads { OnOk result (LeadsTo context.now
        (effect_by Set (num_seen num.now)
        (int_seen value.now)) board.old.laid frames.now.items board.new.laid frames.now.items) }
    ensures keeps { Keeps board.old board.new }
    ensures quiet { board.old.notes ≡ false → IsOk result }
{
    match value {
        IntExpr::Lit(_) => change(context, num, value, board, frames, Change::Set),
        _ => change_number(context, num, value, board, frames, Change::Set),
    }
}

/// Changes a number by the value of an expression. What each kind of value takes stands in a function of its own, so
/// that none keeps what another one needs.
#[inline(never)]
pub fn change_number(
    context: &Context,
    num: &Num,
    value: &IntExpr,
    board: &mut Board,
    frames: &Frames,
    how: Change,
) -> Result<(), Memory>
    requires stands { IsContextOf context.now board.old.laid frames.now.items }
    requires well { in_scope context.now IsEffectUnder (effect_by how (num_seen num.now) (int_seen value.now)) }
    ensures leads { OnOk result (LeadsTo context.now
        (effect_by how (num_seen num.now)
        (int_seen value.now)) board.old.laid frames.now.items board.new.laid frames.now.items) }
    ensures keeps { Keeps board.old board.new }
    ensures quiet { board.old.notes ≡ false → IsOk result }
{
    match value {
        IntExpr::Lit(_) => change_by_literal(context, num, value, board, frames, how),
        IntExpr::Num(_) => change_by_number(context, num, value, board, frames, how),
        _ => change_calculated(context, num, value, board, frames, how),
    }
}

// The same by a number that is written out.
#[inline(never)]
fn change_by_literal(
    context: &Context,
    num: &Num,
    value: &IntExpr,
    board: &mut Board,
    frames: &Frames,
    how: Change,
) -> Result<(), Memory>
    requires stands { IsContextOf context.now board.old.laid frames.now.items }
    requires well { in_scope context.now IsEffectUnder (effect_by how (num_seen num.now) (int_seen value.now)) }
    ensures leads { OnOk result (LeadsTo context.now
        (effect_by how (num_seen num.now)
        (int_seen value.now)) board.old.laid frames.now.items board.new.laid frames.now.items) }
    ensures keeps { Keeps board.old board.new }
    ensures quiet { board.old.notes ≡ false → IsOk result }
{
    match value {
        IntExpr::Lit(_) => change(context, num, value, board, frames, how),
        _ => change_calculated(context, num, value, board, frames, how),
    }
}

// The same by a number that the game keeps.
#[inline(never)]
fn change_by_number(
    context: &Context,
    num: &Num,
    value: &IntExpr,
    board: &mut Board,
    frames: &Frames,
    how: Change,
) -> Result<(), Memory>
    requires stands { IsContextOf context.now board.old.laid frames.now.items }
    requires well { in_scope context.now IsEffectUnder (effect_by how (num_seen num.now) (int_seen value.now)) }
    ensures leads { OnOk result (LeadsTo context.now
        (effect_by how (num_seen num.now)
        (int_seen value.now)) board.old.laid frames.now.items board.new.laid frames.now.items) }
    ensures keeps { Keeps board.old board.new }
    ensures quiet { board.old.notes ≡ false → IsOk result }
{
    match value {
        IntExpr::Num(_) => change(context, num, value, board, frames, how),
        _ => change_calculated(context, num, value, board, frames, how),
    }
}

// The same, whatever the value takes.
#[inline(never)]
fn change_calculated(
    context: &Context,
    num: &Num,
    value: &IntExpr,
    board: &mut Board,
    frames: &Frames,
    how: Change,
) -> Result<(), Memory>
    requires stands { IsContextOf context.now board.old.laid frames.now.items }
    requires well { in_scope context.now IsEffectUnder (effect_by how (num_seen num.now) (int_seen value.now)) }
    ensures leads { OnOk result (LeadsTo context.now
        (effect_by how (num_seen num.now)
        (int_seen value.now)) board.old.laid frames.now.items board.new.laid frames.now.items) }
    ensures keeps { Keeps board.old board.new }
    ensures quiet { board.old.notes ≡ false → IsOk result }
{
    change(context, num, value, board, frames, how)
}

// The same, in line.
#[inline(always)]
fn change(
    context: &Context,
    num: &Num,
    value: &IntExpr,
    board: &mut Board,
    frames: &Frames,
    how: Change,
) -> Result<(), Memory>
    requires stands { IsContextOf context.now board.old.laid frames.now.items }
    requires well { in_scope context.now IsEffectUnder (effect_by how (num_seen num.now) (int_seen value.now)) }
    ensures leads { OnOk result (LeadsTo context.now
        (effect_by how (num_seen num.now)
        (int_seen value.now)) board.old.laid frames.now.items board.new.laid frames.now.items) }
    ensures keeps { Keeps board.old board.new }
    ensures quiet { board.old.notes ≡ false → IsOk result }
{
    let table = board.table();
    let Some(at) = num_now(context, num, table, frames) else {
        return Ok(());
    };
    let value = value_now(context, value, table, frames);
    match change_at(board, at, how, value) {
        Ok(()) => Ok(()),
        Err(Memory) => Err(Memory),
    }
}

// The number that an expression stands for. One that is at hand is read with no call.
#[inline(always)]
fn value_now(context: &Context, expr: &IntExpr, table: &Table, frames: &Frames) -> i64
    requires stands { IsContextOf context.now table.now frames.now.items }
    requires well { in_scope context.now IsIntUnder (int_seen expr.now) }
    ensures value { result ≡ int_value (scene_in context.now table.now frames.now.items) context.now.scope.now
        (int_seen expr.now) }
    ensures clamped { IsWithinClamp result }
{
    values_stay_within_limits();
    // what a table keeps
    let _sound = table.shape();
    match number_at_hand(&scene_now(context, table, frames), context.scope, expr) {
        Some(value) => value,
        None => int_now(context, expr, table, frames),
    }
}

/// Changes the number at a place by a value.
#[inline(always)]
pub fn change_at(board: &mut Board, at: u16, how: Change, value: i64) -> Result<(), Memory>
    requires clamped { IsWithinClamp value }
    ensures leads { OnOk result (board.new.laid
        ≡ relaid board.old.laid (effects.change (new_by how) value at board.old.laid.table)) }
    ensures keeps { Keeps board.old board.new }
    ensures quiet { board.old.notes ≡ false → IsOk result }
{
    let old = board.table().number(at);
    board.set_number(at, new_number(how, old, value))
}

// The nearest number in range to what a number becomes. With both in range, nothing overflows.
#[inline(always)]
fn new_number(how: Change, old: i64, value: i64) -> i64
    requires old { IsWithinClamp old }
    requires value { IsWithinClamp value }
    ensures value { result ≡ clamped (new_by how old value) }
    ensures within { IsWithinClamp result }
{
    match how {
        Change::Set => value,
        Change::Increase => nearest(old + value),
        Change::Decrease => nearest(old - value),
    }
}

// The number of the range that is nearest.
#[inline(always)]
fn nearest(number: i64) -> i64
    ensures { result ≡ clamped number }
{
    number.clamp(-LARGEST_NUMBER, LARGEST_NUMBER)
}

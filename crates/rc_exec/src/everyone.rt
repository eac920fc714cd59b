//! What is done for each player without a variable: a number is changed at each one's turn, or cards of each are
//! gathered.
ghost use Rattle.std.specs.Prelude.{◌≡◌, ℕ, ◌<◌, ◌≤◌, true, false, length, map, fold, Some, IfSome, OnOk, IsOk};
ghost use Rattle.rc_base.specs.Clamp.{IsWithinClamp};
ghost use Rattle.rc_base.specs.Numbers.{below};
ghost use Rattle.rc_sheet_spec.specs.Sheet.{effect as alone, no_effect, who_var};
ghost use Rattle.rc_sheet_spec.specs.WellFormed.{Around, IsInt, IsEffect, AreEffects, holds_references};
ghost use Rattle.rc_play_spec.specs.Bound.{HoldsCards};
ghost use Rattle.rc_play_spec.specs.Effects.{if_some};
ghost use Rattle.rc_play_spec.specs.Value.{player_bound, loc_place, num_place};
ghost use Rattle.rc_ast.specs.Effects.{effect_seen};
ghost use Rattle.rc_ast.specs.Expressions.{int_seen};
ghost use Rattle.rc_ast.specs.Names.{loc_seen, num_seen, who_seen};
ghost use Rattle.rc_table.specs.Laid.{relaid};
ghost use Rattle.rc_rules.specs.Control.{frames_seen};
ghost use Rattle.rc_value.specs.Context.{scene_in, IsContextOf};
ghost use Rattle.rc_value.specs.Leads.{effect_by};
ghost use Rattle.rc_code.specs.Meaning.{effects_in};
ghost use Rattle.rc_code.specs.Seen.{list_seen};
ghost use Rattle.rc_exec.specs.Everyone.{AreTurns, IsPlaceOf, IsValueOf, IsInRange, place_of, value_of, change_for};
ghost use Rattle.rc_exec.specs.Everyone.{number_of, location_of, gather_for, gathering, IsApart};
ghost use Rattle.rc_undo.specs.Undo.{Keeps};

use crate::changes::{EachChange, EachPlace, EachValue};
use crate::numbers::change_at;
use rc_ast::{Class, CollExpr, Effect, End, IntExpr, Loc, Num, Who};
use rc_code::Instruction;
use rc_deck::Memory;
use rc_rules::{About, Frames};
use rc_table::Table;
use rc_undo::Board;
use rc_value::{Change, Context, loc_now, num_now};

/// The change, where a block under one more variable, which stands for a player, does nothing but change a number by
/// one that is written out or that the game keeps, and both are found without the variable.
#[inline(always)]
pub fn change_for_each(
    context: &Context,
    code: &[Instruction],
    table: &Table,
    frames: &Frames,
) -> Option<EachChange>
    requires stands { IsContextOf context.now table.now frames.now.items }
    requires well { (around : Around)
        × AreEffects context.now.about.now.sheet around (effects_in (list_seen code.now)) }
    ensures turns { IfSome result (λ each. AreTurns context.now.about.now context.now.scope.now
        (frames_seen frames.now.items) (effects_in (list_seen code.now)) (change_for each)) }
    ensures range { IfSome result (λ each. IsInRange each.value) }
{
    match code {
        [Instruction::Simple(effect)] => match change_of(context, effect, table, frames) {
            Some(each) => Some(each),
            None => None,
        },
        _ => None,
    }
}

/// The same of an effect.
#[inline(always)]
pub fn change_of(
    context: &Context,
    effect: &Effect,
    table: &Table,
    frames: &Frames,
) -> Option<EachChange>
    requires stands { IsContextOf context.now table.now frames.now.items }
    requires well { (around : Around) × IsEffect context.now.about.now.sheet around (effect_seen effect.now) }
    ensures turns { IfSome result (λ each. AreTurns context.now.about.now context.now.scope.now
        (frames_seen frames.now.items) (alone (effect_seen effect.now) no_effect) (change_for each)) }
    ensures range { IfSome result (λ each. IsInRange each.value) }
{
    match changed_by(effect) {
        Some((how, num, value)) => change_by(context, how, num, value, table, frames),
        None => None,
    }
}

/// The number that an effect changes, how and by what, if it does no more.
#[inline(always)]
pub fn changed_by(effect: &Effect) -> Option<(Change, &Num, &IntExpr)>
    ensures { IfSome result (λ it. effect_seen effect.now
        ≡ effect_by it.0 (num_seen it.1.now) (int_seen it.2.now)) }
{
    match effect {
        Effect::Set(num, value) => Some((Change::Set, num, value)),
        Effect::Inc(num, value) => Some((Change::Increase, num, value)),
        Effect::Dec(num, value) => Some((Change::Decrease, num, value)),
        _ => None,
    }
}

// The same of an effect that changes a number.
#[inline(always)]
fn change_by(
    context: &Context,
    how: Change,
    num: &Num,
    value: &IntExpr,
    table: &Table,
    frames: &Frames,
) -> Option<EachChange>
    requires stands { IsContextOf context.now table.now frames.now.items }
    requires well { (around : Around) × IsInt context.now.about.now.sheet around (int_seen value.now) }
    ensures turns { IfSome result (λ each. AreTurns context.now.about.now context.now.scope.now
        (frames_seen frames.now.items) (alone (effect_by how (num_seen num.now) (int_seen value.now)) no_effect)
        (change_for each)) }
    ensures range { IfSome result (λ each. IsInRange each.value) }
{
    let Some(place) = place_for_each(context, num, table, frames) else {
        return None;
    };
    match value_for_each(context, value, table, frames) {
        Some(value) => Some(EachChange { how, place, value }),
        None => None,
    }
}

// Where a number stands at each player's turn, where that is found without the variable.
#[inline(always)]
fn place_for_each(context: &Context, num: &Num, table: &Table, frames: &Frames) -> Option<EachPlace>
    requires stands { IsContextOf context.now table.now frames.now.items }
    ensures { IfSome result (λ place. IsPlaceOf context.now.about.now context.now.scope.now
        (frames_seen frames.now.items) (num_seen num.now) place) }
{
    let outside = context.scope.len();
    if is_member(&num.who, outside) {
        return own_place(context.about, num.name);
    }
    if is_apart(&num.who, outside) {
        return same_place(context, num, table, frames);
    }
    None
}

// Where a player's number of this name stands.
#[inline(always)]
fn own_place(about: &About, name: u16) -> Option<EachPlace>
    ensures { IfSome result (λ place. (player : ℕ) → player < about.now.sheet.players
        → number_of about.now.sheet name player ≡ Some (place_of place player)) }
{
    // what an about keeps
    let _fits = about.sheet();
    match number_at(about, name, 0) {
        Some(first) => Some(EachPlace { first, own: true }),
        None => None,
    }
}

// Where a number stands whose owner isn't found by the variable.
#[inline(always)]
fn same_place(context: &Context, num: &Num, table: &Table, frames: &Frames) -> Option<EachPlace>
    requires stands { IsContextOf context.now table.now frames.now.items }
    ensures { IfSome result (λ place. (player : ℕ)
        → num_place (scene_in context.now table.now frames.now.items).known context.now.scope.now (num_seen num.now)
        ≡ Some (place_of place player)) }
{
    // what an about keeps
    let _fits = context.about.sheet();
    match num_now(context, num, table, frames) {
        Some(first) => Some(EachPlace { first, own: false }),
        None => None,
    }
}

// What an expression stands for at each player's turn, where it is one number.
#[inline(always)]
fn value_for_each(
    context: &Context,
    expr: &IntExpr,
    table: &Table,
    frames: &Frames,
) -> Option<EachValue>
    requires stands { IsContextOf context.now table.now frames.now.items }
    requires well { (around : Around) × IsInt context.now.about.now.sheet around (int_seen expr.now) }
    ensures value { IfSome result (λ value. IsValueOf context.now.about.now context.now.scope.now
        (frames_seen frames.now.items) (int_seen expr.now) value) }
    ensures range { IfSome result (λ value. IsInRange value) }
{
    match expr {
        IntExpr::Lit(value) => Some(EachValue::Literal(*value)),
        IntExpr::Num(num) => match place_for_each(context, num, table, frames) {
            Some(place) => Some(EachValue::Number(place)),
            None => None,
        },
        _ => None,
    }
}

// Whether an owner is the player of the variable outside of which so many stand.
#[inline(always)]
fn is_member(who: &Who, outside: usize) -> bool
    ensures { result ≡ true → who_seen who.now ≡ who_var outside }
{
    match who {
        Who::Var(var) => *var as usize == outside,
        _ => false,
    }
}

/// Changes a number at each player's turn. How is told apart before the first turn, and not at each.
#[inline(always)]
pub fn change_all(about: &About, each: EachChange, board: &mut Board) -> Result<(), Memory>
    requires { IsInRange each.value }
    ensures leads { OnOk result (board.new.laid ≡ relaid board.old.laid
        (fold (change_for each) board.old.laid.table
        (map (λ n. player_bound n) (below about.now.sheet.players)))) }
    ensures keeps { Keeps board.old board.new }
    ensures quiet { board.old.notes ≡ false → IsOk result }
{
    match each.how {
        Change::Set => change_so(about, Change::Set, each.place, each.value, board),
        Change::Increase => change_so(about, Change::Increase, each.place, each.value, board),
        Change::Decrease => change_so(about, Change::Decrease, each.place, each.value, board),
    }
}

// The same where it is known how. What it changes by is told apart here.
#[inline(always)]
fn change_so(
    about: &About,
    how: Change,
    place: EachPlace,
    value: EachValue,
    board: &mut Board,
) -> Result<(), Memory>
    requires { IsInRange value }
    ensures leads { OnOk result (board.new.laid ≡ relaid board.old.laid
        (fold (change_for (record { how = how; place = place; value = value })) board.old.laid.table
        (map (λ n. player_bound n) (below about.now.sheet.players)))) }
    ensures keeps { Keeps board.old board.new }
    ensures quiet { board.old.notes ≡ false → IsOk result }
{
    match value {
        EachValue::Literal(literal) => {
            let value = EachValue::Literal(literal);
            change_by_turns(about, EachChange { how, place, value }, board)
        }
        EachValue::Number(by) => {
            let value = EachValue::Number(by);
            // the same turns, compiled for players whose own numbers these are
            if place.own && by.own {
                return change_by_turns(about, EachChange { how, place, value }, board);
            }
            change_by_turns(about, EachChange { how, place, value }, board)
        }
    }
}

// The same, one turn after the other.
#[inline(always)]
fn change_by_turns(about: &About, each: EachChange, board: &mut Board) -> Result<(), Memory>
    requires { IsInRange each.value }
    ensures leads { OnOk result (board.new.laid ≡ relaid board.old.laid
        (fold (change_for each) board.old.laid.table
        (map (λ n. player_bound n) (below about.now.sheet.players)))) }
    ensures keeps { Keeps board.old board.new }
    ensures quiet { board.old.notes ≡ false → IsOk result }
{
    for player in 0..about.sheet().players {
        match change_one(each, player, board) {
            Ok(()) => {}
            Err(Memory) => return Err(Memory),
        }
    }
    Ok(())
}

// Changes the number at a player's turn.
#[inline(always)]
fn change_one(each: EachChange, player: u8, board: &mut Board) -> Result<(), Memory>
    requires { IsInRange each.value }
    ensures leads { OnOk result (board.new.laid
        ≡ relaid board.old.laid (change_for each board.old.laid.table (player_bound player))) }
    ensures keeps { Keeps board.old board.new }
    ensures quiet { board.old.notes ≡ false → IsOk result }
{
    let value = value_for(each.value, player, board.table());
    change_at(board, place_for(each.place, player), each.how, value)
}

// Where a number stands at a player's turn.
#[inline(always)]
fn place_for(place: EachPlace, player: u8) -> u16
    ensures { result ≡ place_of place player }
{
    if place.own {
        place.first + u16::from(player)
    } else {
        place.first
    }
}

// What a number changes by at a player's turn.
#[inline(always)]
fn value_for(value: EachValue, player: u8, table: &Table) -> i64
    requires { IsInRange value }
    ensures value { result ≡ value_of table.now.table.numbers value player }
    ensures clamped { IsWithinClamp result }
{
    match value {
        EachValue::Literal(value) => value,
        EachValue::Number(place) => table.number(place_for(place, player)),
    }
}

// The place of a player's number, if there is one.
#[inline(always)]
fn number_at(about: &About, name: u16, player: u8) -> Option<u16>
    ensures { result ≡ number_of about.now.sheet name player }
{
    about.lookup().number(name, Class::Player, player)
}

/// A location that each player has, and the one on top of which its cards go.
#[derive(Clone, Copy)]
pub struct EachPile<'c> {
    pub from: &'c Loc,
    pub to: &'c Loc,
}

/// The two, where a block under one more variable, which stands for a player, does nothing but move all cards of a
/// location of that player to the top of another one, whose owner isn't found by the variable.
#[inline(always)]
pub fn gather_for_each<'c>(context: &Context, code: &'c [Instruction]) -> Option<EachPile<'c>>
    ensures effect { IfSome result (λ each. effects_in (list_seen code.now)
        ≡ alone (gathering (loc_seen each.from.now) (loc_seen each.to.now)) no_effect) }
    ensures member { IfSome result (λ each. who_seen each.from.now.who ≡ who_var (length context.now.scope.now)) }
    ensures apart { IfSome result (λ each. IsApart (length context.now.scope.now) (who_seen each.to.now.who)) }
{
    match code {
        [Instruction::Simple(effect)] => match gather_of_member(effect, context.scope.len()) {
            Some(each) => Some(each),
            None => None,
        },
        _ => None,
    }
}

// The same of an effect. So many variables stand outside that one.
#[inline(always)]
fn gather_of_member(effect: &Effect, outside: usize) -> Option<EachPile<'_>>
    ensures effect { IfSome result (λ each. effect_seen effect.now
        ≡ gathering (loc_seen each.from.now) (loc_seen each.to.now)) }
    ensures member { IfSome result (λ each. who_seen each.from.now.who ≡ who_var outside) }
    ensures apart { IfSome result (λ each. IsApart outside (who_seen each.to.now.who)) }
{
    match effect {
        Effect::MoveAll(CollExpr::Loc(from), End::Top, to) => {
            if is_member(&from.who, outside) && is_apart(&to.who, outside) {
                return Some(EachPile { from, to });
            }
            None
        }
        _ => None,
    }
}

// Whether an owner isn't found by the variable outside of which so many stand.
#[inline(always)]
fn is_apart(who: &Who, outside: usize) -> bool
    ensures { result ≡ true → IsApart outside (who_seen who.now) }
{
    match who {
        Who::Var(var) => *var as usize != outside,
        Who::TeamOfVar(var) => *var as usize != outside,
        Who::Game => true,
        Who::CurrentPlayer => true,
        Who::CurrentTeam => true,
        Who::TeamOfCurrent => true,
    }
}

/// Moves all cards of a location of each player, one player after the other. Where they go is looked up once.
#[inline(never)]
pub fn gather_all(
    context: &Context,
    each: EachPile,
    board: &mut Board,
    frames: &Frames,
) -> Result<(), Memory>
    requires stands { IsContextOf context.now board.old.laid frames.now.items }
    requires cards { holds_references context.now.about.now.sheet each.to.now.name ≡ Some false }
    ensures leads { OnOk result (board.new.laid ≡ relaid board.old.laid
        (if_some
        (λ to table. fold
        (gather_for context.now.about.now.sheet board.old.laid.shape each.entry.from.now.name to) table
        (map (λ n. player_bound n) (below context.now.about.now.sheet.players)))
        (loc_place (scene_in context.now board.old.laid frames.now.items).known context.now.scope.now
        (loc_seen each.entry.to.now)) board.old.laid.table)) }
    ensures keeps { Keeps board.old board.new }
    ensures quiet { board.old.notes ≡ false → IsOk result }
{
    match loc_now(context, each.to, board.table(), frames) {
        Some(to) => gather_on(context.about, each.from.name, to, board),
        None => Ok(()),
    }
}

// The same where it is known where they go.
#[inline(always)]
fn gather_on(about: &About, name: u16, to: u16, board: &mut Board) -> Result<(), Memory>
    requires { HoldsCards board.old.laid.shape to }
    ensures leads { OnOk result (board.new.laid ≡ relaid board.old.laid
        (fold (gather_for about.now.sheet board.old.laid.shape name to) board.old.laid.table
        (map (λ n. player_bound n) (below about.now.sheet.players)))) }
    ensures keeps { Keeps board.old board.new }
    ensures quiet { board.old.notes ≡ false → IsOk result }
{
    for player in 0..about.sheet().players {
        match gather_one(about, name, player, to, board) {
            Ok(()) => {}
            Err(Memory) => return Err(Memory),
        }
    }
    Ok(())
}

// Moves all cards of a player's location, where there is one.
#[inline(always)]
fn gather_one(
    about: &About,
    name: u16,
    player: u8,
    to: u16,
    board: &mut Board,
) -> Result<(), Memory>
    requires { HoldsCards board.old.laid.shape to }
    ensures leads { OnOk result (board.new.laid
        ≡ relaid board.old.laid (gather_for about.now.sheet board.old.laid.shape name to board.old.laid.table
        (player_bound player))) }
    ensures keeps { Keeps board.old board.new }
    ensures quiet { board.old.notes ≡ false → IsOk result }
{
    match location_at(about, name, player) {
        Some(from) => board.pile(from, to),
        None => Ok(()),
    }
}

// The place of a player's location, if there is one.
#[inline(always)]
fn location_at(about: &About, name: u16, player: u8) -> Option<u16>
    ensures { result ≡ location_of about.now.sheet name player }
{
    about.lookup().location(name, Class::Player, player)
}

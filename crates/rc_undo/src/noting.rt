//! Many cards that are put somewhere else, with entries that take it back: one entry where they come from one location.
ghost use Rattle.std.specs.Prelude.{◌≡◌, ◌<◌, ◌≤◌, length, take, All, IfOk, OnOk};
ghost use Rattle.rc_play_spec.specs.Bound.{HoldsCards};
ghost use Rattle.rc_play_spec.specs.Effects.{put};
ghost use Rattle.rc_table.specs.Laid.{relaid};
ghost use Rattle.rc_table.specs.Runs.{put_each};
ghost use Rattle.rc_undo.specs.Sides.{end_of};
ghost use Rattle.rc_undo.specs.Undo.{Keeps};

use crate::board::Board;
use crate::past::some_marked;
use rc_deck::Memory;
use rc_table::Table;

/// So many cards at least go by one edit. Of fewer, each goes by an edit of its own, which is less work.
const MANY: usize = 8;

/// An end of a location.
#[derive(Clone, Copy)]
pub(crate) enum Side {
    Top,
    Bottom,
}

/// Puts cards at an end of a location of cards, one after the other.
pub(crate) fn put_noted(board: &mut Board, ids: &[u16], side: Side, loc: u16) -> Result<(), Memory>
    requires cards { All (λ id. id < length board.old.laid.shape.faces) ids.now }
    requires loc { HoldsCards board.old.laid.shape loc }
    ensures leads { OnOk result (board.new.laid ≡ relaid board.old.laid
        (put_each board.old.laid.shape (end_of side) loc ids.now board.old.laid.table)) }
    ensures keeps { Keeps board.old board.new }
{
    let mut at = 0;
    while at < ids.len() {
        match put_some(board, &ids[at..], side, loc) {
            Ok(count) => at += count,
            Err(Memory) => return Err(Memory),
        }
    }
    Ok(())
}

// The same of some at the front, and tells how many they are.
fn put_some(board: &mut Board, ids: &[u16], side: Side, loc: u16) -> Result<usize, Memory>
    requires some { 0 < length ids.now }
    requires cards { All (λ id. id < length board.old.laid.shape.faces) ids.now }
    requires loc { HoldsCards board.old.laid.shape loc }
    ensures some { IfOk result (λ count. 0 < count) }
    ensures count { IfOk result (λ count. count ≤ length ids.now) }
    ensures leads { IfOk result (λ count. board.new.laid ≡ relaid board.old.laid
        (put_each board.old.laid.shape (end_of side) loc (take count ids.now) board.old.laid.table)) }
    ensures keeps { Keeps board.old board.new }
{
    if ids.len() < MANY {
        return put_front(board, ids, ids.len(), side, loc);
    }
    let (from, _) = board.table().place_of(ids[0]);
    let count = board.table().run(ids, from);
    if count < MANY || from == loc || some_marked(board.table(), &ids[..count]) {
        return put_front(board, ids, count.max(1), side, loc);
    }
    match board.gather(&ids[..count], from, side, loc) {
        Ok(()) => Ok(count),
        Err(Memory) => Err(Memory),
    }
}

// Puts so many cards at the front there, each by an edit of its own, and tells how many they are.
fn put_front(
    board: &mut Board,
    ids: &[u16],
    count: usize,
    side: Side,
    loc: u16,
) -> Result<usize, Memory>
    requires count { count ≤ length ids.now }
    requires cards { All (λ id. id < length board.old.laid.shape.faces) ids.now }
    requires loc { HoldsCards board.old.laid.shape loc }
    ensures count { IfOk result (λ done. done ≡ count) }
    ensures leads { IfOk result (λ done. board.new.laid ≡ relaid board.old.laid
        (put_each board.old.laid.shape (end_of side) loc (take count ids.now) board.old.laid.table)) }
    ensures keeps { Keeps board.old board.new }
{
    match put_one_by_one(board, &ids[..count], side, loc) {
        Ok(()) => Ok(count),
        Err(Memory) => Err(Memory),
    }
}

// Puts cards there, each by an edit of its own.
fn put_one_by_one(board: &mut Board, ids: &[u16], side: Side, loc: u16) -> Result<(), Memory>
    requires cards { All (λ id. id < length board.old.laid.shape.faces) ids.now }
    requires loc { HoldsCards board.old.laid.shape loc }
    ensures leads { OnOk result (board.new.laid ≡ relaid board.old.laid
        (put_each board.old.laid.shape (end_of side) loc ids.now board.old.laid.table)) }
    ensures keeps { Keeps board.old board.new }
{
    for id in ids {
        match put_one(board, *id, side, loc) {
            Ok(()) => {}
            Err(Memory) => return Err(Memory),
        }
    }
    Ok(())
}

// Puts a card there.
fn put_one(board: &mut Board, id: u16, side: Side, loc: u16) -> Result<(), Memory>
    requires card { id < length board.old.laid.shape.faces }
    requires loc { HoldsCards board.old.laid.shape loc }
    ensures leads { OnOk result (board.new.laid ≡ relaid board.old.laid
        (put board.old.laid.shape (end_of side) id loc board.old.laid.table)) }
    ensures keeps { Keeps board.old board.new }
{
    match side {
        Side::Top => board.put_top(id, loc),
        Side::Bottom => board.put_bottom(id, loc),
    }
}

/// Puts cards at an end of a location of cards of a table, one after the other.
pub(crate) fn put_on_table(table: &mut Table, ids: &[u16], side: Side, loc: u16)
    requires cards { All (λ id. id < length table.old.shape.faces) ids.now }
    requires loc { HoldsCards table.old.shape loc }
    ensures { table.new ≡ relaid table.old (put_each table.old.shape (end_of side) loc ids.now table.old.table) }
{
    match side {
        Side::Top => table.put_all_top(ids, loc),
        Side::Bottom => table.put_all_bottom(ids, loc),
    }
}

//! Cards that go somewhere else.
ghost use Rattle.std.specs.Prelude.{◌≡◌, ◌<◌, ◌≤◌, false, length, fold, option_map, All, IfSome, OnOk, IsOk};
ghost use Rattle.rc_base.specs.Limits.{most_in_collection};
ghost use Rattle.rc_sheet_spec.specs.Sheet.{move, move_all as move_all_of, cards_in, top};
ghost use Rattle.rc_play_spec.specs.Bound.{HoldsCards, IsCardOf};
ghost use Rattle.rc_play_spec.specs.Effects.{move_card};
ghost use Rattle.rc_play_spec.specs.Value.{card_value, coll_value};
ghost use Rattle.rc_ast.specs.Names.{loc_seen};
ghost use Rattle.rc_ast.specs.Expressions.{card_seen, coll_seen};
ghost use Rattle.rc_ast.specs.Effects.{end_seen};
ghost use Rattle.rc_table.specs.Laid.{relaid};
ghost use Rattle.rc_table.specs.Runs.{put_each};
ghost use Rattle.rc_value.specs.Cards.{value_seen, values_seen};
ghost use Rattle.rc_value.specs.Context.{scene_in, IsContextOf, in_scope};
ghost use Rattle.rc_value.specs.Under.{IsCardUnder, IsCollUnder, IsEffectUnder};
ghost use Rattle.rc_value.specs.Leads.{LeadsTo};
ghost use Rattle.rc_undo.specs.Undo.{Keeps};
ghost use Rattle.rc_undo.specs.Piled.{topped};

use arrayvec::ArrayVec;
use rc_ast::{CardExpr, CollExpr, End, Loc};
use rc_deck::Memory;
use rc_rules::Frames;
use rc_table::Table;
use rc_undo::Board;
use rc_value::{
    Card, Cards, Context, FewCards, bare, card_now, cards_now, few_cards_now, held_among, loc_now,
    scene_now,
};

/// So many cards at least go in one go. Of fewer, each goes by itself, which is less work.
const MANY: usize = 8;

/// Moves a card to an end of a location.
pub fn move_one(
    context: &Context,
    card: &CardExpr,
    end: End,
    loc: &Loc,
    board: &mut Board,
    frames: &Frames,
) -> Result<(), Memory>
    requires stands { IsContextOf context.now board.old.laid frames.now.items }
    requires well { in_scope context.now IsEffectUnder (move (card_seen card.now) (end_seen end) (loc_seen loc.now)) }
    ensures leads { OnOk result (LeadsTo context.now
        (move (card_seen card.now) (end_seen end)
        (loc_seen loc.now)) board.old.laid frames.now.items board.new.laid frames.now.items) }
    ensures keeps { Keeps board.old board.new }
    ensures quiet { board.old.notes ≡ false → IsOk result }
{
    match card {
        CardExpr::Top(_) => return move_top(context, card, end, loc, board, frames),
        _ => {}
    }
    let Some(at) = loc_now(context, loc, board.table(), frames) else {
        return Ok(());
    };
    let Some(card) = card_now(context, card, board.table(), frames) else {
        return Ok(());
    };
    put(board, card, end, at)
}

// The same of a card on top of a collection.
#[inline(never)]
fn move_top(
    context: &Context,
    card: &CardExpr,
    end: End,
    loc: &Loc,
    board: &mut Board,
    frames: &Frames,
) -> Result<(), Memory>
    requires stands { IsContextOf context.now board.old.laid frames.now.items }
    requires well { in_scope context.now IsEffectUnder (move (card_seen card.now) (end_seen end) (loc_seen loc.now)) }
    ensures leads { OnOk result (LeadsTo context.now
        (move (card_seen card.now) (end_seen end)
        (loc_seen loc.now)) board.old.laid frames.now.items board.new.laid frames.now.items) }
    ensures keeps { Keeps board.old board.new }
    ensures quiet { board.old.notes ≡ false → IsOk result }
{
    let Some(at) = loc_now(context, loc, board.table(), frames) else {
        return Ok(());
    };
    let Some(card) = card_to_move(context, card, board.table(), frames) else {
        return Ok(());
    };
    put(board, card, end, at)
}

// The card that an expression stands for, if there is one. One on top of a location is read off it with no call.
#[inline(always)]
fn card_to_move(context: &Context, expr: &CardExpr, table: &Table, frames: &Frames) -> Option<Card>
    requires stands { IsContextOf context.now table.now frames.now.items }
    requires well { in_scope context.now IsCardUnder (card_seen expr.now) }
    ensures card { option_map value_seen result
        ≡ card_value (scene_in context.now table.now frames.now.items) context.now.scope.now (card_seen expr.now) }
    ensures there { IfSome result (λ card. IsCardOf context.now.about.now.shape (value_seen card)) }
{
    // what an about and a table keep
    let _fits = context.about.sheet();
    let _sound = table.shape();
    match expr {
        CardExpr::Top(cards) => {
            let scene = scene_now(context, table, frames);
            match bare(&scene, context.scope, cards) {
                Some(cards) => cards.last(),
                None => card_now(context, expr, table, frames),
            }
        }
        _ => card_now(context, expr, table, frames),
    }
}

/// Moves all cards of a collection, one after the other. Which cards they are is read before the first one moves.
pub fn move_all(
    context: &Context,
    cards: &CollExpr,
    end: End,
    loc: &Loc,
    board: &mut Board,
    frames: &Frames,
) -> Result<(), Memory>
    requires stands { IsContextOf context.now board.old.laid frames.now.items }
    requires well { in_scope context.now IsEffectUnder
        (move_all_of (coll_seen cards.now) (end_seen end) (loc_seen loc.now)) }
    ensures leads { OnOk result (LeadsTo context.now
        (move_all_of (coll_seen cards.now) (end_seen end)
        (loc_seen loc.now)) board.old.laid frames.now.items board.new.laid frames.now.items) }
    ensures keeps { Keeps board.old board.new }
    ensures quiet { board.old.notes ≡ false → IsOk result }
{
    let Some(at) = loc_now(context, loc, board.table(), frames) else {
        return Ok(());
    };
    match location_to_pile(cards, end) {
        Some(from) => pile_up(context, from, at, board, frames),
        None => match cards {
            CollExpr::Loc(_) => put_some(context, cards, end, at, board, frames),
            CollExpr::Var(_) => put_some(context, cards, end, at, board, frames),
            _ => put_many(context, cards, end, at, board, frames),
        },
    }
}

// The location, where all that is in one goes on top of another one.
#[inline(always)]
fn location_to_pile(cards: &CollExpr, end: End) -> Option<&Loc>
    ensures cards { IfSome result (λ loc. coll_seen cards.now ≡ cards_in (loc_seen loc.now)) }
    ensures end { IfSome result (λ _. end_seen end ≡ top) }
{
    match end {
        End::Top => match cards {
            CollExpr::Loc(loc) => Some(loc),
            _ => None,
        },
        End::Bottom => None,
    }
}

// Puts all that is in a location on top of another one. No list of cards is made of it.
#[inline(always)]
fn pile_up(
    context: &Context,
    loc: &Loc,
    at: u16,
    board: &mut Board,
    frames: &Frames,
) -> Result<(), Memory>
    requires stands { IsContextOf context.now board.old.laid frames.now.items }
    requires holds { HoldsCards board.old.laid.shape at }
    ensures leads { OnOk result (board.new.laid
        ≡ relaid board.old.laid (topped board.old.laid.shape at board.old.laid.table
        (coll_value (scene_in context.now board.old.laid frames.now.items) context.now.scope.now
        (cards_in (loc_seen loc.now))))) }
    ensures keeps { Keeps board.old board.new }
    ensures quiet { board.old.notes ≡ false → IsOk result }
{
    match loc_now(context, loc, board.table(), frames) {
        Some(from) => board.pile(from, at),
        None => Ok(()),
    }
}

// Puts all cards of a location or of a variable there. Few cards are kept in a small list.
#[inline(never)]
fn put_some(
    context: &Context,
    cards: &CollExpr,
    end: End,
    at: u16,
    board: &mut Board,
    frames: &Frames,
) -> Result<(), Memory>
    requires stands { IsContextOf context.now board.old.laid frames.now.items }
    requires well { in_scope context.now IsCollUnder (coll_seen cards.now) }
    requires holds { HoldsCards board.old.laid.shape at }
    ensures leads { OnOk result (board.new.laid
        ≡ relaid board.old.laid (fold (move_card board.old.laid.shape (end_seen end) at) board.old.laid.table
        (coll_value (scene_in context.now board.old.laid frames.now.items) context.now.scope.now
        (coll_seen cards.now)))) }
    ensures keeps { Keeps board.old board.new }
    ensures quiet { board.old.notes ≡ false → IsOk result }
{
    let mut few = FewCards::new();
    if few_cards_now(context, cards, board.table(), frames, &mut few) {
        return put_all(board, few.as_slice(), end, at);
    }
    put_many(context, cards, end, at, board, frames)
}

// The same of any collection, however many they are.
#[inline(never)]
fn put_many(
    context: &Context,
    cards: &CollExpr,
    end: End,
    at: u16,
    board: &mut Board,
    frames: &Frames,
) -> Result<(), Memory>
    requires stands { IsContextOf context.now board.old.laid frames.now.items }
    requires well { in_scope context.now IsCollUnder (coll_seen cards.now) }
    requires holds { HoldsCards board.old.laid.shape at }
    ensures leads { OnOk result (board.new.laid
        ≡ relaid board.old.laid (fold (move_card board.old.laid.shape (end_seen end) at) board.old.laid.table
        (coll_value (scene_in context.now board.old.laid frames.now.items) context.now.scope.now
        (coll_seen cards.now)))) }
    ensures keeps { Keeps board.old board.new }
    ensures quiet { board.old.notes ≡ false → IsOk result }
{
    let mut room = Cards::new();
    cards_now(context, cards, board.table(), frames, &mut room);
    put_all(board, room.as_slice(), end, at)
}

// Puts these cards there, the first one first. Many go in one go.
#[inline(always)]
fn put_all(board: &mut Board, cards: &[Card], end: End, at: u16) -> Result<(), Memory>
    requires few { length cards.now ≤ most_in_collection }
    requires cards { All (λ card. IsCardOf board.old.laid.shape (value_seen card)) cards.now }
    requires holds { HoldsCards board.old.laid.shape at }
    ensures leads { OnOk result (board.new.laid ≡ relaid board.old.laid
        (fold (move_card board.old.laid.shape (end_seen end) at) board.old.laid.table (values_seen cards.now))) }
    ensures keeps { Keeps board.old board.new }
    ensures quiet { board.old.notes ≡ false → IsOk result }
{
    if cards.len() < MANY {
        return put_one_by_one(board, cards, end, at);
    }
    put_held(board, cards, end, at)
}

// The same of those that are no references, which are listed first.
#[inline(never)]
fn put_held(board: &mut Board, cards: &[Card], end: End, at: u16) -> Result<(), Memory>
    requires few { length cards.now ≤ most_in_collection }
    requires cards { All (λ card. IsCardOf board.old.laid.shape (value_seen card)) cards.now }
    requires holds { HoldsCards board.old.laid.shape at }
    ensures leads { OnOk result (board.new.laid ≡ relaid board.old.laid
        (fold (move_card board.old.laid.shape (end_seen end) at) board.old.laid.table (values_seen cards.now))) }
    ensures keeps { Keeps board.old board.new }
    ensures quiet { board.old.notes ≡ false → IsOk result }
{
    let mut ids = ArrayVec::new();
    held_among(cards, &mut ids);
    put_ids(board, ids.as_slice(), end, at)
}

// Puts the cards with these numbers there, the first one first.
fn put_ids(board: &mut Board, ids: &[u16], end: End, at: u16) -> Result<(), Memory>
    requires cards { All (λ id. id < length board.old.laid.shape.faces) ids.now }
    requires holds { HoldsCards board.old.laid.shape at }
    ensures leads { OnOk result (board.new.laid ≡ relaid board.old.laid
        (put_each board.old.laid.shape (end_seen end) at ids.now board.old.laid.table)) }
    ensures keeps { Keeps board.old board.new }
    ensures quiet { board.old.notes ≡ false → IsOk result }
{
    match end {
        End::Top => board.put_all_top(ids, at),
        End::Bottom => board.put_all_bottom(ids, at),
    }
}

// The same of each by itself.
fn put_one_by_one(board: &mut Board, cards: &[Card], end: End, at: u16) -> Result<(), Memory>
    requires cards { All (λ card. IsCardOf board.old.laid.shape (value_seen card)) cards.now }
    requires holds { HoldsCards board.old.laid.shape at }
    ensures leads { OnOk result (board.new.laid ≡ relaid board.old.laid
        (fold (move_card board.old.laid.shape (end_seen end) at) board.old.laid.table (values_seen cards.now))) }
    ensures keeps { Keeps board.old board.new }
    ensures quiet { board.old.notes ≡ false → IsOk result }
{
    for card in cards {
        match put(board, *card, end, at) {
            Ok(()) => {}
            Err(Memory) => return Err(Memory),
        }
    }
    Ok(())
}

// Puts a card there. A reference stays where it is.
#[inline(always)]
fn put(board: &mut Board, card: Card, end: End, at: u16) -> Result<(), Memory>
    requires card { IsCardOf board.old.laid.shape (value_seen card) }
    requires holds { HoldsCards board.old.laid.shape at }
    ensures leads { OnOk result (board.new.laid
        ≡ relaid board.old.laid (move_card board.old.laid.shape (end_seen end) at board.old.laid.table
        (value_seen card))) }
    ensures keeps { Keeps board.old board.new }
    ensures quiet { board.old.notes ≡ false → IsOk result }
{
    match card {
        Card::Held(id) => match end {
            End::Top => board.put_top(id, at),
            End::Bottom => board.put_bottom(id, at),
        },
        Card::Noted { .. } => Ok(()),
    }
}

//! References that are put down and taken away.
ghost use Rattle.std.specs.Prelude.{◌≡◌, ◌<◌, false, length, OnOk, IsOk};
ghost use Rattle.rc_sheet_spec.specs.Sheet.{remember as remember_of, forget as forget_of};
ghost use Rattle.rc_play_spec.specs.Bound.{HoldsReferences, IsCardOf};
ghost use Rattle.rc_play_spec.specs.Effects.{note as noted_at, forget_card};
ghost use Rattle.rc_ast.specs.Names.{loc_seen};
ghost use Rattle.rc_ast.specs.Expressions.{card_seen};
ghost use Rattle.rc_ast.specs.Effects.{end_seen};
ghost use Rattle.rc_play_spec.specs.Scene.{id_of as id_in};
ghost use Rattle.rc_table.specs.Laid.{relaid};
ghost use Rattle.rc_value.specs.Cards.{value_seen};
ghost use Rattle.rc_value.specs.Context.{IsContextOf, in_scope};
ghost use Rattle.rc_value.specs.Under.{IsEffectUnder};
ghost use Rattle.rc_value.specs.Leads.{LeadsTo};
ghost use Rattle.rc_undo.specs.Undo.{Keeps};

use rc_ast::{CardExpr, End, Loc};
use rc_deck::Memory;
use rc_rules::Frames;
use rc_undo::Board;
use rc_value::{Card, Context, card_now, loc_now};

/// Puts a reference to a card at an end of a location of references, where there is room.
pub fn remember(
    context: &Context,
    card: &CardExpr,
    end: End,
    loc: &Loc,
    board: &mut Board,
    frames: &Frames,
) -> Result<(), Memory>
    requires stands { IsContextOf context.now board.old.laid frames.now.items }
    requires well { in_scope context.now IsEffectUnder
        (remember_of (card_seen card.now) (end_seen end) (loc_seen loc.now)) }
    ensures leads { OnOk result (LeadsTo context.now
        (remember_of (card_seen card.now) (end_seen end)
        (loc_seen loc.now)) board.old.laid frames.now.items board.new.laid frames.now.items) }
    ensures keeps { Keeps board.old board.new }
    ensures quiet { board.old.notes ≡ false → IsOk result }
{
    let Some(at) = loc_now(context, loc, board.table(), frames) else {
        return Ok(());
    };
    let Some(card) = card_now(context, card, board.table(), frames) else {
        return Ok(());
    };
    note(board, id_of(card), end, at)
}

fn note(board: &mut Board, id: u16, end: End, at: u16) -> Result<(), Memory>
    requires card { id < length board.old.laid.shape.faces }
    requires holds { HoldsReferences board.old.laid.shape at }
    ensures leads { OnOk result (board.new.laid
        ≡ relaid board.old.laid (noted_at board.old.laid.shape (end_seen end) id at board.old.laid.table)) }
    ensures keeps { Keeps board.old board.new }
    ensures quiet { board.old.notes ≡ false → IsOk result }
{
    match end {
        End::Top => board.remember_top(id, at),
        End::Bottom => board.remember_bottom(id, at),
    }
}

fn id_of(card: Card) -> u16
    ensures { result ≡ id_in (value_seen card) }
{
    match card {
        Card::Held(id) => id,
        Card::Noted { loc: _, id } => id,
    }
}

/// Takes a reference with the card's face out of the location in which the reference to it was read.
pub fn forget(
    context: &Context,
    card: &CardExpr,
    board: &mut Board,
    frames: &Frames,
) -> Result<(), Memory>
    requires stands { IsContextOf context.now board.old.laid frames.now.items }
    requires well { in_scope context.now IsEffectUnder (forget_of (card_seen card.now)) }
    ensures leads { OnOk result (LeadsTo context.now
        (forget_of (card_seen card.now)) board.old.laid frames.now.items board.new.laid frames.now.items) }
    ensures keeps { Keeps board.old board.new }
    ensures quiet { board.old.notes ≡ false → IsOk result }
{
    let Some(card) = card_now(context, card, board.table(), frames) else {
        return Ok(());
    };
    forget_one(board, card)
}

fn forget_one(board: &mut Board, card: Card) -> Result<(), Memory>
    requires card { IsCardOf board.old.laid.shape (value_seen card) }
    ensures leads { OnOk result (board.new.laid
        ≡ relaid board.old.laid (forget_card board.old.laid.shape (value_seen card) board.old.laid.table)) }
    ensures keeps { Keeps board.old board.new }
    ensures quiet { board.old.notes ≡ false → IsOk result }
{
    match card {
        Card::Noted { loc, id } => board.forget(id, loc),
        Card::Held(_) => Ok(()),
    }
}

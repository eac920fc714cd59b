//! Cards that are shown to seats.
ghost use Rattle.std.specs.Prelude.{◌≡◌, false, fold, All, OnOk, IsOk};
ghost use Rattle.rc_sheet_spec.specs.Sheet.{peek as peek_of};
ghost use Rattle.rc_play_spec.specs.Bound.{IsCardOf};
ghost use Rattle.rc_play_spec.specs.Effects.{is_named, show_card};
ghost use Rattle.rc_ast.specs.Names.{who_seen};
ghost use Rattle.rc_ast.specs.Expressions.{coll_seen};
ghost use Rattle.rc_table.specs.Laid.{relaid};
ghost use Rattle.rc_value.specs.Cards.{value_seen, values_seen};
ghost use Rattle.rc_value.specs.Context.{IsContextOf, in_scope};
ghost use Rattle.rc_value.specs.Under.{IsEffectUnder};
ghost use Rattle.rc_value.specs.Leads.{LeadsTo};
ghost use Rattle.rc_undo.specs.Undo.{Keeps};

use rc_ast::{Class, CollExpr, Who};
use rc_deck::Memory;
use rc_rules::Frames;
use rc_undo::Board;
use rc_value::{Card, Cards, Context, cards_now, class_of, joined_marks, who_now};

/// Shows cards to a player, or to each member of a team. Which cards they are is read before the first one is shown.
#[inline(never)]
pub fn peek(
    context: &Context,
    cards: &CollExpr,
    who: Who,
    board: &mut Board,
    frames: &Frames,
) -> Result<(), Memory>
    requires stands { IsContextOf context.now board.old.laid frames.now.items }
    requires well { in_scope context.now IsEffectUnder (peek_of (coll_seen cards.now) (who_seen who)) }
    ensures leads { OnOk result (LeadsTo context.now (peek_of (coll_seen cards.now) (who_seen who))
        board.old.laid frames.now.items board.new.laid frames.now.items) }
    ensures keeps { Keeps board.old board.new }
    ensures quiet { board.old.notes ≡ false → IsOk result }
{
    let owner = who_now(context, who, board.table(), frames);
    let mut room = Cards::new();
    cards_now(context, cards, board.table(), frames, &mut room);
    show_all(board, room.as_slice(), class_of(who), owner)
}

// Shows these cards, the first one first.
fn show_all(board: &mut Board, cards: &[Card], class: Class, owner: u8) -> Result<(), Memory>
    requires cards { All (λ card. IsCardOf board.old.laid.shape (value_seen card)) cards.now }
    ensures leads { OnOk result (board.new.laid ≡ relaid board.old.laid
        (fold (show_card board.old.laid.shape (is_named board.old.laid.shape class owner))
        board.old.laid.table (values_seen cards.now))) }
    ensures keeps { Keeps board.old board.new }
    ensures quiet { board.old.notes ≡ false → IsOk result }
{
    for card in cards {
        match show(board, *card, class, owner) {
            Ok(()) => {}
            Err(Memory) => return Err(Memory),
        }
    }
    Ok(())
}

// Shows a card. Of a reference nothing is shown.
fn show(board: &mut Board, card: Card, class: Class, owner: u8) -> Result<(), Memory>
    requires card { IsCardOf board.old.laid.shape (value_seen card) }
    ensures leads { OnOk result (board.new.laid ≡ relaid board.old.laid
        (show_card board.old.laid.shape (is_named board.old.laid.shape class owner)
        board.old.laid.table (value_seen card))) }
    ensures keeps { Keeps board.old board.new }
    ensures quiet { board.old.notes ≡ false → IsOk result }
{
    match card {
        Card::Held(id) => {
            let marks = joined_marks(board.table(), id, class, owner);
            board.set_marks(id, marks)
        }
        Card::Noted { .. } => Ok(()),
    }
}

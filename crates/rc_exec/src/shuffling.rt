//! Locations that are shuffled.
ghost use Rattle.std.specs.Prelude.{◌≡◌, ◌<◌, false, length, OnOk, IsOk};
ghost use Rattle.rc_sheet_spec.specs.Sheet.{shuffle as shuffle_of};
ghost use Rattle.rc_play_spec.specs.Table.{list_at, reorder};
ghost use Rattle.rc_play_spec.specs.Effects.{does_one};
ghost use Rattle.rc_ast.specs.Names.{loc_seen};
ghost use Rattle.rc_table.specs.Laid.{relaid};
ghost use Rattle.rc_value.specs.Context.{IsContextOf, in_scope};
ghost use Rattle.rc_value.specs.Under.{IsEffectUnder};
ghost use Rattle.rc_value.specs.Point.{point_of};
ghost use Rattle.rc_undo.specs.Undo.{Keeps};
ghost use Rattle.rc_rules.specs.Dealer.{ShuffledBy};

use rc_ast::Loc;
use rc_deck::Memory;
use rc_rules::{Dealer, Frames};
use rc_undo::Board;
use rc_value::{Context, loc_now, places};

/// Shuffles a location.
#[tactic(auto, using(crate::proofs::ShuffleLemmas::not_shuffled))]
#[inline(never)]
pub fn shuffle<D: Dealer>(
    context: &Context,
    loc: &Loc,
    board: &mut Board,
    frames: &Frames,
    dealer: &mut D,
) -> Result<(), Memory>
    requires stands { IsContextOf context.now board.old.laid frames.now.items }
    requires well { in_scope context.now IsEffectUnder (shuffle_of (loc_seen loc.now)) }
    ensures does { OnOk result (does_one context.now.about.now (D.dealing dealer.old) context.now.scope.now
        (shuffle_of (loc_seen loc.now))
        (point_of board.old.laid frames.now.items (D.state dealer.old))
        ≡ point_of board.new.laid frames.now.items (D.state dealer.new)) }
    ensures keeps { Keeps board.old board.new }
    ensures quiet { board.old.notes ≡ false → IsOk result }
    ensures shuffled { ShuffledBy D.dealing D.state dealer.old dealer.new }
    ensures dealing { D.dealing dealer.new ≡ D.dealing dealer.old }
{
    let Some(at) = loc_now(context, loc, board.table(), frames) else {
        return Ok(());
    };
    shuffle_at(board, at, dealer)
}

#[tactic(auto, using(crate::proofs::ShuffleLemmas::not_shuffled, crate::proofs::ShuffleLemmas::one_shuffle))]
fn shuffle_at<D: Dealer>(board: &mut Board, at: u16, dealer: &mut D) -> Result<(), Memory>
    requires there { at < length board.old.laid.shape.places }
    ensures table { OnOk result (board.new.laid
        ≡ relaid board.old.laid (reorder at
        ((D.dealing dealer.old).order (D.state dealer.old)
        (length (list_at board.old.laid.table at))) board.old.laid.table)) }
    ensures keeps { Keeps board.old board.new }
    ensures quiet { board.old.notes ≡ false → IsOk result }
    ensures next { D.state dealer.new
        ≡ (D.dealing dealer.old).next (D.state dealer.old) (length (list_at board.old.laid.table at)) }
    ensures shuffled { ShuffledBy D.dealing D.state dealer.old dealer.new }
    ensures dealing { D.dealing dealer.new ≡ D.dealing dealer.old }
{
    let mut order = places(board.table().list(at).len());
    dealer.shuffle(order.as_mut_slice());
    match board.reorder(at, order.as_slice()) {
        Ok(()) => Ok(()),
        Err(Memory) => Err(Memory),
    }
}

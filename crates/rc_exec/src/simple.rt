//! Effects that hold no others.
ghost use Rattle.std.specs.Prelude.{◌≡◌, false, OnOk, IsOk};
ghost use Rattle.rc_play_spec.specs.Effects.{does_one};
ghost use Rattle.rc_ast.specs.Effects.{effect_seen};
ghost use Rattle.rc_code.specs.Implements.{HoldsNone};
ghost use Rattle.rc_value.specs.Context.{IsContextOf, in_scope};
ghost use Rattle.rc_value.specs.Point.{point_of};
ghost use Rattle.rc_value.specs.Under.{IsEffectUnder};
ghost use Rattle.rc_undo.specs.Undo.{Keeps};
ghost use Rattle.rc_rules.specs.Dealer.{ShuffledBy};

use crate::moving::{move_all, move_one};
use crate::numbers::{change_number, set_number};
use crate::peeking::peek;
use crate::references::{forget, remember};
use crate::shuffling::shuffle;
use rc_ast::Effect;
use rc_deck::Memory;
use rc_rules::{Dealer, Frames};
use rc_undo::Board;
use rc_value::{Change, Context, name_next, turn_round};

/// Does an effect that holds no others.
#[tactic(auto, using(crate::proofs::ShuffleLemmas::not_shuffled))]
#[inline(always)]
pub fn do_simple<D: Dealer>(
    context: &Context,
    effect: &Effect,
    board: &mut Board,
    frames: &mut Frames,
    dealer: &mut D,
) -> Result<(), Memory>
    requires stands { IsContextOf context.now board.old.laid frames.old.items }
    requires well { in_scope context.now IsEffectUnder (effect_seen effect.now) }
    requires simple { HoldsNone (effect_seen effect.now) }
    ensures does { OnOk result (does_one context.now.about.now (D.dealing dealer.old) context.now.scope.now
        (effect_seen effect.now)
        (point_of board.old.laid frames.old.items (D.state dealer.old))
        ≡ point_of board.new.laid frames.new.items (D.state dealer.new)) }
    ensures stands { OnOk result (IsContextOf context.now board.new.laid frames.new.items) }
    ensures keeps { Keeps board.old board.new }
    ensures quiet { board.old.notes ≡ false → IsOk result }
    ensures shuffled { ShuffledBy D.dealing D.state dealer.old dealer.new }
    ensures dealing { D.dealing dealer.new ≡ D.dealing dealer.old }
{
    match effect {
        Effect::Move(card, end, loc) => move_one(context, card, *end, loc, board, &*frames),
        Effect::MoveAll(cards, end, loc) => { move_all(context, cards, *end, loc, board, &*frames) }
        Effect::Remember(card, end, loc) => { remember(context, card, *end, loc, board, &*frames) }
        Effect::Forget(card) => forget(context, card, board, &*frames),
        Effect::Shuffle(loc) => shuffle(context, loc, board, &*frames, dealer),
        Effect::Set(num, value) => set_number(context, num, value, board, &*frames),
        Effect::Inc(num, value) => {
            change_number(context, num, value, board, &*frames, Change::Increase)
        }
        Effect::Dec(num, value) => {
            change_number(context, num, value, board, &*frames, Change::Decrease)
        }
        Effect::Next(who) => {
            name_next(context, *who, board.table(), frames);
            Ok(())
        }
        Effect::Peek(cards, who) => peek(context, cards, *who, board, &*frames),
        Effect::Reverse => {
            turn_round(context, board.table(), frames);
            Ok(())
        }
        // these hold effects
        Effect::If(_, _) => unreachable!(),
        Effect::Repeat(_, _) => unreachable!(),
        Effect::Each(_, _, _) => unreachable!(),
    }
}

//! Effects that hold no others, and numbers that change at each player's turn.
ghost use Rattle.std.specs.Prelude.{◌≡◌, false, map, fold, IfSome};
ghost use Rattle.rc_base.specs.Numbers.{below};
ghost use Rattle.rc_sheet_spec.specs.WellFormed.{Around, AreEffects};
ghost use Rattle.rc_play_spec.specs.Value.{player_bound};
ghost use Rattle.rc_play_spec.specs.Effects.{does_one};
ghost use Rattle.rc_ast.specs.Effects.{effect_seen, effects_seen};
ghost use Rattle.rc_table.specs.Laid.{relaid};
ghost use Rattle.rc_rules.specs.Control.{frames_seen};
ghost use Rattle.rc_code.specs.Implements.{HoldsNone};
ghost use Rattle.rc_value.specs.Context.{IsContextOf, in_scope};
ghost use Rattle.rc_value.specs.Point.{point_of};
ghost use Rattle.rc_value.specs.Under.{IsEffectUnder};
ghost use Rattle.rc_exec.specs.Everyone.{AreTurns, IsInRange, change_for};

use rc_ast::Effect;
use rc_deck::Memory;
use rc_exec::{EachChange, change_all, change_of, do_simple};
use rc_rules::{About, Dealer, Frames};
use rc_table::Table;
use rc_undo::Board;
use rc_value::Context;

/// Does an effect that holds no others. A board that notes nothing takes no memory.
pub fn do_alone<D: Dealer>(
    context: &Context,
    effect: &Effect,
    board: &mut Board,
    frames: &mut Frames,
    dealer: &mut D,
)
    requires stands { IsContextOf context.now board.old.laid frames.old.items }
    requires quiet { board.old.notes ≡ false }
    requires well { in_scope context.now IsEffectUnder (effect_seen effect.now) }
    requires alone { HoldsNone (effect_seen effect.now) }
    ensures does { does_one context.now.about.now (D.dealing dealer.old) context.now.scope.now (effect_seen effect.now)
        (point_of board.old.laid frames.old.items (D.state dealer.old))
        ≡ point_of board.new.laid frames.new.items (D.state dealer.new) }
    ensures stands { IsContextOf context.now board.new.laid frames.new.items }
    ensures quiet { board.new.notes ≡ false }
    ensures dealing { D.dealing dealer.new ≡ D.dealing dealer.old }
{
    match do_simple(context, effect, board, frames, dealer) {
        Ok(()) => {}
        Err(Memory) => unreachable!(),
    }
}

/// The change, where effects under one more variable, which stands for a player, do nothing but change a number by one
/// that is written out or that the game keeps, and both are found without the variable.
#[inline(always)]
pub fn change_in(
    context: &Context,
    effects: &[Effect],
    table: &Table,
    frames: &Frames,
) -> Option<EachChange>
    requires stands { IsContextOf context.now table.now frames.now.items }
    requires well { (around : Around) × AreEffects context.now.about.now.sheet around (effects_seen effects.now) }
    ensures turns { IfSome result (λ each. AreTurns context.now.about.now context.now.scope.now
        (frames_seen frames.now.items) (effects_seen effects.now) (change_for each)) }
    ensures range { IfSome result (λ each. IsInRange each.value) }
{
    match effects {
        [effect] => match change_of(context, effect, table, frames) {
            Some(each) => Some(each),
            None => None,
        },
        _ => None,
    }
}

/// Changes a number at each player's turn. A board that notes nothing takes no memory.
#[inline(never)]
pub fn change_each(about: &About, each: EachChange, board: &mut Board)
    requires quiet { board.old.notes ≡ false }
    requires range { IsInRange each.value }
    ensures leads { board.new.laid ≡ relaid board.old.laid
        (fold (change_for each) board.old.laid.table
        (map (λ n. player_bound n) (below about.now.sheet.players))) }
    ensures quiet { board.new.notes ≡ false }
{
    match change_all(about, each, board) {
        Ok(()) => {}
        Err(Memory) => unreachable!(),
    }
}

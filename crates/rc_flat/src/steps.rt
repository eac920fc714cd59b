//! The steps of a match.
ghost use Rattle.std.specs.Prelude.{◌≡◌, ◌+◌, ◌<◌, IsSome, None, Some, false, List, slice_get, IfOk, OnOk, IsOk};
ghost use Rattle.rc_play_spec.specs.Owners.{mover};
ghost use Rattle.rc_play_spec.specs.Step.{goes, step};
ghost use Rattle.rc_rules.specs.Control.{frames_seen};
ghost use Rattle.rc_code.specs.Instruction.{Block as PureBlock, do_all, offer};
ghost use Rattle.rc_code.specs.Seen.{instruction_seen, list_seen};
ghost use Rattle.rc_undo.specs.Undo.{Keeps};
ghost use Rattle.rc_code.specs.Implements.{Implements};
ghost use Rattle.rc_flat.specs.State.{KeepsMenu, IsReady, config_at, next_seen, LeadsTo};
ghost use Rattle.rc_rules.specs.Dealer.{ShuffledBy};

use crate::{State, behind};
use rc_code::{Instruction, Offer};
use rc_deck::Memory;
use rc_exec::{do_block, front, past};
use rc_menu::fill_offers_at;
use rc_rules::{About, Dealer, Stop};
use rc_value::{Bindings, Context};

// Does the effects that are next, so many instructions.
#[tactic(auto, using(rc_exec::proofs::ShuffleLemmas::not_shuffled))]
fn do_next<D: Dealer>(
    state: &mut State,
    about: &About,
    code: &[Instruction],
    inside: usize,
    dealer: &mut D,
) -> Result<(), Memory>
    requires implements { Implements about.now.sheet (list_seen code.now) }
    requires ready { IsReady about.now (list_seen code.now) state.old }
    requires round { state.old.place.at_round ≡ false }
    requires here { slice_get (list_seen code.now) state.old.place.next ≡ Some (do_all inside) }
    ensures leads { OnOk result (step about.now (D.dealing dealer.old) (D.state dealer.old)
        (config_at about.now (list_seen code.now) state.old)
        ≡ goes (D.state dealer.new) (config_at about.now (list_seen code.now) state.new)) }
    ensures ready { OnOk result (IsReady about.now (list_seen code.now) state.new) }
    ensures keeps { Keeps state.old.board state.new.board }
    ensures quiet { state.old.board.notes ≡ false → IsOk result }
    ensures shuffled { ShuffledBy D.dealing D.state dealer.old dealer.new }
    ensures dealing { D.dealing dealer.new ≡ D.dealing dealer.old }
{
    let next = state.place.next() + 1;
    let inner = front(past(code, next), inside);
    let scope = Bindings::empty();
    let context = Context {
        about,
        scope: &scope,
        current: state.current,
    };
    match do_block(
        &context,
        inner,
        &mut state.board,
        &mut state.control.frames,
        dealer,
    ) {
        Ok(()) => {}
        Err(Memory) => return Err(Memory),
    }
    state.place.go_to(behind(code, next, inside));
    Ok(())
}

// Passes over the choice that is next where it offers nothing; else its mover decides, and its menu is kept.
#[inline(always)]
fn choice_next(
    state: &mut State,
    about: &About,
    code: &[Instruction],
    site: u8,
    alts: &[Offer],
    inside: usize,
) -> Option<Stop>
    requires implements { Implements about.now.sheet (list_seen code.now) }
    requires ready { IsReady about.now (list_seen code.now) state.old }
    requires round { state.old.place.at_round ≡ false }
    requires here { (blocks : List PureBlock)
        × (slice_get (list_seen code.now) state.old.place.next ≡ Some (offer site alts.now blocks inside)) }
    ensures leads { LeadsTo about.now (config_at about.now (list_seen code.now) state.old) result
        (config_at about.now (list_seen code.now) state.new) }
    ensures ready { IsReady about.now (list_seen code.now) state.new }
    ensures keeps { state.new.board ≡ state.old.board }
{
    let current = state.current;
    fill_offers_at(
        about,
        current,
        state.board.table(),
        &state.control,
        site,
        alts,
        &mut state.menu,
    );
    if state.menu.is_empty() {
        let next = state.place.next() + 1;
        state.place.go_to(behind(code, next, inside));
        return None;
    }
    decide(state, about, code, site, current.player)
}

// Stops at the choice that is next, whose mover has this seat, where the turn limit isn't met.
fn decide(
    state: &mut State,
    about: &About,
    code: &[Instruction],
    site: u8,
    seat: u8,
) -> Option<Stop>
    requires seat { seat ≡ mover about.now.sheet (frames_seen state.old.control.frames.items) }
    requires ready { IsReady about.now (list_seen code.now) state.old }
    requires here { KeepsMenu about.now (list_seen code.now) state.old site }
    ensures leads { LeadsTo about.now (config_at about.now (list_seen code.now) state.old) result
        (config_at about.now (list_seen code.now) state.new) }
    ensures ready { IsReady about.now (list_seen code.now) state.new }
    ensures keeps { state.new.board ≡ state.old.board }
{
    if state.control.turn >= about.turns() {
        return Some(Stop::Limit);
    }
    state.control.site = Some(site);
    Some(Stop::Decide { seat, site })
}

/// A step. It stops where the step does.
#[tactic(auto, using(rc_exec::proofs::ShuffleLemmas::not_shuffled))]
pub fn one_step<D: Dealer>(
    state: &mut State,
    about: &About,
    code: &[Instruction],
    dealer: &mut D,
) -> Result<Option<Stop>, Memory>
    requires implements { Implements about.now.sheet (list_seen code.now) }
    requires ready { IsReady about.now (list_seen code.now) state.old }
    ensures leads { IfOk result (λ stop. step about.now (D.dealing dealer.old) (D.state dealer.old)
        (config_at about.now (list_seen code.now) state.old)
        ≡ next_seen stop (config_at about.now (list_seen code.now) state.new) (D.state dealer.new)) }
    ensures ready { OnOk result (IsReady about.now (list_seen code.now) state.new) }
    ensures keeps { Keeps state.old.board state.new.board }
    ensures quiet { state.old.board.notes ≡ false → IsOk result }
    ensures shuffled { ShuffledBy D.dealing D.state dealer.old dealer.new }
    ensures dealing { D.dealing dealer.new ≡ D.dealing dealer.old }
    ensures kept { IfOk result (λ stop. IsSome stop → D.state dealer.new ≡ D.state dealer.old) }
{
    if state.place.at_round() {
        return Ok(state.step_round(about, code));
    }
    let Some(instruction) = code.get(state.place.next()) else {
        return Ok(state.leave(about, code));
    };
    match instruction {
        Instruction::Do(inside) => match do_next(state, about, code, *inside, dealer) {
            Ok(()) => Ok(None),
            Err(Memory) => Err(Memory),
        },
        Instruction::Stage { number, class, .. } => {
            state.open_next(about, code, *number, *class);
            Ok(None)
        }
        Instruction::Choice {
            site,
            alts,
            inside,
            ..
        } => Ok(choice_next(state, about, code, *site, alts, *inside)),
        Instruction::Simple(_) => Ok(state.leave(about, code)),
        Instruction::If(_, _) => Ok(state.leave(about, code)),
        Instruction::Repeat(_, _) => Ok(state.leave(about, code)),
        Instruction::Each(_, _, _) => Ok(state.leave(about, code)),
        Instruction::End => Ok(state.leave(about, code)),
    }
}

//! Decisions: what a mover may pick, and what follows.
ghost use Rattle.std.specs.Prelude.{◌≡◌, ℕ, ◌<◌, false, length, map, slice_get, slice_index_or, Some, OnOk, IsOk};
ghost use Rattle.rc_play_spec.specs.Step.{goes};
ghost use Rattle.rc_play_spec.specs.Decision.{choose};
ghost use Rattle.rc_rules.specs.Machine.{StopsAtDecision, menu_here};
ghost use Rattle.rc_code.specs.Instruction.{offer};
ghost use Rattle.rc_code.specs.Meaning.{block_in};
ghost use Rattle.rc_code.specs.Seen.{block_seen, list_seen};
ghost use Rattle.rc_undo.specs.Undo.{Keeps};
ghost use Rattle.rc_code.specs.Implements.{AreSimple, Implements};
ghost use Rattle.rc_flat.specs.State.{IsReady, config_at};
ghost use Rattle.rc_rules.specs.Dealer.{ShuffledBy};

use crate::{State, behind, choice_there};
use rc_code::{Block, Instruction, Offer};
use rc_deck::Memory;
use rc_exec::{do_item, front, past};
use rc_rules::{About, Dealer, Item, Items};
use rc_value::count_decision;

/// Takes an item of the menu of the decision that is next, and does its effects.
#[tactic(auto, using(rc_exec::proofs::ShuffleLemmas::not_shuffled))]
pub fn apply<D: Dealer>(
    state: &mut State,
    about: &About,
    code: &[Instruction],
    item: u16,
    dealer: &mut D,
) -> Result<(), Memory>
    requires implements { Implements about.now.sheet (list_seen code.now) }
    requires ready { IsReady about.now (list_seen code.now) state.old }
    requires decision { StopsAtDecision about.now (config_at about.now (list_seen code.now) state.old) }
    requires offered { item < length (menu_here about.now (config_at about.now (list_seen code.now) state.old)) }
    ensures leads { OnOk result (choose about.now (D.dealing dealer.old) (D.state dealer.old) item
        (config_at about.now (list_seen code.now) state.old)
        ≡ goes (D.state dealer.new) (config_at about.now (list_seen code.now) state.new)) }
    ensures ready { OnOk result (IsReady about.now (list_seen code.now) state.new) }
    ensures keeps { Keeps state.old.board state.new.board }
    ensures quiet { state.old.board.notes ≡ false → IsOk result }
    ensures shuffled { ShuffledBy D.dealing D.state dealer.old dealer.new }
    ensures dealing { D.dealing dealer.new ≡ D.dealing dealer.old }
{
    let choice = choice_there(code, state.place.next());
    take_item(
        state,
        about,
        code,
        choice.alts,
        choice.blocks,
        choice.inside,
        item,
        dealer,
    )
}

// Takes an item of the menu at the choice that is next, and does its effects.
#[tactic(auto, using(rc_exec::proofs::ShuffleLemmas::not_shuffled))]
fn take_item<D: Dealer>(
    state: &mut State,
    about: &About,
    code: &[Instruction],
    alts: &[Offer],
    blocks: &[Block],
    inside: usize,
    item: u16,
    dealer: &mut D,
) -> Result<(), Memory>
    requires implements { Implements about.now.sheet (list_seen code.now) }
    requires ready { IsReady about.now (list_seen code.now) state.old }
    requires here { (site : ℕ) × (slice_get (list_seen code.now) state.old.place.next
        ≡ Some (offer site alts.now (map block_seen blocks.now) inside)) }
    requires decision { StopsAtDecision about.now (config_at about.now (list_seen code.now) state.old) }
    requires offered { item < length (menu_here about.now (config_at about.now (list_seen code.now) state.old)) }
    ensures leads { OnOk result (choose about.now (D.dealing dealer.old) (D.state dealer.old) item
        (config_at about.now (list_seen code.now) state.old)
        ≡ goes (D.state dealer.new) (config_at about.now (list_seen code.now) state.new)) }
    ensures ready { OnOk result (IsReady about.now (list_seen code.now) state.new) }
    ensures keeps { Keeps state.old.board state.new.board }
    ensures quiet { state.old.board.notes ≡ false → IsOk result }
    ensures shuffled { ShuffledBy D.dealing D.state dealer.old dealer.new }
    ensures dealing { D.dealing dealer.new ≡ D.dealing dealer.old }
{
    // what an about keeps
    let _turns = about.turns();
    let current = state.current;
    let next = state.place.next() + 1;
    let item = item_at(&state.menu, item);
    let block = block_of(past(code, next), blocks, item.alt);
    match do_item(
        about,
        current,
        alts,
        block,
        item,
        &mut state.board,
        &mut state.control.frames,
        dealer,
    ) {
        Ok(()) => {}
        Err(Memory) => return Err(Memory),
    }
    count_decision(&mut state.control, current.player);
    state.place.go_to(behind(code, next, inside));
    Ok(())
}

/// The item at a place of a menu.
#[inline(always)]
pub(crate) fn item_at(menu: &Items, place: u16) -> &Item
    requires { place < length menu.now.items }
    ensures { result.now ≡ slice_index_or menu.now.items place result.now }
{
    &menu.as_slice()[place as usize]
}

// The instructions of an alternative's effects, by its place.
fn block_of<'c>(inside: &'c [Instruction], blocks: &[Block], alt: usize) -> &'c [Instruction]
    ensures code { list_seen result.now ≡ block_in (slice_get (map block_seen blocks.now) alt) (list_seen inside.now) }
    ensures simple { AreSimple (list_seen inside.now) → AreSimple (list_seen result.now) }
{
    match blocks.get(alt) {
        Some(block) => front(past(inside, block.before), block.inside),
        None => &[],
    }
}

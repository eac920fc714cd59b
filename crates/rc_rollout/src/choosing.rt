//! What strategies choose.
ghost use Rattle.std.specs.Prelude.{◌≡◌, ◌==◌, ◌≤◌, ◌<◌, ◌+◌, ◌⊎◌, max, fold, length, IfOk, OnOk, OnErr};
ghost use Rattle.std.specs.List.{position_or_len};
ghost use Rattle.rc_play_spec.specs.Keyed.{choice_of};
ghost use Rattle.rc_play_spec.specs.Strategy as strategy;
ghost use Rattle.rc_play_spec.specs.Tally.{tally as tally_of};
ghost use Rattle.rc_code.specs.Seen.{code_seen};
ghost use Rattle.rc_code.specs.Stands.{StandsFor};
ghost use Rattle.rc_redraw.specs.Asking.{cost_of, key_seen};
ghost use Rattle.rc_redraw.specs.Choosing.{Asks, Chooses, ChoiceLacks, Lacks, asked_for, most_steps};
ghost use Rattle.rc_redraw.specs.Counts.{Serves, kept_once};
ghost use Rattle.rc_redraw.specs.Need.{need_seen, IsAtDecision, IsNeed};
ghost use Rattle.rc_rollout.specs.Alone.{IsOffhand, keys_of};

use crate::ground::Ground;
use crate::tallies::tally_on;
use rc_base::Steps;
use rc_code::Code;
use rc_deck::Memory;
use rc_play_spec::tallies_are_bounded;
use rc_redraw::{Key, Memo, Need, Reply};
use rc_rules::{Strategy, keyed_pick, made_by, scripted_item};
use std::alloc::Global;
use std::sync::Arc;
use std::sync::ledger::Ledger;

/// The item that the strategy of a need chooses. For a rollout it asks the memo once. Where the memo has no totals they
/// are played out on the code, which stands for the sheet, a step for each playout, and given to the memo to keep.
/// Memory may run out, and then nothing was kept.
pub fn choose<M: Memo, L: Ledger>(
    alloc: Global,
    need: &Need,
    code: &Arc<Code>,
    memo: &mut M,
    steps: &mut Steps<L>,
) -> Result<u16, Memory>
    requires served { Serves (M.serves memo.old) (need_seen need.now).about }
    requires need { IsNeed (need_seen need.now) }
    requires code { StandsFor (need_seen need.now).about.sheet (code_seen code.now.value) }
    ensures choice { IfOk result (λ item. item
        ≡ choice_of (need_seen need.now).about (need_seen need.now).strategy (need_seen need.now).seed
        (need_seen need.now).view) }
    ensures counted { OnOk result (Chooses (need_seen need.now) (M.counts memo.old)
        (M.counts memo.new) steps.old steps.new) }
    ensures lacking { OnErr result (ChoiceLacks (need_seen need.now) (M.counts memo.old)
        (M.counts memo.new) steps.old steps.new) }
    ensures rises { steps.old ≤ steps.new }
    ensures bounded { steps.new ≤ steps.old + most_steps (need_seen need.now) }
    ensures same { M.serves memo.new ≡ M.serves memo.old }
    ensures named { M.name memo.new ≡ M.name memo.old }
{
    let about = Arc::try_clone(&need.about)?;
    let copy = need.copy(alloc)?;
    let mut ground = Ground::new(about);
    choose_on(alloc, copy, code, &mut ground, memo, steps)
}

/// The same on what earlier playouts for the same about left, of a need whose view becomes the key's.
pub(crate) fn choose_on<M: Memo, L: Ledger>(
    alloc: Global,
    need: Need,
    code: &Arc<Code>,
    ground: &mut Ground,
    memo: &mut M,
    steps: &mut Steps<L>,
) -> Result<u16, Memory>
    requires served { Serves (M.serves memo.old) (need_seen need).about }
    requires need { IsNeed (need_seen need) }
    requires code { StandsFor (need_seen need).about.sheet (code_seen code.now.value) }
    requires ground { ground.old ≡ (need_seen need).about }
    ensures choice { IfOk result (λ item. item
        ≡ choice_of (need_seen need).about (need_seen need).strategy (need_seen need).seed
        (need_seen need).view) }
    ensures counted { OnOk result (Chooses (need_seen need) (M.counts memo.old)
        (M.counts memo.new) steps.old steps.new) }
    ensures lacking { OnErr result (ChoiceLacks (need_seen need) (M.counts memo.old)
        (M.counts memo.new) steps.old steps.new) }
    ensures rises { steps.old ≤ steps.new }
    ensures bounded { steps.new ≤ steps.old + most_steps (need_seen need) }
    ensures same { M.serves memo.new ≡ M.serves memo.old }
    ensures named { M.name memo.new ≡ M.name memo.old }
    ensures ground { ground.new ≡ ground.old }
{
    let view = &need.view;
    match &need.strategy {
        Strategy::Script(numbers) => Ok(scripted_item(
            numbers,
            made_by(&view.control, view.seat),
            need.menu,
        )),
        Strategy::Random { key } => Ok(keyed_pick(
            *key,
            need.seed,
            view.seat,
            view.control.turn,
            need.menu,
        )),
        Strategy::Rollout { rounds, key } => {
            let (rounds, number, menu) = (*rounds, *key, need.menu);
            let key = need.into_key(alloc, rounds, number)?;
            best_of(alloc, &key, menu, code, ground, memo, steps)
        }
    }
}

/// The item of a strategy that asks nothing of playouts, and nothing for a rollout.
pub fn offhand_item(need: &Need) -> Option<u16>
    requires { IsNeed (need_seen need.now) }
    ensures { IsOffhand (need_seen need.now) result }
{
    let view = &need.view;
    match &need.strategy {
        Strategy::Script(numbers) => Some(scripted_item(
            numbers,
            made_by(&view.control, view.seat),
            need.menu,
        )),
        Strategy::Random { key } => Some(keyed_pick(
            *key,
            need.seed,
            view.seat,
            view.control.turn,
            need.menu,
        )),
        Strategy::Rollout { .. } => None,
    }
}

/// What a strategy asks of playouts: a rollout its key, and the others nothing. Memory may run out.
pub fn asked_key(alloc: Global, need: &Need) -> Result<Option<Key>, Memory>
    ensures { IfOk result (λ key. asked_for (need_seen need.now) ≡ keys_of key) }
{
    match &need.strategy {
        Strategy::Rollout { rounds, key } => {
            let need = need.copy(alloc)?;
            Ok(Some(need.into_key(alloc, *rounds, *key)?))
        }
        _ => Ok(None),
    }
}

// The first item of those with the largest total, out of a menu of so many, as the memo has the totals or playouts give
// them.
fn best_of<M: Memo, L: Ledger>(
    alloc: Global,
    key: &Key,
    menu: u16,
    code: &Arc<Code>,
    ground: &mut Ground,
    memo: &mut M,
    steps: &mut Steps<L>,
) -> Result<u16, Memory>
    requires served { Serves (M.serves memo.old) (key_seen key.now).about }
    requires at { IsAtDecision (key_seen key.now).about (key_seen key.now).ask.view }
    requires menu { menu ≡ strategy.menu_size (key_seen key.now).about (key_seen key.now).ask.view }
    requires code { StandsFor (key_seen key.now).about.sheet (code_seen code.now.value) }
    requires ground { ground.old ≡ (key_seen key.now).about }
    ensures item { IfOk result (λ item. item
        ≡ strategy.first_largest (tally_of (key_seen key.now).about (key_seen key.now).ask)) }
    ensures counted { OnOk result (Asks (key_seen key.now) (M.counts memo.old)
        (M.counts memo.new) steps.old steps.new) }
    ensures lacking { OnErr result (Lacks (key_seen key.now) (M.counts memo.old)
        (M.counts memo.new) steps.old steps.new) }
    ensures rises { steps.old ≤ steps.new }
    ensures bounded { steps.new ≤ steps.old + cost_of (key_seen key.now) }
    ensures same { M.serves memo.new ≡ M.serves memo.old }
    ensures named { M.name memo.new ≡ M.name memo.old }
    ensures ground { ground.new ≡ ground.old }
{
    tallies_are_bounded();
    let reply = memo.look(alloc, key)?;
    match reply {
        Reply::Hit(tally) => Ok(first_largest(&tally.totals) as u16),
        Reply::Miss => best_played(alloc, key, menu, code, ground, memo, steps),
    }
}

// That item as playouts give the totals. The memo is to keep them.
fn best_played<M: Memo, L: Ledger>(
    alloc: Global,
    key: &Key,
    menu: u16,
    code: &Arc<Code>,
    ground: &mut Ground,
    memo: &mut M,
    steps: &mut Steps<L>,
) -> Result<u16, Memory>
    requires served { Serves (M.serves memo.old) (key_seen key.now).about }
    requires at { IsAtDecision (key_seen key.now).about (key_seen key.now).ask.view }
    requires menu { menu ≡ strategy.menu_size (key_seen key.now).about (key_seen key.now).ask.view }
    requires code { StandsFor (key_seen key.now).about.sheet (code_seen code.now.value) }
    requires ground { ground.old ≡ (key_seen key.now).about }
    ensures item { IfOk result (λ item. item
        ≡ strategy.first_largest (tally_of (key_seen key.now).about (key_seen key.now).ask)) }
    ensures kept { OnOk result (M.counts memo.new ≡ kept_once (key_seen key.now) (M.counts memo.old)) }
    ensures lacking { OnErr result (memo.new ≡ memo.old) }
    ensures counted { OnOk result (steps.new ≡ steps.old + cost_of (key_seen key.now)) }
    ensures uncounted { OnErr result
        ((steps.new ≡ steps.old) ⊎ (steps.new ≡ steps.old + cost_of (key_seen key.now))) }
    ensures rises { steps.old ≤ steps.new }
    ensures bounded { steps.new ≤ steps.old + cost_of (key_seen key.now) }
    ensures same { M.serves memo.new ≡ M.serves memo.old }
    ensures named { M.name memo.new ≡ M.name memo.old }
    ensures ground { ground.new ≡ ground.old }
{
    tallies_are_bounded();
    let entry = tally_on(alloc, key, code, ground, steps)?;
    let item = first_largest(&entry.tally().totals) as u16;
    memo.keep(alloc, entry)?;
    Ok(item)
}

/// The place of the first of the largest totals.
pub fn first_largest(totals: &[u32]) -> usize
    ensures first { result ≡ strategy.first_largest totals.now }
    ensures within { result ≤ length totals.now }
{
    first_of(totals, largest(totals))
}

// The place of the first total of this size, or how many there are.
fn first_of(totals: &[u32], size: u32) -> usize
    ensures first { result ≡ position_or_len (λ total. total == size) totals.now }
    ensures within { result ≤ length totals.now }
{
    for place in 0..totals.len() {
        if totals[place] == size {
            return place;
        }
    }
    totals.len()
}

// The largest total, 0 where there is none.
fn largest(totals: &[u32]) -> u32
    ensures { result ≡ fold max 0 totals.now }
{
    totals.iter().fold(0, |most, total| most.max(*total))
}

//! Totals of keys.
ghost use Rattle.std.specs.Prelude.{◌≡◌, ◌≤◌, ◌+◌, IfOk, OnOk, OnErr};
ghost use Rattle.rc_code.specs.Seen.{code_seen};
ghost use Rattle.rc_code.specs.Stands.{StandsFor};
ghost use Rattle.rc_redraw.specs.Asking.{cost_of, key_seen};
ghost use Rattle.rc_redraw.specs.Need.{IsAtDecision};

use crate::ground::Ground;
use rc_base::Steps;
use rc_code::Code;
use rc_deck::Memory;
use rc_redraw::{Entry, Key, Tally};
use std::alloc::Global;
use std::sync::Arc;
use std::sync::ledger::Ledger;

/// The totals of a key: what each item of the menu gains over all rounds, each from a table redrawn for the round. The
/// code stands for the sheet. It counts a step for each playout. Memory may run out, but only before the first playout,
/// and then no step is counted.
pub fn tally<L: Ledger>(
    alloc: Global,
    key: &Key,
    code: &Arc<Code>,
    steps: &mut Steps<L>,
) -> Result<Entry, Memory>
    requires at { IsAtDecision (key_seen key.now).about (key_seen key.now).ask.view }
    requires code { StandsFor (key_seen key.now).about.sheet (code_seen code.now.value) }

    // An entry is seen as its key, since each has the totals that the playouts of its key come to.
    ensures key { IfOk result (λ entry. entry ≡ key_seen key.now) }
    ensures lacking { OnErr result (steps.new ≡ steps.old) }
    ensures counted { OnOk result (steps.new ≡ steps.old + cost_of (key_seen key.now)) }
    ensures rises { steps.old ≤ steps.new }
    ensures bounded { steps.new ≤ steps.old + cost_of (key_seen key.now) }
{
    let mut ground = Ground::new(Arc::try_clone(&key.about)?);
    tally_on(alloc, key, code, &mut ground, steps)
}

/// The same, on what earlier playouts for the same about left.
pub(crate) fn tally_on<L: Ledger>(
    alloc: Global,
    key: &Key,
    code: &Arc<Code>,
    ground: &mut Ground,
    steps: &mut Steps<L>,
) -> Result<Entry, Memory>
    requires at { IsAtDecision (key_seen key.now).about (key_seen key.now).ask.view }
    requires code { StandsFor (key_seen key.now).about.sheet (code_seen code.now.value) }
    requires ground { ground.old ≡ (key_seen key.now).about }
    ensures key { IfOk result (λ entry. entry ≡ key_seen key.now) }
    ensures lacking { OnErr result (steps.new ≡ steps.old) }
    ensures counted { OnOk result (steps.new ≡ steps.old + cost_of (key_seen key.now)) }
    ensures rises { steps.old ≤ steps.new }
    ensures bounded { steps.new ≤ steps.old + cost_of (key_seen key.now) }
    ensures ground { ground.new ≡ ground.old }
{
    let copy = copy_key(key)?;
    let totals = ground.totals(alloc, &key.ask, code, steps)?;
    Ok(Entry::new(copy, Tally { totals }))
}

// The same key once more.
fn copy_key(key: &Key) -> Result<Key, Memory>
    ensures { IfOk result (λ copy. key_seen copy ≡ key_seen key.now) }
{
    let about = Arc::try_clone(&key.about)?;
    let ask = Arc::try_clone(&key.ask)?;
    Ok(Key { about, ask })
}

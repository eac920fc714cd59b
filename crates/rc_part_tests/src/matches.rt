//! Matches on the tree machine, what their tables hold, and what seats see of them.
ghost use Rattle.std.specs.Prelude.{◌≡◌, IfOk};
ghost use Rattle.rc_plain.specs.Plain.{config_of};
ghost use Rattle.rc_rules.specs.Machine.{StopsAtDecision};
ghost use Rattle.rc_view.specs.Key.{HasKey};
ghost use Rattle.rc_view.specs.Seen.{view_seen};

use crate::expect::expect_same;
use rc_games::basis_in;
use rc_plain::PlainMachine;
use rc_rules::{Machine, MatchDealer, Stop};
use rc_table::Table;
use rc_view::{View, key_bytes, view_of};
use std::alloc::Global;
use std::process::Abort;
use std::test::Fail;

/// A match of the sheet in a text, at its start, with a turn limit of 64.
pub fn start_of(alloc: Global, text: &[u8]) -> Result<PlainMachine, Fail> {
    let basis = basis_in(alloc, text)?;
    Ok(PlainMachine::start(alloc, &basis.checked, &basis.shape, 64)?)
}

/// The match at its next decision.
pub fn go_on(machine: &mut PlainMachine, dealer: &mut MatchDealer) -> Result<(), Fail>
    ensures decision { IfOk result (λ _. StopsAtDecision machine.new.about (config_of machine.new)) }
    ensures same { machine.new.about ≡ machine.old.about }
{
    match machine.advance(dealer) {
        Ok(Stop::Decide { .. }) => Ok(()),
        _ => Err("somebody decides".into()),
    }
}

/// What a seat sees of a match.
pub fn seen_by(
    rt: &(impl AllocGlobal + Abort),
    machine: &PlainMachine,
    seat: u8,
) -> Result<View, Fail>
    ensures { IfOk result (λ view. HasKey (view_seen view)) }
{
    let table = machine.table();
    assert!(rt; seat < table.shape().players());
    Ok(view_of(rt.alloc(), table.shape(), table, machine.control(), seat)?)
}

/// The bytes of a copied view.
pub fn copied_key(alloc: Global, view: &View) -> Result<Vec<u8>, Fail>
    requires { HasKey (view_seen view.now) }
{
    let copy = view.copy(alloc)?;
    Ok(key_bytes(alloc, &copy)?)
}

/// Fails unless the locations of a table hold these lists.
pub fn expect_lists(rt: &(impl AllocGlobal + Abort), table: &Table, lists: &[&[u16]]) {
    expect_same(rt, usize::from(table.shape().locations()), lists.len());
    for (loc, list) in (0u16..512).zip(lists) {
        expect_same(rt, table.list(loc), *list);
    }
}

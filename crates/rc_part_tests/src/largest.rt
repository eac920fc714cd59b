//! Machines that are made anew at a decision: of a small game, and of the largest sheet, with 512 cards, 256 locations
//! and 256 numbers, and in a match as many references as there may be.
ghost use Rattle.std.specs.Prelude.{◌≡◌, false, IfOk};
ghost use Rattle.rc_play_spec.specs.Shape.{shape_of as shape_for};
ghost use Rattle.rc_play_spec.specs.Step.{start};
ghost use Rattle.rc_rules.specs.Machine.{CanDecide, StopsAtDecision};
ghost use Rattle.rc_plain.specs.Plain.{config_of};
ghost use Rattle.rc_code.specs.Seen.{code_seen};
ghost use Rattle.rc_code.specs.Stands.{StandsFor};

use crate::expect::expect_same;
use crate::matches::{copied_key, go_on, seen_by};
use rc_code::{Code, compile};
use rc_flat::FlatMachine;
use rc_games::{Basis, GAME, are_same_controls, are_same_tables, basis_in, largest};
use rc_plain::PlainMachine;
use rc_play_spec::controls_fit_their_sites;
use rc_rules::{About, Machine, MatchDealer, Stop};
use rc_table::Table;
use std::alloc::Global;
use std::process::Abort;
use std::sync::Arc;
use std::test::Fail;

/// What matches of the largest sheet share.
fn largest_basis(alloc: Global) -> Result<Basis, Fail>
    ensures { IfOk result (λ basis. basis.shape.value ≡ shape_for basis.checked.value) }
{
    let text = largest(alloc)?;
    Ok(basis_in(alloc, &text)?)
}

/// A match at its start goes on to its first decision.
fn decide_first(
    about: &About,
    machine: &mut PlainMachine,
    dealer: &mut MatchDealer,
) -> Result<(), Fail>
    requires about { machine.old.about ≡ about.now }
    requires start { config_of machine.old ≡ start about.now }
    ensures decides { IfOk result (λ _. CanDecide about.now (config_of machine.new).table
        (config_of machine.new).control) }
    ensures same { machine.new.about ≡ about.now }
{
    controls_fit_their_sites();
    // what an about keeps
    let _sheet = about.sheet();
    match machine.advance(dealer) {
        Ok(Stop::Decide { .. }) => Ok(()),
        _ => Err("somebody decides".into()),
    }
}

/// What the matches are played by, with a turn limit of 100.
fn about_on(alloc: Global, basis: &Basis) -> Result<About, Fail>
    requires { basis.now.shape.value ≡ shape_for basis.now.checked.value }
    ensures { IfOk result (λ about. about
        ≡ record { sheet = basis.now.checked.value; shape = basis.now.shape.value; turns = 100 }) }
{
    let checked = Arc::try_clone(&basis.checked)?;
    let shape = Arc::try_clone(&basis.shape)?;
    Ok(About::new(alloc, checked, shape, 100)?)
}

/// A match at its first decision.
fn first_on(alloc: Global, about: &About, dealer: &mut MatchDealer) -> Result<PlainMachine, Fail>
    ensures about { IfOk result (λ m. m.about ≡ about.now) }
    ensures decides { IfOk result (λ m. CanDecide about.now (config_of m).table (config_of m).control) }
{
    let mut machine = PlainMachine::start_of(alloc, about)?;
    decide_first(about, &mut machine, dealer)?;
    Ok(machine)
}

/// A machine that is made where another one stands, at a decision.
fn made_there(alloc: Global, basis: &Basis, machine: &PlainMachine) -> Result<PlainMachine, Fail>
    requires shape { basis.now.shape.value ≡ shape_for basis.now.checked.value }
    requires about { machine.now.about
        ≡ record { sheet = basis.now.checked.value; shape = basis.now.shape.value; turns = 100 } }
    requires decides { CanDecide machine.now.about (config_of machine.now).table (config_of machine.now).control }
{
    let table = machine.table().copy(alloc)?;
    let control = machine.control().copy();
    Ok(PlainMachine::at(alloc, &basis.checked, &basis.shape, 100, table, control)?)
}

/// A machine that is made at the first decision of a match.
fn made_at_first(
    alloc: Global,
    basis: &Basis,
    dealer: &mut MatchDealer,
) -> Result<PlainMachine, Fail>
    requires { basis.now.shape.value ≡ shape_for basis.now.checked.value }
{
    let about = about_on(alloc, basis)?;
    let machine = first_on(alloc, &about, dealer)?;
    made_there(alloc, basis, &machine)
}

/// The code of a sheet.
pub fn code_on(alloc: Global, basis: &Basis) -> Result<Arc<Code>, Fail>
    ensures { IfOk result (λ code. StandsFor basis.now.checked.value (code_seen code.value)) }
{
    let code = compile(alloc, &basis.checked)?;
    Ok(Arc::new(alloc, code)?)
}

/// A flat machine that is made by its parts where another machine stands, at a decision.
fn flat_there(
    alloc: Global,
    basis: &Basis,
    code: &Arc<Code>,
    machine: &PlainMachine,
) -> Result<FlatMachine, Fail>
    requires shape { basis.now.shape.value ≡ shape_for basis.now.checked.value }
    requires code { StandsFor basis.now.checked.value (code_seen code.now.value) }
    requires about { machine.now.about
        ≡ record { sheet = basis.now.checked.value; shape = basis.now.shape.value; turns = 100 } }
    requires decides { CanDecide machine.now.about (config_of machine.now).table (config_of machine.now).control }
    ensures fresh { IfOk result (λ m. m.spent ≡ false) }
{
    let table = machine.table().copy(alloc)?;
    let control = machine.control().copy();
    let (checked, shape) = (&basis.checked, &basis.shape);
    Ok(FlatMachine::at(alloc, code, checked, shape, 100, table, control)?)
}

/// A flat machine that is made by its parts at the start of a match goes on to its first decision.
pub fn flat_first(
    alloc: Global,
    basis: &Basis,
    code: &Arc<Code>,
    dealer: &mut MatchDealer,
) -> Result<FlatMachine, Fail>
    requires shape { basis.now.shape.value ≡ shape_for basis.now.checked.value }
    requires code { StandsFor basis.now.checked.value (code_seen code.now.value) }
    ensures fresh { IfOk result (λ m. m.spent ≡ false) }
    ensures decision { IfOk result (λ m. StopsAtDecision m.about m.config) }
{
    let mut machine = FlatMachine::start(alloc, code, &basis.checked, &basis.shape, 100)?;
    match machine.advance(dealer) {
        Ok(Stop::Decide { .. }) => Ok(machine),
        _ => Err("somebody decides".into()),
    }
}

/// Fails unless a flat machine has the table and the control of another machine.
fn expect_there(rt: &impl Abort, flat: &FlatMachine, machine: &PlainMachine)
    requires { flat.now.spent ≡ false }
{
    assert!(rt; are_same_tables(flat.table(), machine.table()));
    assert!(rt; are_same_controls(flat.control(), machine.control()));
}

/// Fails unless flat machines that are made by their parts stand at the first decision where the tree machine does.
fn expect_flat(
    rt: &(impl AllocGlobal + Abort),
    basis: &Basis,
    machine: &PlainMachine,
) -> Result<(), Fail>
    requires shape { basis.now.shape.value ≡ shape_for basis.now.checked.value }
    requires about { machine.now.about
        ≡ record { sheet = basis.now.checked.value; shape = basis.now.shape.value; turns = 100 } }
    requires decides { CanDecide machine.now.about (config_of machine.now).table (config_of machine.now).control }
{
    let code = code_on(rt.alloc(), basis)?;
    let there = flat_there(rt.alloc(), basis, &code, machine)?;
    expect_there(rt, &there, machine);
    let first = flat_first(rt.alloc(), basis, &code, &mut MatchDealer::new(0))?;
    expect_there(rt, &first, machine);
    Ok(())
}

/// Fails unless a table has all cards, and players the number 1.
fn expect_full(rt: &(impl AllocGlobal + Abort), table: &Table) {
    expect_same(rt, table.shape().locations(), 256);
    expect_same(rt, table.shape().numbers(), 256);
    expect_same(rt, table.shape().cards(), 512);
    expect_same(rt, table.list(0).len(), 512);
    expect_same(rt, table.list(1).len(), 512);
    expect_same(rt, table.list(2).len(), 512);
    expect_same(rt, table.number(0), 1);
}

/// What a seat doesn't see: three locations of the game, and 31 of each other player.
const UNSEEN: usize = 3 + 7 * 31;

/// The seat, the site, the turn count, the decisions of 8 seats, how many stages are open, and one stage; 256 numbers;
/// how many cards or references each of 256 locations has, of those that aren't seen how many are known, and the faces
/// of three times 512.
const KEY: usize = 1 + 1 + 4 + 8 * 4 + 1 + 5 + 256 * 4 + 256 * 2 + UNSEEN * 2 + 3 * 512 * 2;

/// Fails unless a seat's view is known by so many bytes.
fn expect_key(
    rt: &(impl AllocGlobal + Abort),
    machine: &PlainMachine,
    seat: u8,
) -> Result<(), Fail> {
    let view = seen_by(rt, machine, seat)?;
    let key = copied_key(rt.alloc(), &view)?;
    expect_same(rt, key.len(), KEY);
    Ok(())
}

/// It is made anew at its first decision, with a copied table. That goes on, and each seat's view is made, copied and
/// told in bytes.
#[test]
fn the_largest_sheet_is_played_copied_and_seen(rt: HostRuntime) -> Result<(), Fail> {
    let basis = largest_basis(rt.alloc())?;
    let mut dealer = MatchDealer::new(0);
    let mut made = made_at_first(rt.alloc(), &basis, &mut dealer)?;
    expect_full(&rt, made.table());
    go_on(&mut made, &mut dealer)?;
    expect_same(&rt, made.menu().len(), 256);
    for seat in 0..8u8 {
        expect_key(&rt, &made, seat)?;
    }
    Ok(())
}

/// Machines of both kinds that are made by their parts, at the start and at the first decision, stand where the match
/// does.
#[test]
fn machines_are_made_by_their_parts(rt: HostRuntime) -> Result<(), Fail> {
    let basis = basis_in(rt.alloc(), GAME)?;
    let about = about_on(rt.alloc(), &basis)?;
    let machine = first_on(rt.alloc(), &about, &mut MatchDealer::new(0))?;
    expect_flat(&rt, &basis, &machine)
}

/// Of two cards each, the first player has chosen none.
#[test]
fn a_machine_is_made_at_a_decision(rt: HostRuntime) -> Result<(), Fail> {
    let basis = basis_in(rt.alloc(), GAME)?;
    let mut dealer = MatchDealer::new(0);
    let mut made = made_at_first(rt.alloc(), &basis, &mut dealer)?;
    go_on(&mut made, &mut dealer)?;
    expect_same(&rt, made.menu().len(), 2);
    Ok(())
}

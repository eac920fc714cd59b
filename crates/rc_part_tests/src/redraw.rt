//! A redrawn table, worked out by hand; and copies of a table and of a tally.
ghost use Rattle.std.specs.Prelude.{◌≡◌, IfOk};

use crate::expect::expect_same;
use crate::matches::{expect_lists, go_on};
use rc_draw::key32;
use rc_games::{GAME, PILES, basis_in};
use rc_plain::PlainMachine;
use rc_redraw::{Tally, redraw};
use rc_rules::{About, Machine, MatchDealer};
use rc_table::Table;
use rc_view::view_of;
use std::alloc::Global;
use std::process::Abort;
use std::test::Fail;

/// What the locations hold at the first decision: STOCK, the two hands, OPEN, MARKS and PILE, from bottom to top.
const DEALT: [&[u16]; 6] = [&[0, 1], &[9, 7], &[8, 6], &[5, 4], &[5, 4], &[3, 2]];

/// And in the table that is redrawn for the first seat, which sees the faces 3 and 0 in its hand and 3 and 1 in OPEN
/// and in MARKS.
///
/// The cards in its hand are then 3 and 0. Those in OPEN are 5, since 3 is taken, and 1. A reference is the smallest
/// card of its face, taken or not. The other cards are 2, 4, 6, 7, 8 and 9. By a ChaCha8 written apart from this
/// program, the first words of the key are 1,920,058,440, 964,124,046, 3,400,814,795, 630,099,665 and 3,488,503,945. A
/// word w chooses place w * n / 2^32 of the first n, with n from 6 down to 2, and the card there changes places with
/// the last of the n:
///
/// - place 2 of 6: 2 4 9 7 8 6
/// - place 1 of 5: 2 8 9 7 4 6
/// - place 3 of 4: the same
/// - place 0 of 3: 9 8 2 7 4 6
/// - place 1 of 2: the same
const REDRAWN: [&[u16]; 6] = [&[9, 8], &[3, 0], &[2, 7], &[5, 1], &[3, 1], &[4, 6]];

/// What the matches of the sheet in a text are played by.
fn about_in(alloc: Global, text: &[u8]) -> Result<About, Fail> {
    let basis = basis_in(alloc, text)?;
    Ok(About::new(alloc, basis.checked, basis.shape, 64)?)
}

/// A match at its first decision.
fn machine_at_decision(alloc: Global, about: &About) -> Result<PlainMachine, Fail>
    ensures { IfOk result (λ m. m.about ≡ about.now) }
{
    let mut machine = PlainMachine::start_of(alloc, about)?;
    go_on(&mut machine, &mut MatchDealer::new(0))?;
    Ok(machine)
}

/// The table that is redrawn of what the first seat sees of a match.
fn redrawn_table(
    rt: &(impl AllocGlobal + Abort),
    about: &About,
    machine: &PlainMachine,
) -> Result<Table, Fail>
    requires { machine.now.about ≡ about.now }
{
    let shape = about.shape();
    assert!(rt; 0 < shape.players());
    let table = machine.table();
    // what a table keeps
    let _shape = table.shape();
    let view = view_of(rt.alloc(), shape, table, machine.control(), 0)?;
    Ok(redraw(rt.alloc(), shape, &view, &key32(7, 3, 0, 0))?)
}

#[test]
fn a_table_is_redrawn_by_what_is_seen_and_a_key(rt: HostRuntime) -> Result<(), Fail> {
    let about = about_in(rt.alloc(), PILES)?;
    let machine = machine_at_decision(rt.alloc(), &about)?;
    expect_lists(&rt, machine.table(), &DEALT);
    let table = redrawn_table(&rt, &about, &machine)?;
    expect_lists(&rt, &table, &REDRAWN);
    expect_same(&rt, table.number(0), -3);
    Ok(())
}

/// What the locations of the game hold at its start: STOCK, the two hands, and what the two players played.
const START: [&[u16]; 5] = [&[0, 1, 2, 3], &[], &[], &[], &[]];

/// A copy of the opening table.
fn opening(alloc: Global) -> Result<Table, Fail> {
    let about = about_in(alloc, GAME)?;
    let table = Table::new(alloc, about.shape())?;
    Ok(table.copy(alloc)?)
}

#[test]
fn a_copied_opening_table_has_its_lists(rt: HostRuntime) -> Result<(), Fail> {
    let copy = opening(rt.alloc())?;
    expect_lists(&rt, &copy, &START);
    Ok(())
}

const TOTALS: [u32; 3] = [6, 0, 14_000];

/// A tally with these totals.
fn tally(alloc: Global) -> Result<Tally, Fail> {
    let totals = TOTALS.to_vec(alloc)?;
    Ok(Tally { totals })
}

#[test]
fn a_copied_tally_has_its_totals(rt: HostRuntime) -> Result<(), Fail> {
    let tally = tally(rt.alloc())?;
    let copy = tally.copy(rt.alloc())?;
    expect_same(&rt, copy.totals.as_slice(), TOTALS.as_slice());
    Ok(())
}

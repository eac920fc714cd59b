//! What stops are worth to one seat in a game of two teams, with those items left out that can't change it.
ghost use Rattle.std.specs.Prelude.{◌≡◌, ◌<◌, ◌≤◌, ◌+◌, true, false, max, min, fold, length, if◌then◌else◌, IsSome, IfOk, OnOk};
ghost use Rattle.rc_ast.specs.Sheet.{sheet_seen};
ghost use Rattle.rc_play_spec.specs.About.{menu_at};
ghost use Rattle.rc_play_spec.specs.Scores as play;
ghost use Rattle.rc_rules.specs.Control.{stop_seen};
ghost use Rattle.rc_rules.specs.Machine.{Decides, StopsAtDecision, IsWhereItStops, menu_here};
ghost use Rattle.rc_play_spec.specs.SearchValue.{most_points as most_for};
ghost use Rattle.rc_flat.specs.Moments.{StaysInMatch};
ghost use Rattle.rc_search.specs.Keeping.{AreOfShape};
ghost use Rattle.rc_search.specs.Sides.{AreSides};
ghost use Rattle.rc_search.specs.Looking.{Tells, tried_at, tried_behind, tried_with, value_at, value_behind, values};
ghost use Rattle.rc_search.specs.Pruning.{bounded_to};

use crate::dealer::{SearchDealer, Way};
use crate::plain::count_one;
use crate::rooms::Rooms;
use crate::sides::{Sides, is_mate, points_by};
use crate::stand::{give_back, keep_for, stand_for};
use rc_ast::Sheet;
use rc_base::Steps;
use rc_deck::Memory;
use rc_flat::FlatMachine;
use rc_rules::{About, Machine, Stop};
use std::sync::ledger::Ledger;

/// What an item is worth to the seat, so many decisions deep behind it, if that lies between two bounds, and otherwise
/// the bound that it passes. The machine stands at the item's decision, and can go back there behind this. Each item
/// that is tried is a step.
#[cycle(pruned)]
pub(crate) fn behind_within<L: Ledger>(
    about: &About,
    sides: &Sides,
    way: &Way,
    depth: u8,
    item: u16,
    made: u64,
    low: u8,
    high: u8,
    machine: &mut FlatMachine,
    rooms: &mut Rooms,
    steps: &mut Steps<L>,
    applied: &mut u64,
) -> Result<u8, Memory>
    requires about { machine.old.about ≡ about.now }
    requires sides { AreSides about.now.sheet sides.now.items }
    requires fresh { machine.old.spent ≡ false }
    requires home { IsSome machine.old.home }
    requires decides { StopsAtDecision about.now machine.old.config }
    requires offered { item < length (menu_here about.now machine.old.config) }
    requires player { way.now.seat < about.now.sheet.players }
    requires made { made < 281474976710656 }
    requires rooms { AreOfShape about.now.shape rooms.old }
    requires few { applied.old ≤ 18446744073709551615 }
    requires bounds { low ≤ high }
    requires top { high ≤ most_for about.now.sheet way.now.seat }
    ensures value { IfOk result (λ found. found
        ≡ bounded_to low high (value_behind about.now way.now depth machine.old.config made item)) }
    ensures stays { OnOk result (StaysInMatch machine.old machine.new) }
    ensures rooms { OnOk result (AreOfShape about.now.shape rooms.new) }
    ensures counted { OnOk result (steps.new
        ≤ steps.old + 1 + tried_behind about.now way.now depth machine.old.config made item) }
    ensures told { OnOk result (Tells applied.old applied.new steps.old steps.new) }
{
    let mut dealer = SearchDealer::new(way, made);
    machine.apply(item, &mut dealer)?;
    steps.add(1);
    count_one(applied);
    let stop = machine.advance(&mut dealer)?;
    let made = dealer.shuffle_count();
    let found = worth_within(
        about, sides, way, depth, stop, made, low, high, machine, rooms, steps, applied,
    )?;
    Ok(found)
}

// What the stop where a machine stands is worth to the seat, so many decisions deep, if that lies between two bounds,
// and otherwise the bound that it passes.
#[tactic(auto, using(rc_flat::proofs::GoingLemmas::stays_still))]
#[cycle(pruned)]
fn worth_within<L: Ledger>(
    about: &About,
    sides: &Sides,
    way: &Way,
    depth: u8,
    stop: Stop,
    made: u64,
    low: u8,
    high: u8,
    machine: &mut FlatMachine,
    rooms: &mut Rooms,
    steps: &mut Steps<L>,
    applied: &mut u64,
) -> Result<u8, Memory>
    requires about { machine.old.about ≡ about.now }
    requires sides { AreSides about.now.sheet sides.now.items }
    requires fresh { machine.old.spent ≡ false }
    requires home { IsSome machine.old.home }
    requires stands { IsWhereItStops about.now (stop_seen stop) machine.old.config }
    requires player { way.now.seat < about.now.sheet.players }
    requires made { made < 281474976710656 }
    requires rooms { AreOfShape about.now.shape rooms.old }
    requires few { applied.old ≤ 18446744073709551615 }
    requires bounds { low ≤ high }
    requires top { high ≤ most_for about.now.sheet way.now.seat }
    ensures value { IfOk result (λ found. found
        ≡ bounded_to low high (value_at about.now way.now depth (stop_seen stop) machine.old.config made)) }
    ensures stays { OnOk result (StaysInMatch machine.old machine.new) }
    ensures rooms { OnOk result (AreOfShape about.now.shape rooms.new) }
    ensures counted { OnOk result (steps.new
        ≤ steps.old + tried_at about.now way.now depth (stop_seen stop) machine.old.config made) }
    ensures told { OnOk result (Tells applied.old applied.new steps.old steps.new) }
{
    match stop {
        Stop::Done => Ok(bound_points(points_of(about, sides, way.seat, machine), low, high)),
        Stop::Limit => Ok(bound_points(points_of(about, sides, way.seat, machine), low, high)),
        Stop::Decide { seat, site } => {
            if depth == 0 {
                return Ok(bound_points(points_of(about, sides, way.seat, machine), low, high));
            }
            if is_mate(about.sheet(), sides, way.seat, seat) {
                most_within(
                    about,
                    sides,
                    way,
                    depth - 1,
                    seat,
                    site,
                    made,
                    low,
                    high,
                    machine,
                    rooms,
                    steps,
                    applied,
                )
            } else {
                least_within(
                    about,
                    sides,
                    way,
                    depth - 1,
                    seat,
                    site,
                    made,
                    low,
                    high,
                    machine,
                    rooms,
                    steps,
                    applied,
                )
            }
        }
    }
}

// The most that the items of a decision are worth to the seat, between two bounds. Each item raises the lower one for
// those behind it. Where they meet, no further item can change anything.
#[cycle(pruned)]
fn most_within<L: Ledger>(
    about: &About,
    sides: &Sides,
    way: &Way,
    depth: u8,
    seat: u8,
    site: u8,
    made: u64,
    low: u8,
    high: u8,
    machine: &mut FlatMachine,
    rooms: &mut Rooms,
    steps: &mut Steps<L>,
    applied: &mut u64,
) -> Result<u8, Memory>
    requires about { machine.old.about ≡ about.now }
    requires sides { AreSides about.now.sheet sides.now.items }
    requires fresh { machine.old.spent ≡ false }
    requires home { IsSome machine.old.home }
    requires decides { Decides about.now seat site machine.old.config }
    requires player { way.now.seat < about.now.sheet.players }
    requires made { made < 281474976710656 }
    requires rooms { AreOfShape about.now.shape rooms.old }
    requires few { applied.old ≤ 18446744073709551615 }
    requires bounds { low ≤ high }
    requires top { high ≤ most_for about.now.sheet way.now.seat }
    ensures value { IfOk result (λ found. found ≡ bounded_to low high (fold max 0
        (values about.now way.now depth machine.old.config made
        (length (menu_at about.now site machine.old.config.table machine.old.config.control))))) }
    ensures stays { OnOk result (StaysInMatch machine.old machine.new) }
    ensures rooms { OnOk result (AreOfShape about.now.shape rooms.new) }
    ensures counted { OnOk result (steps.new ≤ steps.old + tried_with about.now way.now depth machine.old.config made
        (length (menu_at about.now site machine.old.config.table machine.old.config.control))) }
    ensures told { OnOk result (Tells applied.old applied.new steps.old steps.new) }
{
    let size = machine.menu_size() as u16;
    let kept = keep_for(size, machine, rooms)?;
    let mut best = low;
    for item in 0..size {
        if best >= high {
            give_back(kept, rooms);
            return Ok(best);
        }
        stand_for(item, &kept, machine);
        best = behind_within(
            about, sides, way, depth, item, made, best, high, machine, rooms, steps, applied,
        )?;
    }
    give_back(kept, rooms);
    Ok(best)
}

// The least that they are worth to it, between two bounds. Each item lowers the upper one for those behind it.
#[cycle(pruned)]
fn least_within<L: Ledger>(
    about: &About,
    sides: &Sides,
    way: &Way,
    depth: u8,
    seat: u8,
    site: u8,
    made: u64,
    low: u8,
    high: u8,
    machine: &mut FlatMachine,
    rooms: &mut Rooms,
    steps: &mut Steps<L>,
    applied: &mut u64,
) -> Result<u8, Memory>
    requires about { machine.old.about ≡ about.now }
    requires sides { AreSides about.now.sheet sides.now.items }
    requires fresh { machine.old.spent ≡ false }
    requires home { IsSome machine.old.home }
    requires decides { Decides about.now seat site machine.old.config }
    requires player { way.now.seat < about.now.sheet.players }
    requires made { made < 281474976710656 }
    requires rooms { AreOfShape about.now.shape rooms.old }
    requires few { applied.old ≤ 18446744073709551615 }
    requires bounds { low ≤ high }
    requires top { high ≤ most_for about.now.sheet way.now.seat }
    ensures value { IfOk result (λ found. found ≡ bounded_to low high (fold min (most_for about.now.sheet way.now.seat)
        (values about.now way.now depth machine.old.config made
        (length (menu_at about.now site machine.old.config.table machine.old.config.control))))) }
    ensures stays { OnOk result (StaysInMatch machine.old machine.new) }
    ensures rooms { OnOk result (AreOfShape about.now.shape rooms.new) }
    ensures counted { OnOk result (steps.new ≤ steps.old + tried_with about.now way.now depth machine.old.config made
        (length (menu_at about.now site machine.old.config.table machine.old.config.control))) }
    ensures told { OnOk result (Tells applied.old applied.new steps.old steps.new) }
{
    let size = machine.menu_size() as u16;
    let kept = keep_for(size, machine, rooms)?;
    let mut best = high;
    for item in 0..size {
        if best <= low {
            give_back(kept, rooms);
            return Ok(best);
        }
        stand_for(item, &kept, machine);
        best = behind_within(
            about, sides, way, depth, item, made, low, best, machine, rooms, steps, applied,
        )?;
    }
    give_back(kept, rooms);
    Ok(best)
}

// A number, or the bound that it passes.
fn bound_points(points: u8, low: u8, high: u8) -> u8
    ensures { result ≡ bounded_to low high points }
{
    points.min(high).max(low)
}

/// The most rank points that a player may have: two for each player of another team.
pub(crate) fn most_points(sheet: &Sheet, sides: &Sides, player: u8) -> u8
    requires few { sheet.now.players ≤ 8 }
    requires sides { AreSides (sheet_seen sheet.now) sides.now.items }
    ensures { result ≡ most_for (sheet_seen sheet.now) player }
{
    let mut most = 0;
    for other in 0..sheet.players {
        most += two_unless(is_mate(sheet, sides, player, other));
    }
    most
}

// What a player may have for another one: nothing for a mate.
fn two_unless(mate: bool) -> u8
    ensures points { result ≡ (if mate then 0 else 2) }
    ensures few { result ≤ 2 }
{
    if mate { 0 } else { 2 }
}

// The seat's rank points where a machine stands.
fn points_of(about: &About, sides: &Sides, seat: u8, machine: &FlatMachine) -> u8
    requires about { machine.now.about ≡ about.now }
    requires sides { AreSides about.now.sheet sides.now.items }
    requires fresh { machine.now.spent ≡ false }
    requires player { seat < about.now.sheet.players }
    ensures { result ≡ play.rank_points about.now.sheet
        (play.scores_of about.now machine.now.config.table machine.now.config.control) seat }
{
    points_by(about.sheet(), sides, &machine.scores(), seat)
}

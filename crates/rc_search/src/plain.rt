//! What stops are worth, with no item left out.
ghost use Rattle.std.specs.Prelude.{◌≡◌, ◌<◌, ◌≤◌, ◌+◌, nat_lt, true, false, min, if◌then◌else◌};
ghost use Rattle.std.specs.Prelude.{length, slice_index, IsSome, IfOk, OnOk};
ghost use Rattle.rc_play_spec.specs.About.{menu_at};
ghost use Rattle.rc_rules.specs.Control.{stop_seen};
ghost use Rattle.rc_rules.specs.Machine.{Decides, StopsAtDecision, IsWhereItStops, menu_here};
ghost use Rattle.rc_play_spec.specs.Search.{best_for, all_points as points_there};
ghost use Rattle.rc_flat.specs.Moments.{StaysInMatch};
ghost use Rattle.rc_search.specs.Keeping.{AreOfShape};
ghost use Rattle.rc_search.specs.Looking.{Tells, tried_at, tried_behind, tried_with, worth_at, worth_behind, worths};

use crate::dealer::{SearchDealer, Way};
use crate::rooms::Rooms;
use crate::stand::{give_back, keep_for, stand_for};
use arrayvec::ArrayVec;
use rc_base::Steps;
use rc_deck::Memory;
use rc_flat::FlatMachine;
use rc_rules::{About, Machine, Stop, rank_points};
use std::sync::ledger::Ledger;

/// Rank points, one for each player.
pub(crate) type Points = ArrayVec<u8, 8>;

/// What an item is worth to each player, so many decisions deep behind it. The machine stands at its decision, and can
/// go back there behind this. Each item that is tried is a step.
#[cycle(plain)]
pub(crate) fn behind<L: Ledger>(
    about: &About,
    way: &Way,
    depth: u8,
    item: u16,
    made: u64,
    machine: &mut FlatMachine,
    rooms: &mut Rooms,
    steps: &mut Steps<L>,
    applied: &mut u64,
) -> Result<Points, Memory>
    requires about { machine.old.about ≡ about.now }
    requires fresh { machine.old.spent ≡ false }
    requires home { IsSome machine.old.home }
    requires decides { StopsAtDecision about.now machine.old.config }
    requires offered { item < length (menu_here about.now machine.old.config) }
    requires made { made < 281474976710656 }
    requires rooms { AreOfShape about.now.shape rooms.old }
    requires few { applied.old ≤ 18446744073709551615 }
    ensures worth { IfOk result (λ found. found.items
        ≡ worth_behind about.now way.now depth machine.old.config made item) }
    ensures stays { OnOk result (StaysInMatch machine.old machine.new) }
    ensures rooms { OnOk result (AreOfShape about.now.shape rooms.new) }
    ensures counted { OnOk result (steps.new
        ≡ steps.old + 1 + tried_behind about.now way.now depth machine.old.config made item) }
    ensures told { OnOk result (Tells applied.old applied.new steps.old steps.new) }
{
    let mut dealer = SearchDealer::new(way, made);
    machine.apply(item, &mut dealer)?;
    steps.add(1);
    count_one(applied);
    let stop = machine.advance(&mut dealer)?;
    let made = dealer.shuffle_count();
    let found = worth(
        about, way, depth, stop, made, machine, rooms, steps, applied,
    )?;
    Ok(found)
}

// What the stop where a machine stands is worth to each player, so many decisions deep.
#[tactic(auto, using(rc_flat::proofs::GoingLemmas::stays_still))]
#[cycle(plain)]
fn worth<L: Ledger>(
    about: &About,
    way: &Way,
    depth: u8,
    stop: Stop,
    made: u64,
    machine: &mut FlatMachine,
    rooms: &mut Rooms,
    steps: &mut Steps<L>,
    applied: &mut u64,
) -> Result<Points, Memory>
    requires about { machine.old.about ≡ about.now }
    requires fresh { machine.old.spent ≡ false }
    requires home { IsSome machine.old.home }
    requires stands { IsWhereItStops about.now (stop_seen stop) machine.old.config }
    requires made { made < 281474976710656 }
    requires rooms { AreOfShape about.now.shape rooms.old }
    requires few { applied.old ≤ 18446744073709551615 }
    ensures worth { IfOk result (λ found. found.items
        ≡ worth_at about.now way.now depth (stop_seen stop) machine.old.config made) }
    ensures stays { OnOk result (StaysInMatch machine.old machine.new) }
    ensures rooms { OnOk result (AreOfShape about.now.shape rooms.new) }
    ensures counted { OnOk result (steps.new
        ≡ steps.old + tried_at about.now way.now depth (stop_seen stop) machine.old.config made) }
    ensures told { OnOk result (Tells applied.old applied.new steps.old steps.new) }
{
    match stop {
        Stop::Done => Ok(all_points(about, machine)),
        Stop::Limit => Ok(all_points(about, machine)),
        Stop::Decide { seat, site } => {
            if depth == 0 {
                return Ok(all_points(about, machine));
            }
            best(
                about,
                way,
                depth - 1,
                seat,
                site,
                made,
                machine,
                rooms,
                steps,
                applied,
            )
        }
    }
}

// What a decision is worth to each player, so many decisions deep behind its items: what the first of those items is
// worth that are best for the seat.
#[cycle(plain)]
fn best<L: Ledger>(
    about: &About,
    way: &Way,
    depth: u8,
    seat: u8,
    site: u8,
    made: u64,
    machine: &mut FlatMachine,
    rooms: &mut Rooms,
    steps: &mut Steps<L>,
    applied: &mut u64,
) -> Result<Points, Memory>
    requires about { machine.old.about ≡ about.now }
    requires fresh { machine.old.spent ≡ false }
    requires home { IsSome machine.old.home }
    requires decides { Decides about.now seat site machine.old.config }
    requires made { made < 281474976710656 }
    requires rooms { AreOfShape about.now.shape rooms.old }
    requires few { applied.old ≤ 18446744073709551615 }
    ensures worth { IfOk result (λ found. found.items ≡ best_for seat
        (worths about.now way.now depth machine.old.config made
        (length (menu_at about.now site machine.old.config.table machine.old.config.control)))) }
    ensures stays { OnOk result (StaysInMatch machine.old machine.new) }
    ensures rooms { OnOk result (AreOfShape about.now.shape rooms.new) }
    ensures counted { OnOk result (steps.new ≡ steps.old + tried_with about.now way.now depth machine.old.config made
        (length (menu_at about.now site machine.old.config.table machine.old.config.control))) }
    ensures told { OnOk result (Tells applied.old applied.new steps.old steps.new) }
{
    let size = machine.menu_size() as u16;
    let kept = keep_for(size, machine, rooms)?;
    let mut best = behind(about, way, depth, 0, made, machine, rooms, steps, applied)?;
    for item in 1..size {
        stand_for(item, &kept, machine);
        let found = behind(
            about, way, depth, item, made, machine, rooms, steps, applied,
        )?;
        best = better(seat, best, found);
    }
    give_back(kept, rooms);
    Ok(best)
}

/// Counts an item that is tried.
pub(crate) fn count_one(applied: &mut u64)
    ensures { applied.new ≡ min (applied.old + 1) 18446744073709551615 }
{
    *applied = applied.saturating_add(1);
}

// Of two lists of rank points the one in which a player has more, the first where it has as much.
fn better(seat: u8, best: Points, found: Points) -> Points
    ensures { result.items
        ≡ (if nat_lt (slice_index best.items seat) (slice_index found.items seat) then found.items else best.items) }
{
    if entry(&best, seat) < entry(&found, seat) {
        found
    } else {
        best
    }
}

/// What a player has, and 0 where there is no such player.
pub(crate) fn entry(points: &Points, seat: u8) -> u8
    ensures { result ≡ slice_index points.now.items seat }
{
    match points.get(seat as usize) {
        Some(points) => *points,
        None => 0,
    }
}

/// All players' rank points where a machine stands.
fn all_points(about: &About, machine: &FlatMachine) -> Points
    requires about { machine.now.about ≡ about.now }
    requires fresh { machine.now.spent ≡ false }
    ensures { result.items ≡ points_there about.now machine.now.config }
{
    rank_points(about.sheet(), &machine.scores())
}

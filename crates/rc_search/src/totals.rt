//! Totals over all rounds.
ghost use Rattle.std.specs.Prelude.{◌≡◌, ◌≤◌, ◌+◌, ◌-◌, ◌*◌, false, true, replicate, length, All, IfOk, OnOk};
ghost use Rattle.rc_code.specs.Seen.{code_seen};
ghost use Rattle.rc_code.specs.Stands.{StandsFor};
ghost use Rattle.rc_play_spec.specs.Strategy.{menu_size};
ghost use Rattle.rc_redraw.specs.Need.{IsAtDecision};
ghost use Rattle.rc_view.specs.Seen.{view_seen};
ghost use Rattle.rc_play_spec.specs.SearchLaws.{HasTwoTeams};
ghost use Rattle.rc_play_spec.specs.Search.{totals, plain_steps};
ghost use Rattle.rc_search.specs.Looking.{Tells};
ghost use Rattle.rc_search.specs.Rival.{rival_seen, CanBeSearched, IsRival};
ghost use Rattle.rc_flat.specs.Moments.{IsMoment, StaysInMatch};
ghost use Rattle.rc_search.specs.Keeping.{AreOfShape};
ghost use Rattle.rc_search.specs.Rounds.{in_rounds, tried_on, way_in, GoesFromRoot, IsDealing, IsAtRoot};
ghost use Rattle.rc_search.specs.Sides.{AreSides};

use crate::dealer::Way;
use crate::rival::{Found, Rival, Seen};
use crate::rooms::Rooms;
use crate::root::{deal_root, gain_of, machine_at};
use crate::sides::{Sides, sides_of};
use crate::stand::stand_at;
use rc_base::Steps;
use rc_code::Code;
use rc_deck::Memory;
use rc_flat::{FlatMachine, Moment};
use rc_play_spec::{menu_sizes_are_functions_of_views, menus_list_what_is_offered};
use rc_redraw::Redraws;
use rc_rules::{About, Machine};
use rc_view::View;
use std::alloc::Global;
use std::sync::Arc;
use std::sync::ledger::Ledger;

/// What each item of the menu is worth to the seat over all rounds, so many decisions deep. No item is left out,
/// and each that is tried is a step. Memory may run out.
pub fn plain_totals<L: Ledger>(
    alloc: Global,
    seen: &Seen,
    rival: &Rival,
    steps: &mut Steps<L>,
) -> Result<Found, Memory>
    requires searched { CanBeSearched seen.now }
    requires rival { IsRival rival.now }

    // These are the totals that the definitions give to what the seat sees.
    ensures are { IfOk result (λ found. found.totals.items
        ≡ totals seen.now.about.value (rival_seen rival.now) seen.now.seed (view_seen seen.now.view)) }

    // A step is counted for each item that is tried.
    ensures counted { OnOk result (steps.new
        ≡ steps.old + plain_steps seen.now.about.value (rival_seen rival.now) seen.now.seed (view_seen seen.now.view)) }
    ensures told { IfOk result (λ found. Tells 0 found.applied steps.old steps.new) }
{
    totals_of(
        alloc,
        &seen.about,
        &seen.code,
        &seen.view,
        seen.seed,
        rival,
        false,
        steps,
    )
}

/// The same in a game of two teams. Below the decision it leaves out items that can't change what one is worth: each
/// that is tried is a step. Memory may run out.
pub fn pruned_totals<L: Ledger>(
    alloc: Global,
    seen: &Seen,
    rival: &Rival,
    steps: &mut Steps<L>,
) -> Result<Found, Memory>
    requires searched { CanBeSearched seen.now }
    requires rival { IsRival rival.now }
    requires two { HasTwoTeams seen.now.about.value.sheet }

    // These are the totals that the definitions give to what the seat sees.
    ensures are { IfOk result (λ found. found.totals.items
        ≡ totals seen.now.about.value (rival_seen rival.now) seen.now.seed (view_seen seen.now.view)) }

    // No more items are tried than if none were left out.
    ensures bounded { OnOk result (steps.new
        ≤ steps.old + plain_steps seen.now.about.value (rival_seen rival.now) seen.now.seed (view_seen seen.now.view)) }
    ensures told { IfOk result (λ found. Tells 0 found.applied steps.old steps.new) }
{
    totals_of(
        alloc,
        &seen.about,
        &seen.code,
        &seen.view,
        seen.seed,
        rival,
        true,
        steps,
    )
}

// The totals, with or without pruning.
fn totals_of<L: Ledger>(
    alloc: Global,
    about: &About,
    code: &Arc<Code>,
    view: &View,
    seed: u64,
    rival: &Rival,
    pruning: bool,
    steps: &mut Steps<L>,
) -> Result<Found, Memory>
    requires at { IsAtDecision about.now (view_seen view.now) }
    requires code { StandsFor about.now.sheet (code_seen code.now.value) }
    requires rival { IsRival rival.now }
    requires two { pruning ≡ true → HasTwoTeams about.now.sheet }
    ensures are { IfOk result (λ found. found.totals.items
        ≡ totals about.now (rival_seen rival.now) seed (view_seen view.now)) }
    ensures exact { OnOk result (pruning ≡ false → steps.new
        ≡ steps.old + plain_steps about.now (rival_seen rival.now) seed (view_seen view.now)) }
    ensures bounded { OnOk result (steps.new
        ≤ steps.old + plain_steps about.now (rival_seen rival.now) seed (view_seen view.now)) }
    ensures told { IfOk result (λ found. Tells 0 found.applied steps.old steps.new) }
{
    menu_sizes_are_functions_of_views();
    // what an about keeps
    let _sheet = about.sheet();
    let sides = sides_of(about.sheet());
    let mut redraws = Redraws::new(alloc, about.shape(), view)?;
    let way = way_of(rival, seed, view, 0);
    let mut machine = machine_at(alloc, about, code, view, &way, &mut redraws)?;
    let mut root = machine.moment(alloc)?;
    let mut rooms = Rooms::new(alloc);
    let totals = no_totals(alloc, about, view, &way, &machine)?;
    let mut found = Found { totals, applied: 0 };
    for round in 0..rival.rounds {
        add_round(
            alloc,
            about,
            &sides,
            view,
            seed,
            rival,
            pruning,
            round,
            &mut redraws,
            &mut machine,
            &mut root,
            &mut rooms,
            &mut found,
            steps,
        )?;
    }
    Ok(found)
}

// A total of 0 for each item of the menu where a machine stands, at the root of a round.
fn no_totals(
    alloc: Global,
    about: &About,
    view: &View,
    way: &Way,
    machine: &FlatMachine,
) -> Result<Vec<u32>, Memory>
    requires { IsAtRoot about.now way.now (view_seen view.now) machine.now }
    ensures { IfOk result (λ zeros. zeros.items ≡ replicate (menu_size about.now (view_seen view.now)) 0) }
{
    // only contracts speak of these
    let _about = about;
    let _view = view;
    let _way = way;
    zeros(alloc, machine.menu_size())
}

// So many zeros.
fn zeros(alloc: Global, size: usize) -> Result<Vec<u32>, Memory>
    ensures { IfOk result (λ zeros. zeros.items ≡ replicate size 0) }
{
    Ok(vec![in alloc; 0u32; size]?)
}

// The way of a round.
fn way_of(rival: &Rival, seed: u64, view: &View, round: u16) -> Way
    ensures { result ≡ way_in (rival_seen rival.now) seed (view_seen view.now) round }
{
    Way {
        key: rival.key,
        seat: view.seat,
        seed,
        round,
    }
}

// Adds what each item is worth in a round.
fn add_round<L: Ledger>(
    alloc: Global,
    about: &About,
    sides: &Sides,
    view: &View,
    seed: u64,
    rival: &Rival,
    pruning: bool,
    round: u16,
    redraws: &mut Redraws,
    machine: &mut FlatMachine,
    root: &mut Moment,
    rooms: &mut Rooms,
    found: &mut Found,
    steps: &mut Steps<L>,
) -> Result<(), Memory>
    requires at { IsAtDecision about.now (view_seen view.now) }
    requires sides { AreSides about.now.sheet sides.now.items }
    requires rival { IsRival rival.now }
    requires two { pruning ≡ true → HasTwoTeams about.now.sheet }
    requires deals { IsDealing about.now (view_seen view.now) redraws.old }
    requires goes { GoesFromRoot about.now (view_seen view.now) machine.old root.old }
    requires rooms { AreOfShape about.now.shape rooms.old }
    requires few { found.old.applied ≤ 18446744073709551615 }
    requires before { found.old.totals.items
        ≡ totals about.now (in_rounds round (rival_seen rival.now)) seed (view_seen view.now) }
    requires small { All (λ total. total ≤ 255 * round) found.old.totals.items }
    ensures deals { IsDealing about.now (view_seen view.now) redraws.new }
    ensures goes { OnOk result (GoesFromRoot about.now (view_seen view.now) machine.new root.new) }
    ensures rooms { OnOk result (AreOfShape about.now.shape rooms.new) }
    ensures after { OnOk result (found.new.totals.items
        ≡ totals about.now (in_rounds (round + 1) (rival_seen rival.now)) seed (view_seen view.now)) }
    ensures small { OnOk result (All (λ total. total ≤ 255 * (round + 1)) found.new.totals.items) }
    ensures exact { OnOk result (pruning ≡ false → steps.new ≡ steps.old
        + tried_on about.now (way_in (rival_seen rival.now) seed (view_seen view.now) round) (view_seen view.now)
        (rival.now.depth - 1)) }
    ensures bounded { OnOk result (steps.new ≤ steps.old
        + tried_on about.now (way_in (rival_seen rival.now) seed (view_seen view.now) round) (view_seen view.now)
        (rival.now.depth - 1)) }
    ensures told { OnOk result (Tells found.old.applied found.new.applied steps.old steps.new) }
{
    let way = way_of(rival, seed, view, round);
    deal_root(about, view, &way, redraws, machine, root);
    add_gains(
        alloc, about, sides, view, &way, seed, rival, pruning, round, machine, root, rooms, found,
        steps,
    )?;
    Ok(())
}

// Adds what each item is worth on the way of a round, at whose root the machine stands.
fn add_gains<L: Ledger>(
    alloc: Global,
    about: &About,
    sides: &Sides,
    view: &View,
    way: &Way,
    seed: u64,
    rival: &Rival,
    pruning: bool,
    round: u16,
    machine: &mut FlatMachine,
    root: &Moment,
    rooms: &mut Rooms,
    found: &mut Found,
    steps: &mut Steps<L>,
) -> Result<(), Memory>
    requires at { IsAtDecision about.now (view_seen view.now) }
    requires sides { AreSides about.now.sheet sides.now.items }
    requires rival { IsRival rival.now }
    requires two { pruning ≡ true → HasTwoTeams about.now.sheet }
    requires way { way.now ≡ way_in (rival_seen rival.now) seed (view_seen view.now) round }
    requires stands { IsAtRoot about.now way.now (view_seen view.now) machine.old }
    requires root { IsMoment about.now machine.old.code machine.old.config root.now }
    requires rooms { AreOfShape about.now.shape rooms.old }
    requires few { found.old.applied ≤ 18446744073709551615 }
    requires before { found.old.totals.items
        ≡ totals about.now (in_rounds round (rival_seen rival.now)) seed (view_seen view.now) }
    requires small { All (λ total. total ≤ 255 * round) found.old.totals.items }
    ensures stays { OnOk result (StaysInMatch machine.old machine.new) }
    ensures rooms { OnOk result (AreOfShape about.now.shape rooms.new) }
    ensures after { OnOk result (found.new.totals.items
        ≡ totals about.now (in_rounds (round + 1) (rival_seen rival.now)) seed (view_seen view.now)) }
    ensures small { OnOk result (All (λ total. total ≤ 255 * (round + 1)) found.new.totals.items) }
    ensures exact { OnOk result (pruning ≡ false → steps.new ≡ steps.old
        + tried_on about.now (way_in (rival_seen rival.now) seed (view_seen view.now) round) (view_seen view.now)
        (rival.now.depth - 1)) }
    ensures bounded { OnOk result (steps.new ≤ steps.old
        + tried_on about.now (way_in (rival_seen rival.now) seed (view_seen view.now) round) (view_seen view.now)
        (rival.now.depth - 1)) }
    ensures told { OnOk result (Tells found.old.applied found.new.applied steps.old steps.new) }
{
    menu_sizes_are_functions_of_views();
    menus_list_what_is_offered();
    // what an about keeps
    let _sheet = about.sheet();
    // only contracts speak of these
    let _seed = seed;
    let _round = round;
    let depth = rival.depth - 1;
    let mut more = Vec::new(alloc);
    for item in 0..found.totals.len() {
        let place = item as u16;
        stand_at(place, root, machine);
        let gain = gain_of(
            about,
            sides,
            view,
            way,
            depth,
            pruning,
            place,
            machine,
            rooms,
            steps,
            &mut found.applied,
        )?;
        more.push(found.totals[item] + gain as u32)?;
    }
    found.totals = more;
    Ok(())
}

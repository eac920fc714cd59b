//! The root of a round, and what an item is worth there.
ghost use Rattle.std.specs.Prelude.{◌≡◌, ◌<◌, ◌≤◌, ◌+◌, true, false, IfOk, OnOk};
ghost use Rattle.rc_code.specs.Seen.{code_seen};
ghost use Rattle.rc_code.specs.Stands.{StandsFor};
ghost use Rattle.rc_play_spec.specs.Strategy.{menu_size};
ghost use Rattle.rc_redraw.specs.Need.{IsAtDecision};
ghost use Rattle.rc_view.specs.Seen.{view_seen};
ghost use Rattle.rc_play_spec.specs.SearchLaws.{HasTwoTeams};
ghost use Rattle.rc_search.specs.Looking.{Tells, tried_behind};
ghost use Rattle.rc_flat.specs.Moments.{IsMoment, StaysInMatch};
ghost use Rattle.rc_search.specs.Keeping.{AreOfShape};
ghost use Rattle.rc_search.specs.Rounds.{gain_on, root_on, GoesFromRoot, IsDealing, IsAtRoot};
ghost use Rattle.rc_search.specs.Sides.{AreSides};

use crate::dealer::Way;
use crate::plain::{behind, entry};
use crate::pruned::{behind_within, most_points};
use crate::rooms::Rooms;
use crate::sides::Sides;
use rc_base::Steps;
use rc_code::Code;
use rc_deck::Memory;
use rc_flat::{FlatMachine, Moment};
use rc_play_spec::menu_sizes_are_functions_of_views;
use rc_redraw::Redraws;
use rc_rules::About;
use rc_view::View;
use std::alloc::Global;
use std::sync::Arc;
use std::sync::ledger::Ledger;

/// A machine at the decision of a view, with the table that is redrawn for a round. It goes from moment to moment.
pub(crate) fn machine_at(
    alloc: Global,
    about: &About,
    code: &Arc<Code>,
    view: &View,
    way: &Way,
    redraws: &mut Redraws,
) -> Result<FlatMachine, Memory>
    requires at { IsAtDecision about.now (view_seen view.now) }
    requires code { StandsFor about.now.sheet (code_seen code.now.value) }
    requires deals { IsDealing about.now (view_seen view.now) redraws.old }
    ensures stands { IfOk result (IsAtRoot about.now way.now (view_seen view.now)) }
    ensures deals { IsDealing about.now (view_seen view.now) redraws.new }
{
    menu_sizes_are_functions_of_views();
    // what an about keeps
    let _sheet = about.sheet();
    let key = way.deal_key();
    redraws.deal(&key);
    let table = redraws.table().copy(alloc)?;
    let own = about.copy()?;
    let control = view.control.copy();
    FlatMachine::at_moment(alloc, code, own, table, control)
}

/// Lets a machine stand at the root of a round, which is its moment from then on.
pub(crate) fn deal_root(
    about: &About,
    view: &View,
    way: &Way,
    redraws: &mut Redraws,
    machine: &mut FlatMachine,
    root: &mut Moment,
)
    requires at { IsAtDecision about.now (view_seen view.now) }
    requires deals { IsDealing about.now (view_seen view.now) redraws.old }
    requires goes { GoesFromRoot about.now (view_seen view.now) machine.old root.old }
    ensures deals { IsDealing about.now (view_seen view.now) redraws.new }
    ensures stands { IsAtRoot about.now way.now (view_seen view.now) machine.new }
    ensures root { IsMoment about.now machine.new.code machine.new.config root.new }
{
    menu_sizes_are_functions_of_views();
    // what an about keeps
    let _sheet = about.sheet();
    // only contracts speak of it
    let _view = view;
    let key = way.deal_key();
    redraws.deal(&key);
    machine.deal_to(redraws.table(), root);
}

/// What an item is worth to the seat at the root of a round, with or without pruning. The machine stands there, and can
/// go back there behind this.
pub(crate) fn gain_of<L: Ledger>(
    about: &About,
    sides: &Sides,
    view: &View,
    way: &Way,
    depth: u8,
    pruning: bool,
    item: u16,
    machine: &mut FlatMachine,
    rooms: &mut Rooms,
    steps: &mut Steps<L>,
    applied: &mut u64,
) -> Result<u8, Memory>
    requires at { IsAtDecision about.now (view_seen view.now) }
    requires seat { way.now.seat ≡ view.now.seat }
    requires two { pruning ≡ true → HasTwoTeams about.now.sheet }
    requires sides { AreSides about.now.sheet sides.now.items }
    requires rooms { AreOfShape about.now.shape rooms.old }
    requires few { applied.old ≤ 18446744073709551615 }
    requires stands { IsAtRoot about.now way.now (view_seen view.now) machine.old }
    requires offered { item < menu_size about.now (view_seen view.now) }
    ensures gain { IfOk result (λ gain. gain ≡ gain_on about.now way.now (view_seen view.now) depth item) }
    ensures stays { OnOk result (StaysInMatch machine.old machine.new) }
    ensures rooms { OnOk result (AreOfShape about.now.shape rooms.new) }
    ensures exact { OnOk result (pruning ≡ false → steps.new
        ≡ steps.old + 1
        + tried_behind about.now way.now depth (root_on about.now way.now (view_seen view.now)) 0 item) }
    ensures bounded { OnOk result (steps.new
        ≤ steps.old + 1
        + tried_behind about.now way.now depth (root_on about.now way.now (view_seen view.now)) 0 item) }
    ensures told { OnOk result (Tells applied.old applied.new steps.old steps.new) }
{
    if pruning {
        pruned_gain(
            about, sides, view, way, depth, item, machine, rooms, steps, applied,
        )
    } else {
        plain_gain(
            about, view, way, depth, item, machine, rooms, steps, applied,
        )
    }
}

fn plain_gain<L: Ledger>(
    about: &About,
    view: &View,
    way: &Way,
    depth: u8,
    item: u16,
    machine: &mut FlatMachine,
    rooms: &mut Rooms,
    steps: &mut Steps<L>,
    applied: &mut u64,
) -> Result<u8, Memory>
    requires rooms { AreOfShape about.now.shape rooms.old }
    requires few { applied.old ≤ 18446744073709551615 }
    requires stands { IsAtRoot about.now way.now (view_seen view.now) machine.old }
    requires offered { item < menu_size about.now (view_seen view.now) }
    ensures gain { IfOk result (λ gain. gain ≡ gain_on about.now way.now (view_seen view.now) depth item) }
    ensures stays { OnOk result (StaysInMatch machine.old machine.new) }
    ensures rooms { OnOk result (AreOfShape about.now.shape rooms.new) }
    ensures exact { OnOk result (steps.new
        ≡ steps.old + 1
        + tried_behind about.now way.now depth (root_on about.now way.now (view_seen view.now)) 0 item) }
    ensures told { OnOk result (Tells applied.old applied.new steps.old steps.new) }
{
    // only contracts speak of it
    let _view = view;
    let found = behind(about, way, depth, item, 0, machine, rooms, steps, applied)?;
    Ok(entry(&found, way.seat))
}

fn pruned_gain<L: Ledger>(
    about: &About,
    sides: &Sides,
    view: &View,
    way: &Way,
    depth: u8,
    item: u16,
    machine: &mut FlatMachine,
    rooms: &mut Rooms,
    steps: &mut Steps<L>,
    applied: &mut u64,
) -> Result<u8, Memory>
    requires at { IsAtDecision about.now (view_seen view.now) }
    requires seat { way.now.seat ≡ view.now.seat }
    requires two { HasTwoTeams about.now.sheet }
    requires sides { AreSides about.now.sheet sides.now.items }
    requires rooms { AreOfShape about.now.shape rooms.old }
    requires few { applied.old ≤ 18446744073709551615 }
    requires stands { IsAtRoot about.now way.now (view_seen view.now) machine.old }
    requires offered { item < menu_size about.now (view_seen view.now) }
    ensures gain { IfOk result (λ gain. gain ≡ gain_on about.now way.now (view_seen view.now) depth item) }
    ensures stays { OnOk result (StaysInMatch machine.old machine.new) }
    ensures rooms { OnOk result (AreOfShape about.now.shape rooms.new) }
    ensures bounded { OnOk result (steps.new
        ≤ steps.old + 1
        + tried_behind about.now way.now depth (root_on about.now way.now (view_seen view.now)) 0 item) }
    ensures told { OnOk result (Tells applied.old applied.new steps.old steps.new) }
{
    // only contracts speak of it
    let _view = view;
    let sheet = about.sheet();
    let most = most_points(sheet, sides, way.seat);
    behind_within(
        about, sides, way, depth, item, 0, 0, most, machine, rooms, steps, applied,
    )
}

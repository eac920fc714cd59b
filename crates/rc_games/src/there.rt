//! The decision from which playouts are made.
ghost use Rattle.std.specs.Prelude.{◌≡◌, true, false, IfOk};
ghost use Rattle.rc_rules.specs.Control.{control_seen};
ghost use Rattle.rc_rules.specs.Machine.{CanDecide, StopsAtDecision};
ghost use Rattle.rc_code.specs.Seen.{code_seen};
ghost use Rattle.rc_code.specs.Stands.{StandsFor};
ghost use Rattle.rc_redraw.specs.Need.{need_seen, IsNeed};

use crate::same::{are_same_controls, are_same_menus, are_same_tables};
use crate::stray::Stray;
use rc_code::Code;
use rc_deck::Memory;
use rc_draw::key32;
use rc_flat::{FlatMachine, HomeMachine};
use rc_plain::PlainMachine;
use rc_play_spec::menu_sizes_are_functions_of_views;
use rc_redraw::{Need, redraw};
use rc_rules::{Machine, Menu};
use rc_table::Table;
use std::alloc::Global;
use std::sync::Arc;

/// The table of a round that a rollout with this key redraws for a decision.
pub fn redrawn_table(alloc: Global, need: &Need, key: u64, round: u16) -> Result<Table, Memory>
    requires { IsNeed (need_seen need.now) }
    ensures laid { IfOk result (λ table. table.shape ≡ (need_seen need.now).about.shape) }
    ensures decides { IfOk result (λ table. CanDecide (need_seen need.now).about table.table
        (need_seen need.now).view.control) }
{
    menu_sizes_are_functions_of_views();
    // what an about keeps
    let _sheet = need.about.sheet();
    let key = key32(
        key,
        256 * u64::from(need.view.seat) + 3,
        need.seed,
        u64::from(round),
    );
    let table = redraw(alloc, need.about.shape(), &need.view, &key)?;
    Ok(table)
}

/// The tree machine at a decision with a table.
pub fn tree_at(alloc: Global, need: &Need, table: &Table) -> Result<PlainMachine, Memory>
    requires laid { table.now.shape ≡ (need_seen need.now).about.shape }
    requires decides { CanDecide (need_seen need.now).about table.now.table (need_seen need.now).view.control }
{
    let about = need.about.copy()?;
    let table = table.copy(alloc)?;
    PlainMachine::at_decision(alloc, about, table, need.view.control.copy())
}

/// A flat machine there, which notes its edits.
pub fn flat_at(
    alloc: Global,
    need: &Need,
    code: &Arc<Code>,
    table: &Table,
) -> Result<FlatMachine, Memory>
    requires laid { table.now.shape ≡ (need_seen need.now).about.shape }
    requires decides { CanDecide (need_seen need.now).about table.now.table (need_seen need.now).view.control }
    requires code { StandsFor (need_seen need.now).about.sheet (code_seen code.now.value) }
    ensures notes { IfOk result (λ m. m.notes ≡ true) }
{
    let about = need.about.copy()?;
    let table = table.copy(alloc)?;
    FlatMachine::at_decision(alloc, code, about, table, need.view.control.copy())
}

/// A machine that is at home there.
pub fn home_at(
    alloc: Global,
    need: &Need,
    code: &Arc<Code>,
    table: &Table,
) -> Result<HomeMachine, Memory>
    requires laid { table.now.shape ≡ (need_seen need.now).about.shape }
    requires decides { CanDecide (need_seen need.now).about table.now.table (need_seen need.now).view.control }
    requires code { StandsFor (need_seen need.now).about.sheet (code_seen code.now.value) }
    ensures about { IfOk result (λ m. m.about ≡ (need_seen need.now).about) }
    ensures control { IfOk result (λ m. m.home.control ≡ (need_seen need.now).view.control) }
{
    let about = need.about.copy()?;
    let table = table.copy(alloc)?;
    HomeMachine::at_decision(alloc, code, about, table, need.view.control.copy())
}

/// Where playouts are to come back to, and what is offered there.
#[derive(Drop)]
pub struct There<'a> {
    pub table: &'a Table,
    pub need: &'a Need,
    pub menu: Menu,
}

impl There<'_> {
    /// Fails unless a machine has the table and the control of this decision.
    pub fn expect_at<M: Machine>(&self, machine: &M) -> Result<(), Stray>
        requires { M.spent machine.now ≡ false }
    {
        if !are_same_tables(machine.table(), self.table) {
            return Err(Stray::Table);
        }
        if !are_same_controls(machine.control(), &self.need.view.control) {
            return Err(Stray::Control);
        }
        Ok(())
    }

    /// And its menu.
    pub fn expect_offered<M: Machine>(&self, machine: &M) -> Result<(), Stray>
        requires fresh { M.spent machine.now ≡ false }
        requires decision { StopsAtDecision (M.about machine.now) (M.config machine.now) }
    {
        self.expect_at(machine)?;
        if !are_same_menus(&machine.menu(), &self.menu) {
            return Err(Stray::Menu);
        }
        Ok(())
    }
}

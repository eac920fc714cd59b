//! The machine.
ghost use Rattle.std.specs.Prelude.{◌≡◌, ◌<◌, ◌≤◌, true, false, length, Some, is_err, IfOk, OnOk, OnErr, IsOk};
ghost use Rattle.rc_base.specs.Limits.{most_items};
ghost use Rattle.rc_play_spec.specs.Shape.{shape_of};
ghost use Rattle.rc_play_spec.specs.Step.{goes, start};
ghost use Rattle.rc_play_spec.specs.Stop.{stop_of};
ghost use Rattle.rc_play_spec.specs.Decision.{at_site, choose};
ghost use Rattle.rc_play_spec.specs.Table.{opening};
ghost use Rattle.rc_rules.specs.Bounds.{bounds_seen};
ghost use Rattle.rc_rules.specs.Control.{control_seen, stop_seen};
ghost use Rattle.rc_rules.specs.Dealer.{ShuffledBy};
ghost use Rattle.rc_rules.specs.Machine.{StopsAtDecision, IsWhereItStops, bounds_here, menu_here, CanDecide};
ghost use Rattle.rc_plain.specs.Plain.{config_of};

use crate::path::Path;
use crate::site::path_of;
use crate::state::{PlainState, current_in};
use rc_deck::Memory;
use rc_flow::Checked;
use rc_menu::{copy_menu, fill_menu_at};
use rc_play_spec::sites_fix_choices;
use rc_rules::{About, Bounds, Control, Dealer, Items, Machine, Menu, Scores, Stop};
use rc_table::{Shape, Table};
use rc_undo::Board;
use rc_value::{Current, about_of, new_control, scores_now, site_of};
use std::alloc::Global;
use std::marker::Model;
use std::sync::Arc;

/// A match that is played on the tree of its sheet. What is left to run is a path of places into the sheet. It takes
/// memory when it is made, and none later.
#[derive(Drop)]
pub struct PlainMachine {
    about: About,
    state: PlainState,
}

impl Model for PlainMachine {
    ghost use Rattle.std.specs.Coded.{codes};
    ghost use Rattle.rc_flow.specs.Codes.{sheet_codes};
    ghost use Rattle.rc_plain.specs.Plain.{Plain};

    ghost Value = { Plain };

    ghost coded = { Prim.hlevel (sheet_codes, codes) };

    ghost use Rattle.rc_plain.specs.State.{plain_of, IsReady};

    ghost view = { λ m. plain_of m.about m.state };

    ghost invariant = { λ m. IsReady m.about m.state };
}

impl PlainMachine {
    /// A match at its start. The shape is the sheet's.
    pub fn start(
        alloc: Global,
        checked: &Arc<Checked>,
        shape: &Arc<Shape>,
        turns: u32,
    ) -> Result<PlainMachine, Memory>
        requires { shape.now.value ≡ shape_of checked.now.value }
        ensures about { IfOk result (λ m. m.about
            ≡ record { sheet = checked.now.value; shape = shape.now.value; turns = turns }) }
        ensures start { IfOk result (λ m. config_of m
            ≡ start (record { sheet = checked.now.value; shape = shape.now.value; turns = turns })) }
    {
        let about = about_of(alloc, checked, shape, turns)?;
        PlainMachine::at_start(alloc, about)
    }

    /// A match at its start, in matches of this about.
    pub fn at_start(alloc: Global, about: About) -> Result<PlainMachine, Memory>
        ensures about { IfOk result (λ m. m.about ≡ about) }
        ensures start { IfOk result (λ m. config_of m ≡ start about) }
    {
        let table = Table::new(alloc, about.shape())?;
        let menu = Items::new(alloc)?;
        Ok(PlainMachine::with_opening(about, Board::onward(alloc, table), menu))
    }

    /// A match at its start, in matches of this about, which is copied.
    pub fn start_of(alloc: Global, about: &About) -> Result<PlainMachine, Memory>
        ensures about { IfOk result (λ m. m.about ≡ about.now) }
        ensures start { IfOk result (λ m. config_of m ≡ start about.now) }
    {
        match about.copy() {
            Ok(about) => PlainMachine::at_start(alloc, about),
            Err(Memory) => Err(Memory),
        }
    }

    /// A match at the decision for which this table and this control stand. The shape is the sheet's.
    pub fn at(
        alloc: Global,
        checked: &Arc<Checked>,
        shape: &Arc<Shape>,
        turns: u32,
        table: Table,
        control: Control,
    ) -> Result<PlainMachine, Memory>
        requires shape { shape.now.value ≡ shape_of checked.now.value }
        requires laid { table.shape ≡ shape.now.value }
        requires decides { CanDecide
            (record { sheet = checked.now.value; shape = shape.now.value; turns = turns }) table.table
            (control_seen control) }
        ensures about { IfOk result (λ m. m.about
            ≡ record { sheet = checked.now.value; shape = shape.now.value; turns = turns }) }
        ensures at { IfOk result (λ m. config_of m
            ≡ at_site (record { sheet = checked.now.value; shape = shape.now.value; turns = turns }) table.table
            (control_seen control)) }
    {
        let about = about_of(alloc, checked, shape, turns)?;
        PlainMachine::at_decision(alloc, about, table, control)
    }

    // A match at its start, with the table of this board and this room for menus.
    fn with_opening(about: About, board: Board, menu: Items) -> PlainMachine
        requires table { board.laid ≡ record { shape = about.shape; table = opening about.shape } }
        requires quiet { board.notes ≡ false }
        ensures about { result.about ≡ about }
        ensures start { config_of result ≡ start about }
    {
        let control = new_control(&about);
        PlainMachine {
            about,
            state: PlainState {
                board,
                control,
                path: Path::start(),
                menu,
                // no stage is open
                current: Current { player: 0, team: 0 },
            },
        }
    }

    /// A match at the decision for which this table and this control stand, in matches of this about.
    pub fn at_decision(
        alloc: Global,
        about: About,
        table: Table,
        control: Control,
    ) -> Result<PlainMachine, Memory>
        requires laid { table.shape ≡ about.shape }
        requires decides { CanDecide about table.table (control_seen control) }
        ensures about { IfOk result (λ m. m.about ≡ about) }
        ensures at { IfOk result (λ m. config_of m ≡ at_site about table.table (control_seen control)) }
    {
        let menu = Items::new(alloc)?;
        let board = Board::onward(alloc, table);
        Ok(PlainMachine::with_menu(about, board, control, menu))
    }

    // The same with the table of this board, and this room for menus.
    fn with_menu(about: About, board: Board, control: Control, mut menu: Items) -> PlainMachine
        requires laid { board.laid.shape ≡ about.shape }
        requires quiet { board.notes ≡ false }
        requires decides { CanDecide about board.laid.table (control_seen control) }
        ensures about { result.about ≡ about }
        ensures at { config_of result ≡ at_site about board.laid.table (control_seen control) }
    {
        sites_fix_choices();
        // what an about keeps
        let _sheet = about.sheet();
        let site = site_of(&control);
        let path = path_of(&about, site);
        let current = current_in(&about, &control);
        let alts = path.alts(&about);
        fill_menu_at(
            &about,
            current,
            board.table(),
            &control,
            site,
            alts,
            &mut menu,
        );
        PlainMachine {
            about,
            state: PlainState {
                board,
                control,
                path,
                menu,
                current,
            },
        }
    }
}

impl Machine for PlainMachine {
    ghost about = { λ m. m.about };

    ghost config = { config_of };

    ghost spent = { λ m. false };

    fn advance<D: Dealer>(&mut self, dealer: &mut D) -> Result<Stop, Memory>
        ensures ok { IsOk result }
        ensures leads { IfOk result
            (λ stop. stop_of self.old.about (D.dealing dealer.old) (D.state dealer.old) (config_of self.old)
            ≡ Some (record { stop = stop_seen stop; config = config_of self.new; dealer = D.state dealer.new })) }
        ensures stands { IfOk result (λ stop. IsWhereItStops self.old.about (stop_seen stop) (config_of self.new)) }
        ensures fresh { OnOk result (false ≡ false) }
        ensures spent { false ≡ is_err result }
        ensures shuffled { OnErr result (ShuffledBy D.dealing D.state dealer.old dealer.new) }
        ensures idle { false ≡ true → D.state dealer.new ≡ D.state dealer.old }
        ensures same { self.new.about ≡ self.old.about }
        ensures dealing { D.dealing dealer.new ≡ D.dealing dealer.old }
    {
        Ok(self.state.advance(&self.about, dealer))
    }

    fn menu(&self) -> Menu {
        copy_menu(&self.state.menu)
    }

    fn menu_size(&self) -> usize
        requires decision { StopsAtDecision self.now.about (config_of self.now) }
        ensures count { result ≡ length (menu_here self.now.about (config_of self.now)) }
        ensures few { result ≤ most_items }
    {
        self.state.menu.len()
    }

    fn bounds(&self, item: u16) -> Bounds
        requires decision { StopsAtDecision self.now.about (config_of self.now) }
        requires offered { item < length (menu_here self.now.about (config_of self.now)) }
        ensures { bounds_seen result ≡ bounds_here self.now.about item (config_of self.now) }
    {
        self.state.bounds(&self.about, item)
    }

    fn apply<D: Dealer>(&mut self, item: u16, dealer: &mut D) -> Result<(), Memory>
        requires decision { false ≡ false → StopsAtDecision self.old.about (config_of self.old) }
        requires offered { false ≡ false → item < length (menu_here self.old.about (config_of self.old)) }
        ensures ok { IsOk result }
        ensures leads { OnOk result
            (choose self.old.about (D.dealing dealer.old) (D.state dealer.old) item (config_of self.old)
            ≡ goes (D.state dealer.new) (config_of self.new)) }
        ensures fresh { OnOk result (false ≡ false) }
        ensures spent { false ≡ is_err result }
        ensures shuffled { OnErr result (ShuffledBy D.dealing D.state dealer.old dealer.new) }
        ensures idle { false ≡ true → D.state dealer.new ≡ D.state dealer.old }
        ensures same { self.new.about ≡ self.old.about }
        ensures dealing { D.dealing dealer.new ≡ D.dealing dealer.old }
    {
        self.state.apply(&self.about, item, dealer);
        Ok(())
    }

    fn scores(&self) -> Scores {
        scores_now(&self.about, self.state.board.table(), &self.state.control)
    }

    fn table(&self) -> &Table {
        self.state.board.table()
    }

    fn control(&self) -> &Control {
        &self.state.control
    }
}

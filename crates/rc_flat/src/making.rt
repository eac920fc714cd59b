//! Machines that are made at the start of a match or at a decision.
ghost use Rattle.std.specs.Prelude.{◌≡◌, true, false, IfOk};
ghost use Rattle.rc_play_spec.specs.Step.{start};
ghost use Rattle.rc_play_spec.specs.Shape.{shape_of};
ghost use Rattle.rc_play_spec.specs.Decision.{at_site};
ghost use Rattle.rc_play_spec.specs.Table.{opening};
ghost use Rattle.rc_rules.specs.Control.{control_seen};
ghost use Rattle.rc_rules.specs.Machine.{CanDecide};
ghost use Rattle.rc_code.specs.Seen.{list_seen, code_seen};
ghost use Rattle.rc_code.specs.Stands.{StandsFor};
ghost use Rattle.rc_flat.specs.Flat.{flat_from, config_of};
ghost use Rattle.rc_flat.specs.MarkedMoments.{IsInMatch};

use crate::machine::FlatMachine;
use crate::undoing::refill;
use crate::{ProgramCounter, State, place_of};
use rc_code::{Code, sites_are_placed, standing_code_implements};
use rc_deck::Memory;
use rc_flow::Checked;
use rc_rules::{About, Control, Items};
use rc_table::{Shape, Table};
use rc_undo::Board;
use rc_value::{Current, about_of, new_control, site_of};
use std::alloc::Global;
use std::sync::Arc;

impl FlatMachine {
    /// A match at its start. The shape is the sheet's, and the code stands for the sheet.
    pub fn start(
        alloc: Global,
        code: &Arc<Code>,
        checked: &Arc<Checked>,
        shape: &Arc<Shape>,
        turns: u32,
    ) -> Result<FlatMachine, Memory>
        requires shape { shape.now.value ≡ shape_of checked.now.value }
        requires stands { StandsFor checked.now.value (code_seen code.now.value) }
        ensures about { IfOk result (λ m. m.about
            ≡ record { sheet = checked.now.value; shape = shape.now.value; turns = turns }) }
        ensures start { IfOk result (λ m. m.config
            ≡ start (record { sheet = checked.now.value; shape = shape.now.value; turns = turns })) }
        ensures fresh { IfOk result (λ m. m.spent ≡ false) }
        ensures notes { IfOk result (λ m. m.notes ≡ true) }
    {
        let about = about_of(alloc, checked, shape, turns)?;
        FlatMachine::at_start(alloc, code, about)
    }

    /// A match at its start, in matches of this about, which is copied. The code stands for its sheet.
    pub fn start_of(alloc: Global, code: &Arc<Code>, about: &About) -> Result<FlatMachine, Memory>
        requires { StandsFor about.now.sheet (code_seen code.now.value) }
        ensures about { IfOk result (λ m. m.about ≡ about.now) }
        ensures start { IfOk result (λ m. m.config ≡ start about.now) }
        ensures fresh { IfOk result (λ m. m.spent ≡ false) }
        ensures notes { IfOk result (λ m. m.notes ≡ true) }
    {
        match about.copy() {
            Ok(about) => FlatMachine::at_start(alloc, code, about),
            Err(Memory) => Err(Memory),
        }
    }

    /// A match at its start, in matches of this about. The code stands for its sheet.
    pub fn at_start(alloc: Global, code: &Arc<Code>, about: About) -> Result<FlatMachine, Memory>
        requires { StandsFor about.sheet (code_seen code.now.value) }
        ensures about { IfOk result (λ m. m.about ≡ about) }
        ensures start { IfOk result (λ m. m.config ≡ start about) }
        ensures fresh { IfOk result (λ m. m.spent ≡ false) }
        ensures notes { IfOk result (λ m. m.notes ≡ true) }
    {
        let code = Arc::try_clone(code)?;
        let table = Table::new(alloc, about.shape())?;
        let menu = Items::new(alloc)?;
        Ok(FlatMachine::with_opening(code, about, Board::new(alloc, table), menu))
    }

    /// A match at its start, in matches of this about, which is copied. It notes nothing of its edits, and never goes
    /// back. The code stands for its sheet.
    pub fn onward_start(
        alloc: Global,
        code: &Arc<Code>,
        about: &About,
    ) -> Result<FlatMachine, Memory>
        requires { StandsFor about.now.sheet (code_seen code.now.value) }
        ensures about { IfOk result (λ m. m.about ≡ about.now) }
        ensures start { IfOk result (λ m. m.config ≡ start about.now) }
        ensures fresh { IfOk result (λ m. m.spent ≡ false) }
        ensures notes { IfOk result (λ m. m.notes ≡ false) }
    {
        let about = about.copy()?;
        let code = Arc::try_clone(code)?;
        let table = Table::new(alloc, about.shape())?;
        let menu = Items::new(alloc)?;
        Ok(FlatMachine::with_opening(code, about, Board::onward(alloc, table), menu))
    }

    // A match at its start, with the opening table on its board, and with this room for menus.
    fn with_opening(code: Arc<Code>, about: About, board: Board, menu: Items) -> FlatMachine
        requires stands { StandsFor about.sheet (code_seen code.value) }
        requires opens { board.laid ≡ record { shape = about.shape; table = opening about.shape } }
        ensures about { result.about ≡ about }
        ensures start { result.config ≡ start about }
        ensures fresh { result.spent ≡ false }
        ensures notes { result.notes ≡ board.notes }
    {
        standing_code_implements();
        // what an about keeps
        let _sheet = about.sheet();
        let control = new_control(&about);
        FlatMachine {
            about,
            code,
            state: State {
                board,
                control,
                place: ProgramCounter::start(),
                menu,
                // no stage is open
                current: Current { player: 0, team: 0 },
            },
            spent: false,
        }
    }

    /// A match at the decision for which this table and this control stand. The shape is the sheet's, and the code
    /// stands for the sheet.
    pub fn at(
        alloc: Global,
        code: &Arc<Code>,
        checked: &Arc<Checked>,
        shape: &Arc<Shape>,
        turns: u32,
        table: Table,
        control: Control,
    ) -> Result<FlatMachine, Memory>
        requires shape { shape.now.value ≡ shape_of checked.now.value }
        requires stands { StandsFor checked.now.value (code_seen code.now.value) }
        requires laid { table.shape ≡ shape.now.value }
        requires decides { CanDecide
            (record { sheet = checked.now.value; shape = shape.now.value; turns = turns }) table.table
            (control_seen control) }
        ensures about { IfOk result (λ m. m.about
            ≡ record { sheet = checked.now.value; shape = shape.now.value; turns = turns }) }
        ensures at { IfOk result (λ m. m.config
            ≡ at_site (record { sheet = checked.now.value; shape = shape.now.value; turns = turns }) table.table
            (control_seen control)) }
        ensures fresh { IfOk result (λ m. m.spent ≡ false) }
        ensures notes { IfOk result (λ m. m.notes ≡ true) }
    {
        let about = about_of(alloc, checked, shape, turns)?;
        FlatMachine::at_decision(alloc, code, about, table, control)
    }

    /// A match at the decision for which this table and this control stand, in matches of this about. The code stands
    /// for its sheet.
    pub fn at_decision(
        alloc: Global,
        code: &Arc<Code>,
        about: About,
        table: Table,
        control: Control,
    ) -> Result<FlatMachine, Memory>
        requires stands { StandsFor about.sheet (code_seen code.now.value) }
        requires laid { table.shape ≡ about.shape }
        requires decides { CanDecide about table.table (control_seen control) }
        ensures about { IfOk result (λ m. m.about ≡ about) }
        ensures at { IfOk result (λ m. m.config ≡ at_site about table.table (control_seen control)) }
        ensures fresh { IfOk result (λ m. m.spent ≡ false) }
        ensures notes { IfOk result (λ m. m.notes ≡ true) }
    {
        sites_are_placed();
        // what an about keeps
        let _sheet = about.sheet();
        let place = place_of(code, site_of(&control));
        let code = Arc::try_clone(code)?;
        let board = Board::new(alloc, table);
        let menu = Items::new(alloc)?;
        Ok(FlatMachine::at_place(code, about, board, control, place, menu))
    }

    /// A match at this place of its code, with the table of this board and this room for menus.
    pub(crate) fn at_place(
        code: Arc<Code>,
        about: About,
        board: Board,
        control: Control,
        place: ProgramCounter,
        menu: Items,
    ) -> FlatMachine
        requires stands { StandsFor about.sheet (code_seen code.value) }
        requires laid { board.laid.shape ≡ about.shape }
        requires on { IsInMatch (flat_from about (list_seen code.value.list.items) place board.laid.table
            (control_seen control)) }
        ensures about { result.about ≡ about }
        ensures code { result.code ≡ list_seen code.value.list.items }
        ensures at { result.config ≡ config_of
            (flat_from about (list_seen code.value.list.items) place board.laid.table (control_seen control)) }
        ensures home { result.home ≡ board.home }
        ensures fresh { result.spent ≡ false }
        ensures notes { result.notes ≡ board.notes }
    {
        standing_code_implements();
        // what an about keeps
        let _sheet = about.sheet();
        let mut state = State {
            board,
            control,
            place,
            menu,
            // any, until it is filled
            current: Current { player: 0, team: 0 },
        };
        refill(&mut state, &about, &code.list);
        FlatMachine {
            about,
            code,
            state,
            spent: false,
        }
    }
}

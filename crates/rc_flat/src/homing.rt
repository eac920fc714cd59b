//! Machines that go home.
ghost use Rattle.std.specs.Prelude.{◌≡◌, ◌<◌, true, false, length, Some, is_err, IfOk, OnOk, OnErr, IsOk};
ghost use Rattle.rc_play_spec.specs.Step.{goes};
ghost use Rattle.rc_play_spec.specs.Stop.{stop_of};
ghost use Rattle.rc_play_spec.specs.Decision.{at_site, choose};
ghost use Rattle.rc_rules.specs.Control.{control_seen, stop_seen};
ghost use Rattle.rc_rules.specs.Dealer.{ShuffledBy};
ghost use Rattle.rc_rules.specs.Machine.{CanDecide, StopsAtDecision, IsWhereItStops, menu_here};
ghost use Rattle.rc_code.specs.Seen.{code_seen};
ghost use Rattle.rc_code.specs.Stands.{StandsFor};

use crate::machine::FlatMachine;
use crate::{Stand, place_of, write_control};
use rc_code::{Code, sites_are_placed};
use rc_deck::Memory;
use rc_rules::{About, Bounds, Control, Dealer, Items, Machine, Menu, Scores, Stop};
use rc_table::Table;
use rc_undo::Board;
use rc_value::site_of;
use std::alloc::Global;
use std::marker::Model;
use std::sync::Arc;

/// A match that is played onward from one decision again and again. It keeps the table, the control and the menu of
/// that decision, its home, and goes back there by copying them, however many edits there were.
#[derive(Drop)]
pub struct HomeMachine {
    machine: FlatMachine,
    stand: Stand,
    // that of the machine, with the places of its choices
    code: Arc<Code>,
}

impl Model for HomeMachine {
    ghost use Rattle.std.specs.Coded.{codes};
    ghost use Rattle.rc_flow.specs.Codes.{sheet_codes};
    ghost use Rattle.rc_flat.specs.Codes.{part_codes};
    ghost use Rattle.rc_flat.specs.Home.{Homing};

    ghost Value = { Homing };

    ghost coded = { Prim.hlevel (sheet_codes, part_codes, codes) };

    ghost use Rattle.rc_flat.specs.HomeSeen.{homing_seen, KeepsHome};

    ghost view = { homing_seen };

    ghost invariant = { KeepsHome };
}

impl HomeMachine {
    /// A match that is at home at the decision for which this table and this control stand, in matches of this about.
    /// The code stands for the sheet.
    pub fn at_decision(
        alloc: Global,
        code: &Arc<Code>,
        about: About,
        table: Table,
        control: Control,
    ) -> Result<HomeMachine, Memory>
        requires stands { StandsFor about.sheet (code_seen code.now.value) }
        requires laid { table.shape ≡ about.shape }
        requires decides { CanDecide about table.table (control_seen control) }
        ensures about { IfOk result (λ m. m.about ≡ about) }
        ensures home { IfOk result (λ m. m.home ≡ at_site about table.table (control_seen control)) }
        ensures at { IfOk result (λ m. m.config ≡ at_site about table.table (control_seen control)) }
        ensures fresh { IfOk result (λ m. m.spent ≡ false) }
    {
        sites_are_placed();
        // what an about keeps
        let _sheet = about.sheet();
        let place = place_of(code, site_of(&control));
        let placed = Arc::try_clone(code)?;
        let code = Arc::try_clone(code)?;
        let board = Board::at_home(alloc, table)?;
        let mut stand = Stand {
            control: control.copy(),
            place: place.copy(),
            menu: Items::new(alloc)?,
        };
        let menu = Items::new(alloc)?;
        let machine = FlatMachine::at_place(code, about, board, control, place, menu);
        machine.write_menu(&mut stand.menu);
        Ok(HomeMachine {
            machine,
            stand,
            code: placed,
        })
    }

    /// Goes home. A machine that was spent is whole again. It takes no memory.
    pub fn go_home(&mut self)
        ensures at { self.new.config ≡ self.old.home }
        ensures home { self.new.home ≡ self.old.home }
        ensures about { self.new.about ≡ self.old.about }
        ensures fresh { self.new.spent ≡ false }
    {
        self.machine.go_home(&self.stand);
    }

    /// Makes another table for the same decision its home, and goes there. A machine that was spent is whole again. It
    /// takes no memory.
    pub fn move_home(&mut self, table: &Table)
        requires laid { table.now.shape ≡ self.old.about.shape }
        requires decides { CanDecide self.old.about table.now.table self.old.home.control }
        ensures at { self.new.config ≡ self.new.home }
        ensures home { self.new.home ≡ at_site self.old.about table.now.table self.old.home.control }
        ensures about { self.new.about ≡ self.old.about }
        ensures fresh { self.new.spent ≡ false }
    {
        self.machine.move_home(table, &self.stand);
        self.machine.write_menu(&mut self.stand.menu);
    }

    /// Makes the decision for which this table and this control stand its home, in the same matches, and goes there. A
    /// machine that was spent is whole again. It takes no memory.
    pub fn move_to(&mut self, table: &Table, control: &Control)
        requires laid { table.now.shape ≡ self.old.about.shape }
        requires decides { CanDecide self.old.about table.now.table (control_seen control.now) }
        ensures at { self.new.config ≡ self.new.home }
        ensures home { self.new.home ≡ at_site self.old.about table.now.table (control_seen control.now) }
        ensures about { self.new.about ≡ self.old.about }
        ensures fresh { self.new.spent ≡ false }
    {
        sites_are_placed();
        // what an about keeps
        let _sheet = self.machine.about().sheet();
        let place = place_of(&self.code, site_of(control));
        self.stand.place = place;
        write_control(control, &mut self.stand.control);
        self.machine.move_home(table, &self.stand);
        self.machine.write_menu(&mut self.stand.menu);
    }
}

impl Machine for HomeMachine {
    ghost about = { λ m. m.about };

    ghost config = { λ m. m.config };

    ghost spent = { λ m. m.spent };

    fn advance<D: Dealer>(&mut self, dealer: &mut D) -> Result<Stop, Memory>
        ensures leads { IfOk result
            (λ stop. stop_of self.old.about (D.dealing dealer.old) (D.state dealer.old) self.old.config
            ≡ Some (record { stop = stop_seen stop; config = self.new.config; dealer = D.state dealer.new })) }
        ensures stands { IfOk result (λ stop. IsWhereItStops self.old.about (stop_seen stop) self.new.config) }
        ensures fresh { OnOk result (self.old.spent ≡ false) }
        ensures spent { self.new.spent ≡ is_err result }
        ensures shuffled { OnErr result (ShuffledBy D.dealing D.state dealer.old dealer.new) }
        ensures idle { self.old.spent ≡ true → D.state dealer.new ≡ D.state dealer.old }
        ensures same { self.new.about ≡ self.old.about }
        ensures dealing { D.dealing dealer.new ≡ D.dealing dealer.old }
        ensures home { self.new.home ≡ self.old.home }
        ensures quiet { self.old.spent ≡ false → IsOk result }
    {
        self.machine.advance(dealer)
    }

    fn menu(&self) -> Menu {
        self.machine.menu()
    }

    fn menu_size(&self) -> usize {
        self.machine.menu_size()
    }

    fn bounds(&self, item: u16) -> Bounds {
        self.machine.bounds(item)
    }

    fn apply<D: Dealer>(&mut self, item: u16, dealer: &mut D) -> Result<(), Memory>
        requires decision { self.old.spent ≡ false → StopsAtDecision self.old.about self.old.config }
        requires offered { self.old.spent ≡ false → item < length (menu_here self.old.about self.old.config) }
        ensures leads { OnOk result
            (choose self.old.about (D.dealing dealer.old) (D.state dealer.old) item self.old.config
            ≡ goes (D.state dealer.new) self.new.config) }
        ensures fresh { OnOk result (self.old.spent ≡ false) }
        ensures spent { self.new.spent ≡ is_err result }
        ensures shuffled { OnErr result (ShuffledBy D.dealing D.state dealer.old dealer.new) }
        ensures idle { self.old.spent ≡ true → D.state dealer.new ≡ D.state dealer.old }
        ensures same { self.new.about ≡ self.old.about }
        ensures dealing { D.dealing dealer.new ≡ D.dealing dealer.old }
        ensures home { self.new.home ≡ self.old.home }
        ensures quiet { self.old.spent ≡ false → IsOk result }
    {
        self.machine.apply(item, dealer)
    }

    fn scores(&self) -> Scores {
        self.machine.scores()
    }

    fn table(&self) -> &Table {
        self.machine.table()
    }

    fn control(&self) -> &Control {
        self.machine.control()
    }
}

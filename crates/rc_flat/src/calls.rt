//! The calls of the machine.
ghost use Rattle.std.specs.Prelude.{◌≡◌, ℕ, ◌<◌, ◌≤◌, ◌++◌, List, true, false, length, Some, is_err, IsSome, IfOk, OnOk, OnErr, IsOk};
ghost use Rattle.rc_base.specs.Limits.{most_items};
ghost use Rattle.rc_play_spec.specs.Table.{Table as PureTable};
ghost use Rattle.rc_play_spec.specs.About.{menu_at};
ghost use Rattle.rc_play_spec.specs.Step.{Config, goes};
ghost use Rattle.rc_play_spec.specs.Stop.{stop_of};
ghost use Rattle.rc_play_spec.specs.Decision.{choose};
ghost use Rattle.rc_rules.specs.Bounds.{bounds_seen};
ghost use Rattle.rc_rules.specs.Control.{control_seen, stop_seen};
ghost use Rattle.rc_rules.specs.Dealer.{ShuffledBy};
ghost use Rattle.rc_rules.specs.Machine.{StopsAtDecision, IsWhereItStops, bounds_here, menu_here};
ghost use Rattle.rc_rules.specs.Menu.{menu_seen};
ghost use Rattle.rc_flat.specs.Flat.{config_of, flat_from};
ghost use Rattle.rc_flat.specs.MarkedMoments.{IsInMatch};
ghost use Rattle.rc_flat.specs.Home.{config_at_home, IsHome};
ghost use Rattle.rc_flat.specs.Machine.{KeepsTables, tables_of};
ghost use Rattle.rc_flat.specs.Marks.{IsMark};

use crate::decisions::apply;
use crate::machine::FlatMachine;
use crate::naming::bounds_of;
use crate::steps::one_step;
use crate::undoing::refill;
use crate::{Mark, Stand, write_menu};
use rc_code::Instruction;
use rc_deck::Memory;
use rc_menu::copy_menu;
use rc_play_spec::stops_stay;
use rc_rules::{About, Bounds, Control, Dealer, Items, Machine, Menu, Scores, Stop};
use rc_table::Table;

impl FlatMachine {
    /// The moment at which it stands. Its edits are noted.
    pub fn mark(&self) -> Mark
        requires fresh { self.now.spent ≡ false }
        requires notes { self.now.notes ≡ true }
        ensures now { IsMark self.now result self.now.config }
        ensures edits { result.edits ≡ length self.now.before }
    {
        self.state.mark()
    }

    /// Goes back to a moment. A machine that was spent is whole again.
    pub fn undo_to(&mut self, mark: Mark)
        requires { (config : Config) × IsMark self.old mark config }
        ensures there { IsMark self.old mark self.new.config }
        ensures before { (gone : List PureTable) × (tables_of self.old ≡ gone ++ tables_of self.new) }
        ensures edits { length self.new.before ≡ mark.edits }
        ensures fresh { self.new.spent ≡ false }
        ensures about { self.new.about ≡ self.old.about }
        ensures code { self.new.code ≡ self.old.code }
        ensures notes { self.new.notes ≡ self.old.notes }
        ensures home { self.new.home ≡ self.old.home }
    {
        self.state.go_back(mark);
        refill(&mut self.state, &self.about, &self.code.list);
        self.spent = false;
    }

    /// Goes home, where it stands as it is told. A machine that was spent is whole again.
    pub(crate) fn go_home(&mut self, stand: &Stand)
        requires { IsHome self.old.about self.old.code self.old.home stand.now }
        ensures at { self.new.config ≡ config_at_home self.old.about self.old.code self.old.home stand.now }
        ensures about { self.new.about ≡ self.old.about }
        ensures code { self.new.code ≡ self.old.code }
        ensures notes { self.new.notes ≡ self.old.notes }
        ensures home { self.new.home ≡ self.old.home }
        ensures fresh { self.new.spent ≡ false }
    {
        self.state.go_home(&self.about, stand);
        self.spent = false;
    }

    /// Goes to another home with this table, where it stands as it is told, but for the menu. A machine that was spent
    /// is whole again.
    pub(crate) fn move_home(&mut self, table: &Table, stand: &Stand)
        requires laid { table.now.shape ≡ self.old.about.shape }
        requires home { IsSome self.old.home }
        requires on { IsInMatch (flat_from self.old.about self.old.code stand.now.place table.now.table
            (control_seen stand.now.control)) }
        ensures at { self.new.config
            ≡ config_of (flat_from self.old.about self.old.code stand.now.place table.now.table
            (control_seen stand.now.control)) }
        ensures about { self.new.about ≡ self.old.about }
        ensures code { self.new.code ≡ self.old.code }
        ensures notes { self.new.notes ≡ false }
        ensures home { self.new.home ≡ Some table.now.table }
        ensures fresh { self.new.spent ≡ false }
    {
        self.state.move_home(table, stand);
        refill(&mut self.state, &self.about, &self.code.list);
        self.spent = false;
    }

    /// What it plays by.
    pub(crate) fn about(&self) -> &About
        ensures { result.now ≡ self.now.about }
    {
        &self.about
    }

    /// Writes the menu of the site at which it stands, if there is one, over another one.
    pub(crate) fn write_menu(&self, menu: &mut Items)
        requires { self.now.spent ≡ false }
        ensures { (site : ℕ) → self.now.config.control.site ≡ Some site →
            menu_seen menu.new.items ≡ menu_at self.now.about site self.now.config.table self.now.config.control }
    {
        write_menu(&self.state.menu, menu);
    }
}

impl Machine for FlatMachine {
    ghost about = { λ m. m.about };

    ghost config = { λ m. m.config };

    ghost spent = { λ m. m.spent };

    #[tactic(auto, using(rc_exec::proofs::ShuffleLemmas::not_shuffled))]
    fn advance<D: Dealer>(&mut self, dealer: &mut D) -> Result<Stop, Memory>
        ensures leads { IfOk result
            (λ stop. stop_of self.old.about (D.dealing dealer.old) (D.state dealer.old) self.old.config
            ≡ Some (record { stop = stop_seen stop; config = self.new.config; dealer = D.state dealer.new })) }
        ensures stands { IfOk result (λ stop. IsWhereItStops self.old.about (stop_seen stop) self.new.config) }
        ensures fresh { OnOk result (self.old.spent ≡ false) }
        ensures spent { self.new.spent ≡ is_err result }
        ensures shuffled { OnErr result (ShuffledBy D.dealing D.state dealer.old dealer.new) }
        ensures idle { self.old.spent ≡ true → D.state dealer.new ≡ D.state dealer.old }
        ensures same { self.new.about ≡ self.old.about }
        ensures dealing { D.dealing dealer.new ≡ D.dealing dealer.old }
        ensures keeps { KeepsTables self.old self.new }
        ensures quiet { self.old.spent ≡ false → self.old.notes ≡ false → IsOk result }
    {
        if self.spent {
            return Err(Memory);
        }
        stops_stay();
        let state = &mut self.state;
        let about = &self.about;
        let code: &[Instruction] = &self.code.list;
        // what an about keeps
        let _sheet = about.sheet();
        loop {
            match one_step(state, about, code, dealer) {
                Ok(next) => match next {
                    Some(stop) => return Ok(stop),
                    None => {}
                },
                Err(Memory) => {
                    self.spent = true;
                    return Err(Memory);
                }
            }
        }
    }

    fn menu(&self) -> Menu {
        copy_menu(&self.state.menu)
    }

    fn menu_size(&self) -> usize
        requires fresh { self.now.spent ≡ false }
        requires decision { StopsAtDecision self.now.about self.now.config }
        ensures count { result ≡ length (menu_here self.now.about self.now.config) }
        ensures few { result ≤ most_items }
    {
        self.state.menu.len()
    }

    fn bounds(&self, item: u16) -> Bounds
        requires fresh { self.now.spent ≡ false }
        requires decision { StopsAtDecision self.now.about self.now.config }
        requires offered { item < length (menu_here self.now.about self.now.config) }
        ensures { bounds_seen result ≡ bounds_here self.now.about item self.now.config }
    {
        bounds_of(&self.state, &self.about, &self.code.list, item)
    }

    #[tactic(auto, using(rc_exec::proofs::ShuffleLemmas::not_shuffled))]
    fn apply<D: Dealer>(&mut self, item: u16, dealer: &mut D) -> Result<(), Memory>
        requires decision { self.old.spent ≡ false → StopsAtDecision self.old.about self.old.config }
        requires offered { self.old.spent ≡ false → item < length (menu_here self.old.about self.old.config) }
        ensures leads { OnOk result
            (choose self.old.about (D.dealing dealer.old) (D.state dealer.old) item self.old.config
            ≡ goes (D.state dealer.new) self.new.config) }
        ensures fresh { OnOk result (self.old.spent ≡ false) }
        ensures spent { self.new.spent ≡ is_err result }
        ensures shuffled { OnErr result (ShuffledBy D.dealing D.state dealer.old dealer.new) }
        ensures idle { self.old.spent ≡ true → D.state dealer.new ≡ D.state dealer.old }
        ensures same { self.new.about ≡ self.old.about }
        ensures dealing { D.dealing dealer.new ≡ D.dealing dealer.old }
        ensures keeps { KeepsTables self.old self.new }
        ensures quiet { self.old.spent ≡ false → self.old.notes ≡ false → IsOk result }
    {
        if self.spent {
            return Err(Memory);
        }
        match apply(&mut self.state, &self.about, &self.code.list, item, dealer) {
            Ok(()) => Ok(()),
            Err(Memory) => {
                self.spent = true;
                Err(Memory)
            }
        }
    }

    fn scores(&self) -> Scores {
        self.state.scores(&self.about)
    }

    fn table(&self) -> &Table {
        self.state.board.table()
    }

    fn control(&self) -> &Control {
        &self.state.control
    }
}

//! Moments at decisions, to which a machine goes as often as that is asked, each with a table of its own.
ghost use Rattle.std.specs.Prelude.{◌≡◌, ℕ, ◌<◌, false, length, IsSome, Some, IfOk};
ghost use Rattle.rc_play_spec.specs.About.{menu_at};
ghost use Rattle.rc_play_spec.specs.Decision.{at_site};
ghost use Rattle.rc_play_spec.specs.Step.{Config};
ghost use Rattle.rc_code.specs.Seen.{code_seen};
ghost use Rattle.rc_code.specs.Stands.{StandsFor};
ghost use Rattle.rc_rules.specs.Control.{control_seen};
ghost use Rattle.rc_rules.specs.Machine.{CanDecide};
ghost use Rattle.rc_flat.specs.Flat.{config_of, flat_from};
ghost use Rattle.rc_flat.specs.MarkedMoments.{IsInMatch};
ghost use Rattle.rc_flat.specs.Moments.{IsMoment, StaysInMatch, with_table};

use crate::machine::FlatMachine;
use crate::undoing::refill;
use crate::{Stand, place_of, write_control, write_menu};
use rc_code::{Code, sites_are_placed};
use rc_deck::Memory;
use rc_rules::{About, Control, Items};
use rc_table::Table;
use rc_undo::Board;
use rc_value::{Current, site_of};
use std::alloc::Global;
use std::sync::Arc;

/// Where a machine stood at a moment, with its table and its menu. One moment is written over another, and takes memory
/// only where it is made.
#[derive(Drop)]
pub struct Moment {
    table: Table,
    stand: Stand,
    current: Current,
}

impl FlatMachine {
    /// A match at the decision for which this table and this control stand, in matches of this about, that goes from
    /// moment to moment and notes nothing. The code stands for its sheet.
    pub fn at_moment(
        alloc: Global,
        code: &Arc<Code>,
        about: About,
        table: Table,
        control: Control,
    ) -> Result<FlatMachine, Memory>
        requires stands { StandsFor about.sheet (code_seen code.now.value) }
        requires laid { table.shape ≡ about.shape }
        requires decides { CanDecide about table.table (control_seen control) }
        ensures about { IfOk result (λ m. m.about ≡ about) }
        ensures at { IfOk result (λ m. m.config ≡ at_site about table.table (control_seen control)) }
        ensures fresh { IfOk result (λ m. m.spent ≡ false) }
        ensures home { IfOk result (λ m. IsSome m.home) }
    {
        sites_are_placed();
        // what an about keeps
        let _sheet = about.sheet();
        let place = place_of(code, site_of(&control));
        let code = Arc::try_clone(code)?;
        let board = Board::at_home(alloc, table)?;
        let menu = Items::new(alloc)?;
        Ok(FlatMachine::at_place(code, about, board, control, place, menu))
    }

    /// The moment at which it stands.
    pub fn moment(&self, alloc: Global) -> Result<Moment, Memory>
        requires { self.now.spent ≡ false }
        ensures { IfOk result (λ moment. IsMoment self.now.about self.now.code self.now.config moment) }
    {
        let table = self.state.board.table().copy(alloc)?;
        let mut menu = Items::new(alloc)?;
        write_menu(&self.state.menu, &mut menu);
        let control = self.state.control.copy();
        let place = self.state.place.copy();
        Ok(Moment {
            table,
            stand: Stand {
                control,
                place,
                menu,
            },
            current: self.state.current,
        })
    }

    /// Writes the moment at which it stands over another one of its matches.
    pub fn keep(&self, moment: &mut Moment)
        requires fresh { self.now.spent ≡ false }
        requires shape { moment.old.table.shape ≡ self.now.about.shape }
        ensures { IsMoment self.now.about self.now.code self.now.config moment.new }
    {
        moment.table.copy_from(self.state.board.table());
        write_control(&self.state.control, &mut moment.stand.control);
        moment.stand.place.set_to(&self.state.place);
        write_menu(&self.state.menu, &mut moment.stand.menu);
        moment.current = self.state.current;
    }

    /// Goes to a moment. A machine that was spent is whole again. It takes no memory.
    pub fn go_to(&mut self, moment: &Moment)
        requires home { IsSome self.old.home }
        requires moment { (config : Config) × IsMoment self.old.about self.old.code config moment.now }
        ensures at { (config : Config) → IsMoment self.old.about self.old.code config moment.now
            → self.new.config ≡ config }
        ensures fresh { self.new.spent ≡ false }
        ensures stays { StaysInMatch self.old self.new }
    {
        self.state.go_to(&moment.table, &moment.stand);
        write_menu(&moment.stand.menu, &mut self.state.menu);
        self.state.current = moment.current;
        self.spent = false;
    }

    /// Goes to a moment with another table, and makes that the moment. A machine that was spent is whole again. It
    /// takes no memory.
    pub fn deal_to(&mut self, table: &Table, moment: &mut Moment)
        requires home { IsSome self.old.home }
        requires laid { table.now.shape ≡ self.old.about.shape }
        requires moment { (config : Config) × IsMoment self.old.about self.old.code config moment.old
            × ((site : ℕ) → config.control.site ≡ Some site
            → 0 < length (menu_at self.old.about site table.now.table config.control)) }
        ensures at { (config : Config) → IsMoment self.old.about self.old.code config moment.old
            → self.new.config ≡ with_table table.now.table config }
        ensures moment { IsMoment self.new.about self.new.code self.new.config moment.new }
        ensures fresh { self.new.spent ≡ false }
        ensures stays { StaysInMatch self.old self.new }
    {
        self.stand_at(table, &moment.stand);
        self.keep(moment);
    }

    // Goes to another table, and stands there as it is told, but for the menu. The home stays.
    fn stand_at(&mut self, table: &Table, stand: &Stand)
        requires laid { table.now.shape ≡ self.old.about.shape }
        requires home { IsSome self.old.home }
        requires on { IsInMatch (flat_from self.old.about self.old.code stand.now.place table.now.table
            (control_seen stand.now.control)) }
        ensures at { self.new.config
            ≡ config_of (flat_from self.old.about self.old.code stand.now.place table.now.table
            (control_seen stand.now.control)) }
        ensures fresh { self.new.spent ≡ false }
        ensures stays { StaysInMatch self.old self.new }
    {
        self.state.go_to(table, stand);
        refill(&mut self.state, &self.about, &self.code.list);
        self.spent = false;
    }
}

//! Where a match stands at home.
ghost use Rattle.std.specs.Prelude.{◌≡◌, List, IsSome};
ghost use Rattle.rc_play_spec.specs.About.{About as PureAbout};
ghost use Rattle.rc_rules.specs.Control.{control_seen, frames_seen};
ghost use Rattle.rc_rules.specs.Menu.{menu_seen};
ghost use Rattle.rc_value.specs.Current.{IsCurrent};
ghost use Rattle.rc_code.specs.Instruction.{Instruction as PureInstruction};
ghost use Rattle.rc_undo.specs.Undo.{away_at, gone_home, home_at};
ghost use Rattle.rc_flat.specs.Flat.{flat_from};
ghost use Rattle.rc_flat.specs.State.{flat_of};

use crate::place::{ProgramCounter, write_list};
use crate::state::State;
use rc_rules::{About, Control, Items};
use rc_table::Table;

/// Where a match stands beside its table: the control, the place in the code, and the menu.
#[derive(Drop)]
pub struct Stand {
    pub control: Control,
    pub place: ProgramCounter,
    pub menu: Items,
}

impl State {
    /// Goes home with the table, and stands there as it is told.
    pub fn go_home(&mut self, about: &About, stand: &Stand)
        ensures board { self.new.board ≡ gone_home self.old.board }
        ensures control { control_seen self.new.control ≡ control_seen stand.now.control }
        ensures place { self.new.place ≡ stand.now.place }
        ensures current { IsCurrent about.now.sheet (frames_seen self.new.control.frames.items) self.new.current }
        ensures menu { menu_seen self.new.menu.items ≡ menu_seen stand.now.menu.items }
    {
        self.board.go_home();
        write_control(&stand.control, &mut self.control);
        self.place.set_to(&stand.place);
        write_menu(&stand.menu, &mut self.menu);
        self.current = self.current_now(about);
    }

    /// Goes to another table, and stands there as it is told. The home stays. The menu is any, and who is current.
    pub fn go_to(&mut self, table: &Table, stand: &Stand)
        requires shape { self.old.board.laid.shape ≡ table.now.shape }
        requires home { IsSome self.old.board.home }
        ensures board { self.new.board ≡ away_at table.now self.old.board.home }
        ensures there { (about : PureAbout) (code : List PureInstruction) →
            flat_of about code self.new
            ≡ flat_from about code stand.now.place table.now.table (control_seen stand.now.control) }
    {
        self.board.go_to(table);
        write_control(&stand.control, &mut self.control);
        self.place.set_to(&stand.place);
    }

    /// Goes to another home with this table, and stands there as it is told. The menu is any, and who is current.
    pub fn move_home(&mut self, table: &Table, stand: &Stand)
        requires shape { self.old.board.laid.shape ≡ table.now.shape }
        requires home { IsSome self.old.board.home }
        ensures board { self.new.board ≡ home_at table.now }
        ensures there { (about : PureAbout) (code : List PureInstruction) →
            flat_of about code self.new
            ≡ flat_from about code stand.now.place table.now.table (control_seen stand.now.control) }
    {
        self.board.move_home(table);
        write_control(&stand.control, &mut self.control);
        self.place.set_to(&stand.place);
    }
}

/// Writes a control over another one. What isn't in its lists isn't copied.
pub fn write_control(from: &Control, to: &mut Control)
    ensures { control_seen to.new ≡ control_seen from.now }
{
    to.site = from.site;
    write_list(&from.frames, &mut to.frames);
    to.turn = from.turn;
    write_list(&from.made, &mut to.made);
}

/// Writes a menu over another one.
pub fn write_menu(from: &Items, to: &mut Items)
    ensures { menu_seen to.new.items ≡ menu_seen from.now.items }
{
    to.clear();
    // what a menu keeps
    let _fits = from.len();
    for item in from.as_slice() {
        to.push(item.copy());
    }
}

//! Moments of a match, and going back to them.
ghost use Rattle.std.specs.Prelude.{◌≡◌, ◌≤◌, true, List, length};
ghost use Rattle.rc_play_spec.specs.Table.{Table as PureTable};
ghost use Rattle.rc_play_spec.specs.About.{About as PureAbout};
ghost use Rattle.rc_rules.specs.Control.{control_seen};
ghost use Rattle.rc_code.specs.Instruction.{Instruction as PureInstruction};
ghost use Rattle.rc_undo.specs.Undo.{GoesBack, tables};
ghost use Rattle.rc_flat.specs.State.{flat_of};
ghost use Rattle.rc_flat.specs.MarkedMoments.{flat_marked};

use crate::place::ProgramCounter;
use crate::state::State;
use rc_rules::Control;

/// A moment of a match: where it stood beside its table, in the code, and after how many edits of its table.
#[derive(Drop)]
pub struct Mark {
    control: Control,
    place: ProgramCounter,
    edits: usize,
}

impl State {
    /// Where it stands.
    pub fn mark(&self) -> Mark
        requires { self.now.board.notes ≡ true }
        ensures control { control_seen result.control ≡ control_seen self.now.control }
        ensures place { result.place ≡ self.now.place }
        ensures edits { result.edits ≡ length self.now.board.before }
    {
        Mark {
            control: self.control.copy(),
            place: self.place.copy(),
            edits: self.board.edits(),
        }
    }

    /// Goes back to where a match stood. The menu is any, and who is current.
    pub fn go_back(&mut self, mark: Mark)
        requires notes { self.old.board.notes ≡ true }
        requires fits { mark.edits ≤ length self.old.board.before }
        ensures there { (about : PureAbout) (code : List PureInstruction) →
            flat_marked about code (tables self.old.board) mark ≡ flat_of about code self.new }
        ensures back { (gone : List PureTable) × GoesBack self.old.board self.new.board gone }
        ensures count { length self.new.board.before ≡ mark.edits }
    {
        self.board.go_back(mark.edits);
        self.control = mark.control;
        self.place = mark.place;
    }
}

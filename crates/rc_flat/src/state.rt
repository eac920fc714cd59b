//! Where a match stands.
ghost use Rattle.std.specs.Prelude.{◌≡◌, []};
ghost use Rattle.rc_sheet_spec.specs.WellFormed.{Around, IsTest};
ghost use Rattle.rc_play_spec.specs.Value.{test_value};
ghost use Rattle.rc_play_spec.specs.About.{scene_at};
ghost use Rattle.rc_play_spec.specs.Scores.{scores_of};
ghost use Rattle.rc_rules.specs.Control.{frames_seen, control_seen};
ghost use Rattle.rc_value.specs.Current.{IsCurrent};

use crate::place::ProgramCounter;
use rc_code::CompiledTest;
use rc_rules::{About, Control, Items, Scores};
use rc_undo::Board;
use rc_value::{Current, code_has_ended, current_of, scores_now};

/// The board, the control, the place in the code, the menu of the decision at which the match stands, and who is
/// current in the open stages. Where it stands at no decision, the menu is any.
#[derive(Drop)]
pub struct State {
    pub board: Board,
    pub control: Control,
    pub place: ProgramCounter,
    pub menu: Items,
    pub current: Current,
}

impl State {
    /// Who is current in the stages that are open now, whoever was before.
    pub fn current_now(&self, about: &About) -> Current
        ensures { IsCurrent about.now.sheet (frames_seen self.now.control.frames.items) result }
    {
        current_of(
            about.sheet(),
            about.lookup(),
            self.control.frames.as_slice(),
        )
    }

    /// Whether the end test of a stage holds.
    #[inline(always)]
    pub fn ends(&self, about: &About, end: &CompiledTest) -> bool
        requires laid { self.now.board.laid.shape ≡ about.now.shape }
        requires current { IsCurrent about.now.sheet (frames_seen self.now.control.frames.items) self.now.current }
        requires well { (around : Around) × (around.binders ≡ 0) × IsTest about.now.sheet around end.now }
        ensures { result ≡ test_value
            (scene_at about.now self.now.board.laid.table (frames_seen self.now.control.frames.items)) [] end.now }
    {
        code_has_ended(about, self.current, self.board.table(), &self.control, end)
    }

    /// Each player's score.
    pub fn scores(&self, about: &About) -> Scores
        requires laid { self.now.board.laid.shape ≡ about.now.shape }
        ensures { result.items ≡ scores_of about.now self.now.board.laid.table (control_seen self.now.control) }
    {
        scores_now(about, self.board.table(), &self.control)
    }
}

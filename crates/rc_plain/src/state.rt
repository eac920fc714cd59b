//! Where a match stands.
ghost use Rattle.rc_rules.specs.Control.{frames_seen};
ghost use Rattle.rc_value.specs.Current.{IsCurrent};

use crate::path::Path;
use rc_rules::{About, Control, Items};
use rc_undo::Board;
use rc_value::{Current, current_of};

/// The table, as a board that notes nothing, the control, the path to the item that is next, the menu of the decision at
/// which the match stands, and who is current in the open stages. Where it stands at no decision, the menu is any.
#[derive(Drop)]
pub struct PlainState {
    pub board: Board,
    pub control: Control,
    pub path: Path,
    pub menu: Items,
    pub current: Current,
}

/// Who is current in the stages that a control has open.
pub fn current_in(about: &About, control: &Control) -> Current
    ensures { IsCurrent about.now.sheet (frames_seen control.now.frames.items) result }
{
    current_of(about.sheet(), about.lookup(), control.frames.as_slice())
}

//! The member of a class that is current.
ghost use Rattle.std.specs.Prelude.{◌≡◌};
ghost use Rattle.rc_play_spec.specs.Owners.{current_in as pure_current_in};
ghost use Rattle.rc_rules.specs.Control.{frames_seen};
ghost use Rattle.rc_value.specs.Current.{IsCurrent};

use crate::Current;
use rc_ast::Class;
use rc_rules::{About, Frame, current_in};

/// The current member of the innermost open stage of a class, or 0 where none is open, where it is known who is
/// current.
#[inline(always)]
pub fn member_by(about: &About, current: Current, class: Class, frames: &[Frame]) -> u8
    requires { IsCurrent about.now.sheet (frames_seen frames.now) current }
    ensures { result ≡ pure_current_in about.now.sheet class (frames_seen frames.now) }
{
    match class {
        Class::Player => current.player,
        Class::Team => current.team,
        Class::Game => current_in(about, class, frames),
    }
}

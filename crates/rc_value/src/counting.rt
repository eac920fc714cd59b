//! Controls, and what they count.
ghost use Rattle.std.specs.Prelude.{◌≡◌, ◌+◌, ◌<◌, ◌≤◌, ◌^◌, [], None, All, replicate};
ghost use Rattle.rc_sheet_spec.specs.WellFormed.{owner_count as pure_owner_count};
ghost use Rattle.rc_play_spec.specs.Decision.{with_choice};
ghost use Rattle.rc_rules.specs.Control.{control_seen};

use arrayvec::ArrayVec;
use rc_ast::Class;
use rc_rules::{About, Control, owner_count};

/// The control at the start of a match.
pub fn new_control(about: &About) -> Control
    ensures { control_seen result
        ≡ record { site = None; frames = []; turn = 0; made = replicate about.now.sheet.players 0 } }
{
    Control {
        site: None,
        frames: ArrayVec::new(),
        turn: 0,
        made: zeros(about.sheet().players),
    }
}

fn zeros(count: u8) -> ArrayVec<u32, 8>
    requires { count ≤ 8 }
    ensures { result.items ≡ replicate count 0 }
{
    let mut all = ArrayVec::new();
    for _ in 0..count {
        all.push(0);
    }
    all
}

/// How many members a stage of a class has: 1 to 8.
#[inline(always)]
pub fn member_count(about: &About, class: Class) -> u8
    ensures count { result ≡ pure_owner_count about.now.sheet class }
    ensures some { 1 ≤ result }
{
    owner_count(about.sheet(), class) as u8
}

/// Counts a decision of a seat.
pub fn count_decision(control: &mut Control, seat: u8)
    requires counts { All (λ n. n ≤ control.old.turn) control.old.made.items }
    requires below { control.old.turn + 1 < 2 ^ 32 }
    ensures { control_seen control.new ≡ with_choice seat (control_seen control.old) }
{
    control.site = None;
    control.turn += 1;
    match control.made.get_mut(seat as usize) {
        Some(made) => *made += 1,
        None => {}
    }
}

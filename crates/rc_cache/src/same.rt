//! Whether two asks are the same.
ghost use Rattle.std.specs.Prelude.{◌≡◌, map};
ghost use lib.Pointwise.{pointwise};
ghost use Rattle.rc_rules.specs.Control.{control_seen, frame_seen};
ghost use Rattle.rc_view.specs.Seen.{sight_seen, view_seen};
ghost use Rattle.rc_redraw.specs.Asking.{ask_seen};
ghost use Rattle.rc_cache.specs.Same as same;

use rc_redraw::Ask;
use rc_rules::{Control, Frame};
use rc_view::{Sight, View};

/// Whether two asks are the same.
pub fn same_ask(first: &Ask, second: &Ask) -> bool
    ensures { result ≡ same.same_ask (ask_seen first.now) (ask_seen second.now) }
{
    first.rounds == second.rounds
        && first.key == second.key
        && first.seed == second.seed
        && same_view(&first.view, &second.view)
}

// Whether two views are.
fn same_view(first: &View, second: &View) -> bool
    ensures { result ≡ same.same_view (view_seen first.now) (view_seen second.now) }
{
    first.seat == second.seat
        && same_control(&first.control, &second.control)
        && first.numbers == second.numbers
        && same_sights(&first.sights, &second.sights)
}

// Whether two controls are.
fn same_control(first: &Control, second: &Control) -> bool
    ensures { result ≡ same.same_control (control_seen first.now) (control_seen second.now) }
{
    first.site == second.site
        && same_frames(first.frames.as_slice(), second.frames.as_slice())
        && first.turn == second.turn
        && first.made.as_slice() == second.made.as_slice()
}

// Whether the open stages are.
fn same_frames(first: &[Frame], second: &[Frame]) -> bool
    ensures { result ≡ pointwise same.same_frame (map frame_seen first.now) (map frame_seen second.now) }
{
    first == second
}

// Whether what is seen of all locations is the same.
fn same_sights(first: &[Sight], second: &[Sight]) -> bool
    ensures { result ≡ pointwise same.same_sight (map sight_seen first.now) (map sight_seen second.now) }
{
    if first.len() != second.len() {
        return false;
    }
    for at in 0..first.len() {
        if !same_sight(&first[at], &second[at]) {
            return false;
        }
    }
    true
}

// Whether what is seen of a location is.
fn same_sight(first: &Sight, second: &Sight) -> bool
    ensures { result ≡ same.same_sight (sight_seen first.now) (sight_seen second.now) }
{
    match (first, second) {
        (Sight::Faces(numbers), Sight::Faces(others)) => numbers == others,
        (Sight::Partly(numbers), Sight::Partly(others)) => numbers == others,
        _ => false,
    }
}

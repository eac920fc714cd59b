//! What an item binds: a mark for each of its variables.
ghost use Rattle.rc_play_spec.specs.Bounds.{mark_in, marks_in};
ghost use Rattle.rc_text.specs.Finds.{Finds};
ghost use Rattle.std.specs.Prelude.{◌≡◌};
ghost use Rattle.rc_rules.specs.Bounds.{bound_seen, bounds_seen};
ghost use Rattle.rc_text.specs.BoundSeen.{told_at};

use crate::fields::number;
use rc_rules::{Bound, Bounds};

/// The marks up to the end of a line, if there are at most four and nothing else.
pub fn bounds_in(bytes: &[u8]) -> Option<Bounds>
    ensures { Finds bounds_seen result (marks_in 4 bytes.now) }
{
    let mut bounds = Bounds::new();
    let mut rest = bytes;
    while !rest.is_empty() {
        if bounds.is_full() {
            return None;
        }
        let (bound, later) = bound_in(rest)?;
        bounds.push(bound);
        rest = later;
    }
    Some(bounds)
}

/// What the choices of a match are told to bind, by the match's place; nothing where that isn't told.
pub fn bounds_told(told: &[Vec<Bounds>], place: usize) -> &[Bounds]
    ensures { result.now ≡ told_at told.now place }
{
    match told.get(place) {
        Some(bounds) => bounds,
        None => &[],
    }
}

/// The mark that comes next, and the bytes behind it.
fn bound_in(bytes: &[u8]) -> Option<(Bound, &[u8])>
    ensures { Finds (λ x. (bound_seen x.0, x.1.now)) result (mark_in bytes.now) }
{
    if let Some((player, rest)) = number(b" p", 7, bytes) {
        return Some((Bound::Player(player as u8), rest));
    }
    if let Some((face, rest)) = number(b" c", 511, bytes) {
        return Some((Bound::Card(face as u16), rest));
    }
    let (face, rest) = number(b" g", 511, bytes)?;
    Some((Bound::Group(face as u16), rest))
}

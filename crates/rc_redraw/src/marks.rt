//! The marks of the cards that a view knows without seeing their locations.
ghost use Rattle.std.specs.Prelude.{◌≡◌, ◌<◌, ◌≤◌, length, map, replicate, All, OnOk};
ghost use Rattle.std.specs.List.{list_any};
ghost use Rattle.rc_play_spec.specs.Redraw.{mems_of, faces_at, peeked, seen_faces, marks_for};
ghost use Rattle.rc_table.specs.Marks.{seats_in};
ghost use Rattle.rc_redraw.specs.Hiding.{knows};
ghost use Rattle.rc_redraw.specs.Marked.{marked_by};
ghost use Rattle.rc_view.specs.Seen.{sight_seen};

use crate::seen::known_places;
use rc_deck::Memory;
use rc_table::Shape;
use rc_view::Sight;

// Marks cards for these seats.
fn mark(marks: &mut [u8], ids: &[u16], seats: u8)
    requires { All (λ id. id < length marks.old) ids.now }
    ensures { marks.new ≡ marked_by seats ids.now marks.old }
{
    for id in ids {
        marks[*id as usize] = seats;
    }
}

/// Lists the marks of a redrawn table: the cards at known places of locations that the seat doesn't see are marked for
/// it, and no others. Where `some` says so, there are such cards.
pub(crate) fn mark_known(
    shape: &Shape,
    sights: &[Sight],
    seen: &[u16],
    seat: u8,
    some: bool,
    marks: &mut Vec<u8>,
) -> Result<(), Memory>
    requires each { length sights.now ≡ length shape.now.places }
    requires seen { length (seen_faces (mems_of shape.now.places) (map sight_seen sights.now)) ≡ length seen.now }
    requires ids { All (λ id. id < length shape.now.faces) seen.now }
    requires seat { 0 < length (peeked (mems_of shape.now.places) (map sight_seen sights.now) seen.now) → seat < 8 }
    requires some { some ≡ list_any (λ sight. knows (sight_seen sight)) sights.now }
    ensures { OnOk result (map seats_in marks.new.items
        ≡ marks_for (length shape.now.faces) seat
        (peeked (mems_of shape.now.places) (map sight_seen sights.now) seen.now)) }
{
    marks.clear();
    marks.resize(shape.cards() as usize, 0)?;
    if some {
        mark_peeked(shape, sights, seen, seat, marks);
        Ok(())
    } else {
        Ok(())
    }
}

// Marks these cards. None is marked before.
fn mark_peeked(shape: &Shape, sights: &[Sight], seen: &[u16], seat: u8, marks: &mut Vec<u8>)
    requires each { length sights.now ≡ length shape.now.places }
    requires seen { length (seen_faces (mems_of shape.now.places) (map sight_seen sights.now)) ≡ length seen.now }
    requires ids { All (λ id. id < length shape.now.faces) seen.now }
    requires seat { 0 < length (peeked (mems_of shape.now.places) (map sight_seen sights.now) seen.now) → seat < 8 }
    requires none { marks.old.items ≡ replicate (length shape.now.faces) 0 }
    ensures { map seats_in marks.new.items
        ≡ marks_for (length shape.now.faces) seat
        (peeked (mems_of shape.now.places) (map sight_seen sights.now) seen.now) }
{
    let seats = if seat < 8 { 1 << seat } else { 0 };
    let mut from = 0;
    for loc in 0..shape.locations() {
        let mem = shape.holds_references(loc);
        let sight = &sights[loc as usize];
        let to = from + known_places(mem, sight);
        if let Sight::Partly(_numbers) = sight {
            mark(marks, &seen[from..to], seats);
        }
        from = to;
    }
}

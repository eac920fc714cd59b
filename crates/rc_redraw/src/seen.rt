//! The ids that known places take.
ghost use Rattle.std.specs.Prelude.{◌≡◌, ◌++◌, [], length, map, OnOk};
ghost use Rattle.std.specs.List.{list_any};
ghost use Rattle.rc_play_spec.specs.Redraw.{mems_of, faces_at, seen_faces, seen_ids};
ghost use Rattle.rc_play_spec.specs.Smallest.{AreEnough};
ghost use Rattle.rc_redraw.specs.Hiding.{knows};
ghost use Rattle.rc_redraw.specs.Taken.{Marks};
ghost use Rattle.rc_view.specs.Seen.{sight_seen};

use crate::places::{count_known, push_known};
use rc_deck::Memory;
use rc_play_spec::seen_places_take_the_smallest;
use rc_table::{Shape, face_number};
use rc_view::Sight;

/// The ids that are taken, in the order of their places, and for each card whether its id is one of them.
#[derive(Drop)]
pub(crate) struct Taken {
    pub(crate) ids: Vec<u16>,
    pub(crate) marks: Vec<bool>,
}

/// How many known places a location has. One for references has none.
pub(crate) fn known_places(mem: bool, sight: &Sight) -> usize
    ensures { result ≡ length (faces_at mem (sight_seen sight.now)) }
{
    match sight {
        Sight::Faces(numbers) if !mem => numbers.len(),
        Sight::Partly(numbers) if !mem => count_known(numbers),
        _ => 0,
    }
}

// Whether a place of a location that the seat doesn't see is known.
fn knows_some(sight: &Sight) -> bool
    ensures { result ≡ knows (sight_seen sight.now) }
{
    match sight {
        Sight::Faces(_numbers) => false,
        Sight::Partly(numbers) => count_known(numbers) > 0,
    }
}

/// Whether a place of some such location is known.
pub(crate) fn know_some(sights: &[Sight]) -> bool
    ensures { result ≡ list_any (λ sight. knows (sight_seen sight)) sights.now }
{
    for at in 0..sights.len() {
        if knows_some(&sights[at]) {
            return true;
        }
    }
    false
}

// Adds the faces at the known places of a location.
fn push_faces(mem: bool, sight: &Sight, faces: &mut Vec<u16>) -> Result<(), Memory>
    ensures { OnOk result (faces.new.items ≡ faces.old.items ++ faces_at mem (sight_seen sight.now)) }
{
    match sight {
        Sight::Faces(numbers) if !mem => {
            faces.extend_from_slice(numbers)?;
            Ok(())
        }
        Sight::Partly(numbers) if !mem => push_known(numbers, faces),
        _ => Ok(()),
    }
}

/// Lists the faces at the known places, in location order and from bottom to top.
pub(crate) fn list_faces(
    shape: &Shape,
    sights: &[Sight],
    faces: &mut Vec<u16>,
) -> Result<(), Memory>
    requires { length sights.now ≡ length shape.now.places }
    ensures { OnOk result (faces.new.items ≡ seen_faces (mems_of shape.now.places) (map sight_seen sights.now)) }
{
    faces.clear();
    // each card is seen at most once
    faces.reserve(shape.cards() as usize)?;
    for loc in 0..shape.locations() {
        let mem = shape.holds_references(loc);
        push_faces(mem, &sights[loc as usize], faces)?;
    }
    Ok(())
}

/// Lists what places with these faces take, one after another: each the smallest id of its face that no place before it
/// took. A flag for each card tells whether it is taken.
pub(crate) fn take_ids(
    shape: &Shape,
    faces: &[u16],
    ids: &mut Vec<u16>,
    marks: &mut Vec<bool>,
) -> Result<(), Memory>
    requires { AreEnough shape.now faces.now }
    ensures ids { OnOk result (ids.new.items ≡ seen_ids shape.now [] faces.now) }
    ensures marks { OnOk result (Marks shape.now ids.new.items marks.new.items) }
{
    seen_places_take_the_smallest();
    ids.clear();
    ids.reserve(shape.cards() as usize)?;
    marks.clear();
    marks.resize(shape.cards() as usize, false)?;
    for face in faces {
        // the first card of a face gives it its number
        let mut id = *face;
        while marks[id as usize] || face_number(shape, id) != *face {
            id += 1;
        }
        marks[id as usize] = true;
        ids.push(id)?;
    }
    Ok(())
}

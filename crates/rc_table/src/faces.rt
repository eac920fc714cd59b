//! Which cards have equal faces, and by which number a face is known.
ghost use Rattle.std.specs.Prelude.{◌≡◌, ◌<◌, ◌≤◌, length, IfOk};
ghost use Rattle.std.specs.List.{position_or_len};
ghost use Rattle.rc_base.specs.Limits.{most_cards};
ghost use Rattle.rc_play_spec.specs.Shape.{face_at, face_eq, face_number as face_number_of};
ghost use Rattle.rc_table.specs.Shape.{face_numbers_of};

use crate::shape::Shape;
use rc_deck::{Face, Memory};
use std::alloc::Global;

// Whether two faces have the same pairs in the same order.
fn are_equal(left: &[(u16, u16)], right: &[(u16, u16)]) -> bool
    ensures { result ≡ face_eq left.now right.now }
{
    left == right
}

// The place of the first of these faces that equals one, or how many there are.
fn first_like(faces: &[Face], face: &Face) -> usize
    ensures first { result ≡ position_or_len (face_eq face.now) faces.now }
    ensures within { result ≤ length faces.now }
{
    for (place, other) in faces.iter().enumerate() {
        if are_equal(face.pairs(), other.pairs()) {
            return place;
        }
    }
    faces.len()
}

/// The number of each of these faces: the place of the first one that equals it. It compares each face with those
/// before it.
pub(crate) fn face_numbers_of(alloc: Global, faces: &[Face]) -> Result<Vec<u16>, Memory>
    requires { length faces.now ≤ most_cards }
    ensures { IfOk result (λ numbers. numbers.items ≡ face_numbers_of faces.now) }
{
    let mut numbers = Vec::with_capacity(alloc, faces.len())?;
    for face in faces {
        numbers.push(first_like(faces, face) as u16)?;
    }
    Ok(numbers)
}

// The pairs of a card's face, or none where there is no such card.
fn pairs_of(shape: &Shape, id: u16) -> &[(u16, u16)]
    ensures { result.now ≡ face_at shape.now id }
{
    match shape.face(id) {
        Some(face) => face.pairs(),
        None => &[],
    }
}

/// Whether two cards have equal faces. A card that is not there has none.
pub fn have_same_face(shape: &Shape, left: u16, right: u16) -> bool
    ensures { result ≡ face_eq (face_at shape.now left) (face_at shape.now right) }
{
    left == right || are_equal(pairs_of(shape, left), pairs_of(shape, right))
}

/// The smallest id of a card with the same face.
pub fn face_number(shape: &Shape, id: u16) -> u16
    requires { id < length shape.now.faces }
    ensures number { result ≡ face_number_of shape.now id }
    ensures below { result ≤ id }
{
    shape.face_numbers()[id as usize]
}

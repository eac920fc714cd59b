//! What a seat sees of a location.
ghost use Rattle.std.specs.Prelude.{◌≡◌, ◌<◌, length, map, All, IfOk};
ghost use Rattle.rc_play_spec.specs.Shape.{face_number as face_number_of};
ghost use Rattle.rc_play_spec.specs.Sees.{sees as sees_faces};
ghost use Rattle.rc_play_spec.specs.Table.{list_at};
ghost use Rattle.rc_play_spec.specs.View.{known_face, sight_of as sight_of_list, sights_of as sights_of_lists};
ghost use Rattle.rc_view.specs.Seen.{sight_seen};

use rc_deck::Memory;
use rc_table::{Shape, Table, face_number, sees};
use std::alloc::Global;

/// The numbers of the faces of a location's cards from bottom to top where the seat sees it. Otherwise for each place
/// that of a card that is marked for the seat, and nothing where the card isn't.
#[derive(Debug)]
pub enum Sight {
    Faces(Vec<u16>),
    Partly(Vec<Option<u16>>),
}

// A derived drop is proved again in each crate that may drop a view, and this one once.
impl Drop for Sight {
    fn drop(self) {
        match self {
            Sight::Faces(_a) => {}
            Sight::Partly(_b) => {}
        }
    }
}

impl Sight {
    /// The same sight once more.
    pub fn copy(&self, alloc: Global) -> Result<Sight, Memory>
        ensures { IfOk result (λ copy. sight_seen copy ≡ sight_seen self.now) }
    {
        match self {
            Sight::Faces(numbers) => {
                let numbers = Vec::from_slice(alloc, numbers)?;
                Ok(Sight::Faces(numbers))
            }
            Sight::Partly(numbers) => {
                let numbers = Vec::from_slice(alloc, numbers)?;
                Ok(Sight::Partly(numbers))
            }
        }
    }
}

/// What a seat sees of each location, in their order.
pub(crate) fn sights_of(
    alloc: Global,
    shape: &Shape,
    table: &Table,
    seat: u8,
) -> Result<Vec<Sight>, Memory>
    requires laid { table.now.shape ≡ shape.now }
    requires seat { seat < 8 }
    ensures { IfOk result (λ sights. map sight_seen sights.items
        ≡ sights_of_lists shape.now table.now.table.marks seat shape.now.places table.now.table.lists) }
{
    // what a table keeps
    let _shape = table.shape();
    let count = shape.locations();
    let mut sights = Vec::with_capacity(alloc, count as usize)?;
    for loc in 0..count {
        sights.push(sight_of(alloc, shape, table, seat, loc)?)?;
    }
    Ok(sights)
}

// What a seat sees of a location.
fn sight_of(
    alloc: Global,
    shape: &Shape,
    table: &Table,
    seat: u8,
    loc: u16,
) -> Result<Sight, Memory>
    requires laid { table.now.shape ≡ shape.now }
    requires seat { seat < 8 }
    ensures { IfOk result (λ sight. sight_seen sight
        ≡ sight_of_list shape.now table.now.table.marks seat (sees_faces shape.now seat loc)
        (list_at table.now.table loc)) }
{
    // what a table keeps
    let _shape = table.shape();
    let ids = table.list(loc);
    if !sees(shape, seat, loc) {
        let numbers = known_numbers(alloc, shape, table, seat, ids)?;
        return Ok(Sight::Partly(numbers));
    }
    let numbers = face_numbers(alloc, shape, ids)?;
    Ok(Sight::Faces(numbers))
}

// The numbers of the faces of these cards.
fn face_numbers(alloc: Global, shape: &Shape, ids: &[u16]) -> Result<Vec<u16>, Memory>
    requires { All (λ id. id < length shape.now.faces) ids.now }
    ensures { IfOk result (λ numbers. numbers.items ≡ map (face_number_of shape.now) ids.now) }
{
    let mut numbers = Vec::with_capacity(alloc, ids.len())?;
    for id in ids {
        numbers.push(face_number(shape, *id))?;
    }
    Ok(numbers)
}

// The numbers of the faces of those of these cards that are marked for the seat.
fn known_numbers(
    alloc: Global,
    shape: &Shape,
    table: &Table,
    seat: u8,
    ids: &[u16],
) -> Result<Vec<Option<u16>>, Memory>
    requires laid { table.now.shape ≡ shape.now }
    requires seat { seat < 8 }
    requires ids { All (λ id. id < length shape.now.faces) ids.now }
    ensures { IfOk result (λ numbers. numbers.items ≡ map (known_face shape.now table.now.table.marks seat) ids.now) }
{
    let mut numbers = Vec::with_capacity(alloc, ids.len())?;
    for id in ids {
        numbers.push(known_number(shape, table, seat, *id))?;
    }
    Ok(numbers)
}

// The number of a card's face where the card is marked for the seat.
fn known_number(shape: &Shape, table: &Table, seat: u8, id: u16) -> Option<u16>
    requires laid { table.now.shape ≡ shape.now }
    requires seat { seat < 8 }
    requires card { id < length shape.now.faces }
    ensures { result ≡ known_face shape.now table.now.table.marks seat id }
{
    if table.is_marked(id, seat) {
        Some(face_number(shape, id))
    } else {
        None
    }
}

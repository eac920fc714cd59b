//! Where each card stands.
ghost use Rattle.std.specs.Prelude.{◌≡◌, ◌<◌, ◌≤◌, [], ◌∷◌, length, drop, slice_index_or, All, IfOk};
ghost use Rattle.rc_base.specs.Limits.{most_in_list};
ghost use Rattle.rc_play_spec.specs.Bound.{HoldsCards};
ghost use Rattle.rc_table.specs.Shape.{IsShape};
ghost use Rattle.rc_table.specs.Whereabouts.{AreSound, laid_out, whereabouts, noted, noted_in};

use crate::rows::Rows;
use crate::shape::Shape;
use rc_deck::Memory;
use std::alloc::Global;

// Notes where the ids of a list stand in a location, from a place on.
fn note(stand: &mut [(u16, u16)], loc: u16, list: &[u16], from: usize)
    requires ids { All (λ id. id < length stand.old) list.now }
    requires few { length list.now ≤ most_in_list }
    ensures { stand.new ≡ noted loc from (drop from list.now) stand.old }
{
    for at in from..list.len() {
        stand[list[at] as usize] = (loc, at as u16);
    }
}

/// Notes where the cards that a location holds from a place on stand; of references nothing is noted.
pub(crate) fn note_cards(
    stand: &mut [(u16, u16)],
    shape: &Shape,
    lists: &Rows,
    loc: u16,
    from: usize,
)
    requires ids { All (λ id. id < length stand.old) (slice_index_or lists.now.all loc []) }
    requires few { length (slice_index_or lists.now.all loc []) ≤ most_in_list }
    ensures { stand.new ≡ noted_in shape.now lists.now.all loc from stand.old }
{
    if !shape.holds_references(loc) {
        note(stand, loc, lists.list(loc), from);
    }
}

/// The same for two locations, one after the other.
pub(crate) fn note_move(
    stand: &mut [(u16, u16)],
    shape: &Shape,
    lists: &Rows,
    from: u16,
    at: usize,
    to: u16,
    place: usize,
)
    requires ids { All (λ id. id < length stand.old) (slice_index_or lists.now.all from []) }
    requires few { length (slice_index_or lists.now.all from []) ≤ most_in_list }
    requires other_ids { All (λ id. id < length stand.old) (slice_index_or lists.now.all to []) }
    requires other_few { length (slice_index_or lists.now.all to []) ≤ most_in_list }
    ensures { stand.new ≡ noted_in shape.now lists.now.all to place
        (noted_in shape.now lists.now.all from at stand.old) }
{
    note_cards(stand, shape, lists, from, at);
    note_cards(stand, shape, lists, to, place);
}

/// The same for one location, where most often nothing is left to note.
#[inline(always)]
fn note_left(stand: &mut [(u16, u16)], shape: &Shape, lists: &Rows, loc: u16, from: usize)
    requires ids { All (λ id. id < length stand.old) (slice_index_or lists.now.all loc []) }
    requires few { length (slice_index_or lists.now.all loc []) ≤ most_in_list }
    ensures { stand.new ≡ noted_in shape.now lists.now.all loc from stand.old }
{
    if from < lists.list(loc).len() {
        note_cards(stand, shape, lists, loc, from);
    }
}

/// The same for two locations, of which the other one holds cards, this id as the last one. Most often nothing is left
/// to note in the first one.
#[inline(always)]
pub(crate) fn note_top(
    stand: &mut [(u16, u16)],
    shape: &Shape,
    lists: &Rows,
    from: u16,
    at: usize,
    to: u16,
    place: usize,
    id: u16,
)
    requires ids { All (λ id. id < length stand.old) (slice_index_or lists.now.all from []) }
    requires few { length (slice_index_or lists.now.all from []) ≤ most_in_list }
    requires id { id < length stand.old }
    requires cards { HoldsCards shape.now to }
    requires place { place < most_in_list }
    requires last { drop place (slice_index_or lists.now.all to []) ≡ id ∷ [] }
    ensures { stand.new ≡ noted_in shape.now lists.now.all to place
        (noted_in shape.now lists.now.all from at stand.old) }
{
    note_left(stand, shape, lists, from, at);
    stand[id as usize] = (to, place as u16);
}

/// Notes where each card stands, of lists of a sound table.
pub(crate) fn note_all(stand: &mut [(u16, u16)], shape: &Shape, lists: &Rows)
    requires limits { IsShape shape.now }
    requires sound { AreSound shape.now lists.now.all }
    requires each { length stand.old ≡ length shape.now.faces }
    ensures { stand.new ≡ whereabouts shape.now (laid_out lists.now.all) }
{
    for loc in 0..shape.locations() {
        note_cards(stand, shape, lists, loc, 0);
    }
}

/// Where each card stands when a match begins.
pub(crate) fn at_home(alloc: Global, shape: &Shape, lists: &Rows) -> Result<Vec<(u16, u16)>, Memory>
    requires limits { IsShape shape.now }
    requires sound { AreSound shape.now lists.now.all }
    ensures { IfOk result (λ stand. stand.items ≡ whereabouts shape.now (laid_out lists.now.all)) }
{
    let mut stand = vec![in alloc; (0, 0); shape.cards() as usize]?;
    note_all(&mut stand, shape, lists);
    Ok(stand)
}

//! Where a card is, and how many references there are.
ghost use Rattle.std.specs.Prelude.{◌≡◌, ◌<◌, nat_lt, if◌then◌else◌, length, slice_get, reverse, remove, Some, MatchOption};
ghost use Rattle.rc_base.specs.Limits.{most_in_mem, most_references};
ghost use Rattle.rc_play_spec.specs.Shape.{holds_references};
ghost use Rattle.rc_play_spec.specs.Table.{list_at, marks_of, is_marked, place_of, references, has_room, without_face, forget_in};
ghost use Rattle.rc_table.specs.Marks.{seats_in};
ghost use Rattle.rc_table.specs.Restored.{taken_at};

use crate::faces::have_same_face;
use crate::shape::Shape;
use crate::table::Table;
use rc_base::limits::{MOST_IN_MEM, MOST_REFERENCES};

// The last place in a list of a card with this card's face.
fn topmost(shape: &Shape, list: &[u16], id: u16) -> Option<usize>
    ensures { MatchOption result
        (reverse (without_face shape.now id (reverse list.now)) ≡ list.now)
        (λ place. (place < length list.now)
        × (reverse (without_face shape.now id (reverse list.now)) ≡ remove list.now place)) }
{
    for place in (0..list.len()).rev() {
        if have_same_face(shape, list[place], id) {
            return Some(place);
        }
    }
    None
}

impl Table {
    /// The location that holds a card, and the card's place there.
    pub fn place_of(&self, id: u16) -> (u16, u16)
        requires { id < length self.now.shape.faces }
        ensures place { result ≡ place_of self.now.shape self.now.table id }
        ensures there { result.1 < length (list_at self.now.table result.0) }
        ensures stands { slice_get (list_at self.now.table result.0) result.1 ≡ Some id }
    {
        self.whereabouts[id as usize]
    }

    /// A card's marks, bit s for seat s.
    pub fn marks(&self, id: u16) -> u8
        requires { id < length self.now.shape.faces }
        ensures { seats_in result ≡ marks_of self.now.table.marks id }
    {
        self.marks.of(id)
    }

    /// Whether a card is marked for a seat.
    pub fn is_marked(&self, id: u16, seat: u8) -> bool
        requires card { id < length self.now.shape.faces }
        requires seat { seat < 8 }
        ensures { result ≡ is_marked self.now.table.marks seat id }
    {
        self.marks.has(id, seat)
    }

    // How many references a location holds.
    fn references_in(&self, loc: u16) -> usize
        ensures { result ≡ (if holds_references (slice_get self.now.shape.places loc) then length
            (list_at self.now.table loc) else 0) }
    {
        if self.shape().holds_references(loc) {
            self.list(loc).len()
        } else {
            0
        }
    }

    // How many references all locations hold together.
    fn references(&self) -> usize
        ensures { result ≡ references self.now.shape self.now.table }
    {
        let mut sum = 0;
        for loc in 0..self.shape().locations() {
            sum += self.references_in(loc);
        }
        sum
    }

    /// Whether there is room for one more reference in a location.
    pub fn has_room(&self, loc: u16) -> bool
        ensures { result ≡ has_room self.now.shape loc self.now.table }
    {
        self.list(loc).len() < MOST_IN_MEM && self.has_room_among_all(loc)
    }

    // Whether all locations together have room, where this one has. They need not be counted where two at most hold
    // references.
    fn has_room_among_all(&self, loc: u16) -> bool
        requires room { length (list_at self.now.table loc) < most_in_mem }
        ensures { result ≡ nat_lt (references self.now.shape self.now.table) most_references }
    {
        if self.shape().is_of_two(loc) {
            return true;
        }
        self.references() < MOST_REFERENCES
    }

    /// The place of the topmost reference with a card's face in a location, which `forget` takes out, if there is one.
    pub fn topmost_like(&self, id: u16, loc: u16) -> Option<u16>
        ensures { MatchOption result
            (forget_in self.now.shape id loc self.now.table ≡ self.now.table)
            (λ place. (place < length (list_at self.now.table loc))
            × (forget_in self.now.shape id loc self.now.table ≡ taken_at loc place self.now.table)) }
    {
        match topmost(self.shape(), self.list(loc), id) {
            Some(place) => Some(place as u16),
            None => None,
        }
    }
}

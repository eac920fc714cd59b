//! What changes a table. None of it takes memory.
ghost use Rattle.std.specs.Prelude.{◌≡◌, ◌<◌, ◌≤◌, true, length, take, false, All};
ghost use Rattle.std.specs.List.Sorted.{IsPermutation};
ghost use Rattle.rc_base.specs.Clamp.{IsWithinClamp};
ghost use Rattle.rc_base.specs.Numbers.{below};
ghost use Rattle.rc_play_spec.specs.Bound.{HoldsCards, HoldsReferences};
ghost use Rattle.rc_play_spec.specs.Table.{list_at, put_top, put_bottom, remember_top, remember_bottom, has_room, forget_in, place_of, loc_of, set_marks, set_number, taken, reorder};
ghost use Rattle.rc_play_spec.specs.Sees.{sees};
ghost use Rattle.rc_table.specs.Marks.{seats_in};
ghost use Rattle.rc_table.specs.Laid.{relaid};

use crate::table::Table;
use crate::whereabouts::note_top;
use rc_base::limits::MOST_IN_LIST;
use rc_play_spec::edits_keep_tables_sound;

impl Table {
    /// Takes a card out of its place and puts it on top of a location of cards. It loses its marks.
    pub fn put_top(&mut self, id: u16, loc: u16)
        requires card { id < length self.old.shape.faces }
        requires loc { HoldsCards self.old.shape loc }
        ensures { self.new ≡ relaid self.old (put_top self.old.shape id loc self.old.table) }
    {
        let (from, place) = self.place_of(id);
        self.put_top_from(id, from, place, loc);
    }

    /// The same where the card's place is known.
    #[inline(always)]
    pub fn put_top_from(&mut self, id: u16, from: u16, place: u16, loc: u16)
        requires card { id < length self.old.shape.faces }
        requires loc { HoldsCards self.old.shape loc }
        requires place { (from, place) ≡ place_of self.old.shape self.old.table id }
        ensures { self.new ≡ relaid self.old (put_top self.old.shape id loc self.old.table) }
    {
        edits_keep_tables_sound();
        // what is known of a sound table
        let _shape = self.shape();
        self.lists.take_out(from, place as usize);
        let top = self.lists.put_on(loc, id);
        note_top(
            &mut self.whereabouts,
            &self.shape,
            &self.lists,
            from,
            place as usize,
            loc,
            top,
            id,
        );
        self.marks.clear(id);
    }

    /// Takes a card out of its place and puts it at the bottom of a location of cards. It loses its marks.
    pub fn put_bottom(&mut self, id: u16, loc: u16)
        requires card { id < length self.old.shape.faces }
        requires loc { HoldsCards self.old.shape loc }
        ensures { self.new ≡ relaid self.old (put_bottom self.old.shape id loc self.old.table) }
    {
        edits_keep_tables_sound();
        // what is known of a sound table
        let _shape = self.shape();
        let (from, place) = self.place_of(id);
        self.marks.clear(id);
        self.move_between(from, place, loc, 0);
    }

    /// Puts a reference on top of a `mem`; nothing changes where that `mem` holds 512, or all of them 1,024.
    pub fn remember_top(&mut self, id: u16, loc: u16)
        requires card { id < length self.old.shape.faces }
        requires loc { HoldsReferences self.old.shape loc }
        ensures { self.new ≡ relaid self.old (remember_top self.old.shape id loc self.old.table) }
    {
        edits_keep_tables_sound();
        // what is known of a sound table
        let _shape = self.shape();
        if self.has_room(loc) {
            self.note_top(id, loc);
        }
    }

    /// The same where it is known that there is room.
    pub fn note_top(&mut self, id: u16, loc: u16)
        requires card { id < length self.old.shape.faces }
        requires loc { HoldsReferences self.old.shape loc }
        requires room { has_room self.old.shape loc self.old.table ≡ true }
        ensures { self.new ≡ relaid self.old (remember_top self.old.shape id loc self.old.table) }
    {
        edits_keep_tables_sound();
        // what is known of a sound table
        let _shape = self.shape();
        let top = self.list(loc).len() as u16;
        self.put_reference(id, loc, top);
    }

    /// Puts a reference at the bottom of a `mem`; nothing changes where that `mem` holds 512, or all of them 1,024.
    pub fn remember_bottom(&mut self, id: u16, loc: u16)
        requires card { id < length self.old.shape.faces }
        requires loc { HoldsReferences self.old.shape loc }
        ensures { self.new ≡ relaid self.old (remember_bottom self.old.shape id loc self.old.table) }
    {
        edits_keep_tables_sound();
        // what is known of a sound table
        let _shape = self.shape();
        if self.has_room(loc) {
            self.note_bottom(id, loc);
        }
    }

    /// The same where it is known that there is room.
    pub fn note_bottom(&mut self, id: u16, loc: u16)
        requires card { id < length self.old.shape.faces }
        requires loc { HoldsReferences self.old.shape loc }
        requires room { has_room self.old.shape loc self.old.table ≡ true }
        ensures { self.new ≡ relaid self.old (remember_bottom self.old.shape id loc self.old.table) }
    {
        edits_keep_tables_sound();
        // what is known of a sound table
        let _shape = self.shape();
        self.put_reference(id, loc, 0);
    }

    /// Takes the topmost reference with the card's face out of a `mem`, if there is one.
    pub fn forget(&mut self, id: u16, loc: u16)
        requires card { id < length self.old.shape.faces }
        requires loc { HoldsReferences self.old.shape loc }
        ensures { self.new ≡ relaid self.old (forget_in self.old.shape id loc self.old.table) }
    {
        edits_keep_tables_sound();
        // what is known of a sound table
        let _shape = self.shape();
        if let Some(place) = self.topmost_like(id, loc) {
            self.take_reference(loc, place);
        }
    }

    /// Marks a card for these seats, bit s for seat s, and for no other.
    pub fn set_marks(&mut self, id: u16, seats: u8)
        requires card { id < length self.old.shape.faces }
        requires players { All (λ seat. seat < self.old.shape.players) (seats_in seats) }
        requires unseen { All (λ seat. sees self.old.shape seat (loc_of self.old.shape self.old.table id) ≡ false)
            (seats_in seats) }
        ensures { self.new ≡ relaid self.old (set_marks id (seats_in seats) self.old.table) }
    {
        edits_keep_tables_sound();
        self.marks.set(id, seats);
    }

    /// Sets a number. Nothing changes where there is no such number.
    pub fn set_number(&mut self, num: u16, value: i64)
        requires clamped { IsWithinClamp value }
        ensures { self.new ≡ relaid self.old (set_number num value self.old.table) }
    {
        edits_keep_tables_sound();
        if let Some(number) = self.numbers.get_mut(num as usize) {
            *number = value;
        }
    }

    /// Puts the list of a location, of whatever kind, into another order. None of its cards is marked then.
    pub fn reorder(&mut self, loc: u16, order: &[u16])
        requires loc { loc < length self.old.shape.places }
        requires order { IsPermutation (below (length (list_at self.old.table loc))) order.now }
        ensures { self.new ≡ relaid self.old (reorder loc order.now self.old.table) }
    {
        edits_keep_tables_sound();
        // what is known of a sound table
        let _shape = self.shape();
        let mut list = [0; MOST_IN_LIST];
        let count = put_in_order(self.list(loc), order, &mut list);
        self.marks.clear_all(self.lists.list(loc));
        self.relist(loc, &list[..count]);
    }
}

// Writes a list in another order, and tells its length.
fn put_in_order(list: &[u16], order: &[u16], room: &mut [u16]) -> usize
    requires fits { length list.now ≤ length room.old }
    requires order { IsPermutation (below (length list.now)) order.now }
    ensures count { result ≡ length list.now }
    ensures cards { take result room.new ≡ taken order.now list.now }
{
    for (at, place) in order.iter().enumerate() {
        room[at] = list[*place as usize];
    }
    order.len()
}

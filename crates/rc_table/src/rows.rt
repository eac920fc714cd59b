//! A list of ids for each location.
ghost use Rattle.std.specs.Prelude.{◌≡◌, ℕ, ◌<◌, ◌≤◌, ◌-◌, [], ◌∷◌, ◌++◌, length, map, take, replicate, slice_index_or, slice_set, IfOk};
ghost use Rattle.std.specs.List.{remove, insert};
ghost use Rattle.rc_base.specs.Limits.{most_locations};
ghost use Rattle.rc_table.specs.Rows.{HaveRoom};
ghost use Rattle.rc_table.specs.Laid.{rooms};
ghost use Rattle.rc_table.specs.Refilled.{CanRefill, lists_refilled};

use crate::shape::Shape;
use rc_deck::Memory;
use std::alloc::Global;
use std::marker::Model;

/// Where the ids of a list lie among those of all lists.
#[derive(Clone, Copy)]
pub(crate) struct Row {
    from: u32,
    // how many ids the list has
    count: u16,
    // how many it may have
    room: u16,
}

/// Copying a list by itself takes about as long as copying this many ids together with others.
const ROOM_COPIED_AT_ONCE: usize = 128;

/// Lists of ids, each in a row of its own, so that an edit of one moves no other. All rows lie in one memory, one
/// behind the other, so that all of them can be copied at once. Edits keep within the room that each row was given when
/// the rows were made.
#[derive(Drop)]
pub(crate) struct Rows {
    ids: Vec<u16>,
    rows: Vec<Row>,
}

impl Model for Rows {
    ghost use Rattle.std.specs.Prelude.{map, length};
    ghost use Rattle.rc_table.specs.Rows.{Lists};
    ghost use Rattle.rc_table.specs.RowsSeen.{list_in, room_of, AreRows};

    ghost Value = { Lists };

    ghost view = { λ r. record { all = map (list_in r.ids.items) r.rows.items; room = map room_of r.rows.items } };

    ghost invariant = { λ r. AreRows r.rows.items 0 (length r.ids.items) };
}

// Puts an id into a row, and moves those behind it up. What the last place held is lost.
#[inline(always)]
fn insert_at(row: &mut [u16], place: usize, id: u16)
    requires { place < length row.old }
    ensures long { length row.new ≡ length row.old }
    ensures row { row.new ≡ insert (take (length row.old - 1) row.old) place id }
{
    let last = row.len() - 1;
    if place < last {
        row.copy_within(place..last, place + 1);
    }
    row[place] = id;
}

impl Rows {
    /// An empty list for each location of a shape, with room for all that it may hold.
    pub(crate) fn new(alloc: Global, shape: &Shape) -> Result<Rows, Memory>
        ensures { IfOk result (λ rows. rows
            ≡ record { all = replicate (length shape.now.places) []; room = rooms shape.now }) }
    {
        let mut rows = Vec::with_capacity(alloc, shape.locations() as usize)?;
        let mut end = 0;
        for loc in 0..shape.locations() {
            let room = shape.room_of(loc);
            rows.push(Row {
                from: end,
                count: 0,
                room,
            })?;
            end += room as u32;
        }
        let ids = vec![in alloc; 0; end as usize]?;
        Ok(Rows { ids, rows })
    }

    /// The same lists once more, with as much room.
    pub(crate) fn copy(&self, alloc: Global) -> Result<Rows, Memory>
        ensures { IfOk result (λ copy. copy ≡ self.now) }
    {
        Ok(Rows {
            ids: Vec::from_slice(alloc, &self.ids)?,
            rows: Vec::from_slice(alloc, &self.rows)?,
        })
    }

    /// A list, or an empty one where there is no such list.
    #[inline(always)]
    pub(crate) fn list(&self, at: u16) -> &[u16]
        ensures { result.now ≡ slice_index_or self.now.all at [] }
    {
        match self.rows.get(at as usize) {
            Some(row) => {
                let from = row.from as usize;
                &self.ids[from..from + row.count as usize]
            }
            None => &[],
        }
    }

    /// Takes an id out of a list, and moves those behind it down. What the last place held then no longer counts.
    #[inline(always)]
    pub(crate) fn take_out(&mut self, at: u16, place: usize)
        requires list { at < length self.old.all }
        requires place { place < length (slice_index_or self.old.all at []) }
        ensures { self.new ≡ record {
          all = slice_set self.old.all at (remove (slice_index_or self.old.all at []) place);
          room = self.old.room;
        } }
    {
        let row = &mut self.rows[at as usize];
        let from = row.from as usize;
        let to = from + row.count as usize;
        row.count -= 1;
        let ids = &mut self.ids[from..to];
        if place + 1 < ids.len() {
            ids.copy_within(place + 1.., place);
        }
    }

    /// Puts an id into a list.
    #[inline(always)]
    pub(crate) fn put_in(&mut self, at: u16, place: usize, id: u16)
        requires list { at < length self.old.all }
        requires place { place ≤ length (slice_index_or self.old.all at []) }
        requires room { length (slice_index_or self.old.all at []) < slice_index_or self.old.room at 0 }
        ensures { self.new ≡ record {
          all = slice_set self.old.all at (insert (slice_index_or self.old.all at []) place id);
          room = self.old.room;
        } }
    {
        let row = &mut self.rows[at as usize];
        row.count += 1;
        let from = row.from as usize;
        let to = from + row.count as usize;
        insert_at(&mut self.ids[from..to], place, id);
    }

    /// Puts an id on top of a list, and tells its place.
    #[inline(always)]
    pub(crate) fn put_on(&mut self, at: u16, id: u16) -> usize
        requires list { at < length self.old.all }
        requires room { length (slice_index_or self.old.all at []) < slice_index_or self.old.room at 0 }
        ensures place { result ≡ length (slice_index_or self.old.all at []) }
        ensures lists { self.new ≡ record {
          all = slice_set self.old.all at (slice_index_or self.old.all at [] ++ id ∷ []);
          room = self.old.room;
        } }
    {
        let row = &mut self.rows[at as usize];
        let place = row.count as usize;
        row.count += 1;
        self.ids[row.from as usize + place] = id;
        place
    }

    /// Writes another list of the same length.
    pub(crate) fn rewrite(&mut self, at: u16, list: &[u16])
        requires list { at < length self.old.all }
        requires length { length list.now ≡ length (slice_index_or self.old.all at []) }
        ensures { self.new ≡ record { all = slice_set self.old.all at list.now; room = self.old.room } }
    {
        let from = self.rows[at as usize].from as usize;
        self.ids[from..from + list.len()].copy_from_slice(list);
    }

    /// Writes another list over one, of whatever length within the room.
    pub(crate) fn overwrite(&mut self, at: usize, list: &[u16])
        requires list { at < length self.old.all }
        requires room { length list.now ≤ slice_index_or self.old.room at 0 }
        ensures { self.new ≡ record { all = slice_set self.old.all at list.now; room = self.old.room } }
    {
        let row = &mut self.rows[at];
        row.count = list.len() as u16;
        let from = row.from as usize;
        self.ids[from..from + list.len()].copy_from_slice(list);
    }

    /// Writes other lists over all of these.
    pub(crate) fn lay(&mut self, lists: &[Vec<u16>])
        requires each { length lists.now ≡ length self.old.all }
        requires room { HaveRoom (map (λ list. list.items) lists.now) self.old.room }
        ensures { self.new ≡ record { all = map (λ list. list.items) lists.now; room = self.old.room } }
    {
        for at in 0..lists.len() {
            self.overwrite(at, &lists[at]);
        }
    }

    /// Writes the lists of other rows over all of these, each with as much room. Where there is much room for a list,
    /// most of it is likely free, and what is free isn't copied.
    pub(crate) fn copy_from(&mut self, other: &Rows)
        requires room { other.now.room ≡ self.old.room }
        requires few { length other.now.all ≤ most_locations }
        ensures { self.new ≡ other.now }
    {
        if self.ids.len() / ROOM_COPIED_AT_ONCE <= self.rows.len() {
            self.copy_room(other);
        } else {
            self.copy_lists(other);
        }
    }

    // The same with all room.
    #[inline(always)]
    fn copy_room(&mut self, other: &Rows)
        requires { other.now.room ≡ self.old.room }
        ensures { self.new ≡ other.now }
    {
        self.ids.copy_from_slice(&other.ids);
        self.rows.copy_from_slice(&other.rows);
    }

    // The same, list by list.
    #[inline(never)]
    fn copy_lists(&mut self, other: &Rows)
        requires room { other.now.room ≡ self.old.room }
        requires few { length other.now.all ≤ most_locations }
        ensures { self.new ≡ other.now }
    {
        self.copy_counts(other);
        for at in 0..other.rows.len() {
            self.copy_list(other, at as u16);
        }
    }

    // Makes each list as long as that of other rows. Which ids it then has isn't said.
    #[inline(always)]
    fn copy_counts(&mut self, other: &Rows)
        requires { other.now.room ≡ self.old.room }
        ensures room { self.new.room ≡ self.old.room }
        ensures each { length self.new.all ≡ length other.now.all }
        ensures lengths { (at : ℕ) → length (slice_index_or self.new.all at [])
            ≡ length (slice_index_or other.now.all at []) }
    {
        self.rows.copy_from_slice(&other.rows);
    }

    // Writes the list of other rows over one that is as long.
    #[inline(always)]
    fn copy_list(&mut self, other: &Rows, at: u16)
        requires list { at < length self.old.all }
        requires length { length (slice_index_or self.old.all at []) ≡ length (slice_index_or other.now.all at []) }
        ensures { self.new ≡ record {
          all = slice_set self.old.all at
              (slice_index_or other.now.all at []);
          room = self.old.room;
        } }
    {
        let list = other.list(at);
        if list.is_empty() {
            return;
        }
        self.rewrite(at, list);
    }

    /// Writes ids over these lists, one list after another, each with as many of them as it has.
    pub(crate) fn refill(&mut self, lists: &[u16], ids: &[u16])
        requires { CanRefill lists.now ids.now self.old.all }
        ensures { self.new ≡ record { all = lists_refilled lists.now ids.now self.old.all; room = self.old.room } }
    {
        let mut from = 0;
        for at in lists {
            let to = from + self.list(*at).len();
            self.rewrite(*at, &ids[from..to]);
            from = to;
        }
    }
}

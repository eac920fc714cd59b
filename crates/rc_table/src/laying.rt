//! Tables that are laid whole. None of it takes memory.
ghost use Rattle.std.specs.Prelude.{◌≡◌, length, map};
ghost use Rattle.rc_play_spec.specs.Table.{IsSound};
ghost use Rattle.rc_table.specs.Laid.{relaid};
ghost use Rattle.rc_table.specs.Marks.{seats_in};
ghost use Rattle.rc_table.specs.Refilled.{CanRefill, refilled, DifferAtMostIn};

use crate::table::Table;
use crate::whereabouts::note_all;

impl Table {
    /// Becomes the same as another table of the same shape.
    pub fn copy_from(&mut self, other: &Table)
        requires { self.old.shape ≡ other.now.shape }
        ensures { self.new ≡ other.now }
    {
        self.lists.copy_from(&other.lists);
        self.whereabouts.copy_from_slice(&other.whereabouts);
        self.numbers.copy_from_slice(&other.numbers);
        self.marks.copy_from(&other.marks);
    }

    /// Becomes the table of these lists, numbers and marks, in the same shape. That table must be sound.
    pub fn lay(&mut self, lists: &[Vec<u16>], numbers: &[i64], marks: &[u8])
        requires { IsSound self.old.shape
            (record {
              lists = map
                  (λ list. list.items) lists.now;
              numbers = numbers.now;
              marks = map seats_in marks.now;
            }) }
        ensures { self.new ≡ relaid self.old
            (record {
              lists = map
                  (λ list. list.items) lists.now;
              numbers = numbers.now;
              marks = map seats_in marks.now;
            }) }
    {
        self.lists.lay(lists);
        note_all(&mut self.whereabouts, &self.shape, &self.lists);
        self.numbers.copy_from_slice(numbers);
        self.marks.lay(marks);
    }

    /// Writes ids over what these locations hold, one location after another, each with as many of them as it has. The
    /// ids are enough for all of the locations, and the table must then be sound.
    pub fn refill(&mut self, locs: &[u16], ids: &[u16])
        requires enough { CanRefill locs.now ids.now self.old.table.lists }
        requires sound { IsSound self.old.shape (refilled locs.now ids.now self.old.table) }
        ensures refilled { self.new ≡ relaid self.old (refilled locs.now ids.now self.old.table) }
        ensures others { DifferAtMostIn locs.now self.new.table self.old.table }
    {
        self.lists.refill(locs, ids);
        note_all(&mut self.whereabouts, &self.shape, &self.lists);
    }
}

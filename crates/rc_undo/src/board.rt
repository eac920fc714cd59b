//! A table whose edits can be taken back, or which goes home.
ghost use Rattle.std.specs.Prelude.{◌≡◌, ℕ, ◌<◌, ◌≤◌, true, false, List, [], ◌∷◌, length, slice_index, replicate, fold, All, None, IsSome, IfOk, OnOk, OnErr, IsOk};
ghost use Rattle.std.specs.List.Sorted.{IsPermutation};
ghost use Rattle.rc_base.specs.Numbers.{below};
ghost use Rattle.rc_base.specs.Clamp.{IsWithinClamp};
ghost use Rattle.rc_play_spec.specs.Bound.{HoldsCards, HoldsReferences};
ghost use Rattle.rc_play_spec.specs.Table.{Table as PureTable, list_at, place_of, without, put_top, put_bottom, remember_top, remember_bottom, forget_in, set_number, set_marks, loc_of, marks_of, reorder};
ghost use Rattle.rc_play_spec.specs.Sees.{sees};
ghost use Rattle.rc_table.specs.Marks.{seats_in};
ghost use Rattle.rc_table.specs.Laid.{relaid};
ghost use Rattle.rc_base.specs.Limits.{most_in_list};
ghost use Rattle.rc_table.specs.Restored.{taken_at};
ghost use Rattle.rc_table.specs.Runs.{put_each, AreFresh};
ghost use Rattle.rc_undo.specs.Sides.{end_of};
ghost use Rattle.rc_undo.specs.Entry.{entry_seen};
ghost use Rattle.rc_undo.specs.Undo.{changed, away_at, edited, gone_home, home_at, Keeps, GoesBack};

use crate::entry::{LogEntry, take_back};
use crate::noting::{Side, put_noted, put_on_table};
use crate::past::Past;
use rc_deck::Memory;
use rc_play_spec::edits_keep_tables_sound;
use rc_table::Table;
use std::alloc::Global;
use std::marker::Model;

/// A table, with what is kept of those before it: nothing, what takes each edit back, or the table to which it goes
/// home.
pub struct Board {
    alloc: Global,
    table: Table,
    past: Past,
}

// A derived drop is proved again in each crate that may drop a board, and this one once.
impl Drop for Board {
    fn drop(self) {
        let Board {
            alloc: _alloc,
            table: _table,
            past: _past,
        } = self;
    }
}

impl Model for Board {
    ghost use Rattle.rc_undo.specs.Undo.{Kept};

    ghost Value = { Kept };

    ghost use Rattle.rc_undo.specs.Board.{board_seen, IsBoard};

    ghost view = { board_seen };

    ghost invariant = { IsBoard };
}

impl Board {
    /// A table with none before it, whose edits are noted.
    pub fn new(alloc: Global, table: Table) -> Board
        ensures { result ≡ record { laid = table; before = []; notes = true; home = None } }
    {
        Board {
            alloc,
            table,
            past: Past::Edits(Vec::new(alloc)),
        }
    }

    /// A table of which nothing before it is kept.
    pub fn onward(alloc: Global, table: Table) -> Board
        ensures { result ≡ record { laid = table; before = []; notes = false; home = None } }
    {
        Board {
            alloc,
            table,
            past: Past::Nothing,
        }
    }

    /// A table that is at home, to which it goes back.
    pub fn at_home(alloc: Global, table: Table) -> Result<Board, Memory>
        ensures { IfOk result (λ board. board ≡ home_at table) }
    {
        let past = Past::at_home(alloc, &table)?;
        Ok(Board { alloc, table, past })
    }

    /// The table as it is now.
    pub fn table(&self) -> &Table
        ensures { result.now ≡ self.now.laid }
    {
        &self.table
    }

    /// How many edits can be taken back.
    pub fn edits(&self) -> usize
        ensures { result ≡ length self.now.before }
    {
        self.past.edits()
    }

    /// Takes a card out of its place and puts it on top of a location of cards.
    #[inline(always)]
    pub fn put_top(&mut self, id: u16, loc: u16) -> Result<(), Memory>
        requires card { id < length self.old.laid.shape.faces }
        requires loc { HoldsCards self.old.laid.shape loc }
        ensures leads { OnOk result (self.new
            ≡ edited self.old (put_top self.old.laid.shape id loc self.old.laid.table)) }
        ensures keeps { Keeps self.old self.new }
        ensures quiet { self.old.notes ≡ false → IsOk result }
        ensures lacking { OnErr result (self.new ≡ self.old) }
    {
        if self.past.notes() {
            return self.note_and_put_top(id, loc);
        }
        let (from, place) = self.table.place_of(id);
        self.table.put_top_from(id, from, place, loc);
        Ok(())
    }

    // The same with an entry of where the card was.
    #[tactic(auto, using(crate::proofs::KeepsLemmas::keeps_all))]
    #[inline(never)]
    fn note_and_put_top(&mut self, id: u16, loc: u16) -> Result<(), Memory>
        requires card { id < length self.old.laid.shape.faces }
        requires loc { HoldsCards self.old.laid.shape loc }
        ensures leads { OnOk result (self.new
            ≡ edited self.old (put_top self.old.laid.shape id loc self.old.laid.table)) }
        ensures keeps { Keeps self.old self.new }
        ensures lacking { OnErr result (self.new ≡ self.old) }
    {
        // what a table keeps
        let _sound = self.table.shape();
        let (from, place) = self.table.place_of(id);
        let at = top_without(&self.table, from, place, loc);
        let entry = LogEntry::Moved {
            from,
            place,
            to: loc,
            at,
            marks: self.table.marks(id),
        };
        match self.past.note(entry) {
            Ok(()) => {}
            Err(Memory) => return Err(Memory),
        }
        self.table.put_top_from(id, from, place, loc);
        Ok(())
    }

    /// Takes a card out of its place and puts it at the bottom of a location of cards.
    #[tactic(auto, using(crate::proofs::KeepsLemmas::keeps_all))]
    pub fn put_bottom(&mut self, id: u16, loc: u16) -> Result<(), Memory>
        requires card { id < length self.old.laid.shape.faces }
        requires loc { HoldsCards self.old.laid.shape loc }
        ensures leads { OnOk result (self.new
            ≡ edited self.old (put_bottom self.old.laid.shape id loc self.old.laid.table)) }
        ensures keeps { Keeps self.old self.new }
        ensures quiet { self.old.notes ≡ false → IsOk result }
        ensures lacking { OnErr result (self.new ≡ self.old) }
    {
        // what a table keeps
        let _sound = self.table.shape();
        let (from, place) = self.table.place_of(id);
        let entry = LogEntry::Moved {
            from,
            place,
            to: loc,
            at: 0,
            marks: self.table.marks(id),
        };
        match self.past.note(entry) {
            Ok(()) => {}
            Err(Memory) => return Err(Memory),
        }
        self.table.put_bottom(id, loc);
        Ok(())
    }

    /// Puts cards on top of a location of cards, one after the other.
    pub fn put_all_top(&mut self, ids: &[u16], loc: u16) -> Result<(), Memory>
        requires cards { All (λ id. id < length self.old.laid.shape.faces) ids.now }
        requires loc { HoldsCards self.old.laid.shape loc }
        ensures leads { OnOk result (self.new.laid ≡ relaid self.old.laid
            (fold (λ table id. put_top self.old.laid.shape id loc table) self.old.laid.table ids.now)) }
        ensures keeps { Keeps self.old self.new }
        ensures quiet { self.old.notes ≡ false → IsOk result }
    {
        if self.past.notes() {
            return put_noted(self, ids, Side::Top, loc);
        }
        self.table.put_all_top(ids, loc);
        Ok(())
    }

    /// Puts cards at the bottom of a location of cards, one after the other.
    pub fn put_all_bottom(&mut self, ids: &[u16], loc: u16) -> Result<(), Memory>
        requires cards { All (λ id. id < length self.old.laid.shape.faces) ids.now }
        requires loc { HoldsCards self.old.laid.shape loc }
        ensures leads { OnOk result (self.new.laid ≡ relaid self.old.laid
            (fold (λ table id. put_bottom self.old.laid.shape id loc table) self.old.laid.table ids.now)) }
        ensures keeps { Keeps self.old self.new }
        ensures quiet { self.old.notes ≡ false → IsOk result }
    {
        if self.past.notes() {
            return put_noted(self, ids, Side::Bottom, loc);
        }
        self.table.put_all_bottom(ids, loc);
        Ok(())
    }

    // Puts different unmarked cards of one location at an end of another one, by one edit.
    #[tactic(auto, using(crate::proofs::KeepsLemmas::keeps_all))]
    pub(crate) fn gather(
        &mut self,
        ids: &[u16],
        from: u16,
        side: Side,
        loc: u16,
    ) -> Result<(), Memory>
        requires some { 0 < length ids.now }
        requires cards { All (λ id. id < length self.old.laid.shape.faces) ids.now }
        requires loc { HoldsCards self.old.laid.shape loc }
        requires from { All (λ id. loc_of self.old.laid.shape self.old.laid.table id ≡ from) ids.now }
        requires other { from ≡ loc → ⊥ }
        requires fresh { AreFresh (replicate most_in_list false) ids.now }
        requires unmarked { (k : ℕ) → k < length ids.now →
            marks_of self.old.laid.table.marks (slice_index ids.now k) ≡ [] }
        ensures leads { OnOk result (self.new ≡ edited self.old
            (put_each self.old.laid.shape (end_of side) loc ids.now self.old.laid.table)) }
        ensures keeps { Keeps self.old self.new }
    {
        edits_keep_tables_sound();
        // what a table and its shape keep
        let _sound = self.table.shape();
        let _limits = self.table.shape().players();
        match self.past.note_lists(self.alloc, from, loc, &self.table) {
            Ok(()) => {}
            Err(Memory) => return Err(Memory),
        }
        put_on_table(&mut self.table, ids, side, loc);
        Ok(())
    }

    /// Puts a reference on top of a location of references, where there is room.
    pub fn remember_top(&mut self, id: u16, loc: u16) -> Result<(), Memory>
        requires card { id < length self.old.laid.shape.faces }
        requires loc { HoldsReferences self.old.laid.shape loc }
        ensures leads { OnOk result (self.new.laid
            ≡ relaid self.old.laid (remember_top self.old.laid.shape id loc self.old.laid.table)) }
        ensures keeps { Keeps self.old self.new }
        ensures quiet { self.old.notes ≡ false → IsOk result }
        ensures lacking { OnErr result (self.new ≡ self.old) }
    {
        if self.past.notes() {
            return self.note_and_remember_top(id, loc);
        }
        self.table.remember_top(id, loc);
        Ok(())
    }

    // The same with an entry of where the reference is.
    #[tactic(auto, using(crate::proofs::KeepsLemmas::keeps_all))]
    #[inline(never)]
    fn note_and_remember_top(&mut self, id: u16, loc: u16) -> Result<(), Memory>
        requires card { id < length self.old.laid.shape.faces }
        requires loc { HoldsReferences self.old.laid.shape loc }
        ensures leads { OnOk result (self.new.laid
            ≡ relaid self.old.laid (remember_top self.old.laid.shape id loc self.old.laid.table)) }
        ensures keeps { Keeps self.old self.new }
        ensures lacking { OnErr result (self.new ≡ self.old) }
    {
        // what a table keeps
        let _sound = self.table.shape();
        if !self.table.has_room(loc) {
            return Ok(());
        }
        let at = count_of(&self.table, loc);
        match self.past.note(LogEntry::Noted { loc, at }) {
            Ok(()) => {}
            Err(Memory) => return Err(Memory),
        }
        self.table.note_top(id, loc);
        Ok(())
    }

    /// Puts a reference at the bottom of a location of references, where there is room.
    #[tactic(auto, using(crate::proofs::KeepsLemmas::keeps_all))]
    pub fn remember_bottom(&mut self, id: u16, loc: u16) -> Result<(), Memory>
        requires card { id < length self.old.laid.shape.faces }
        requires loc { HoldsReferences self.old.laid.shape loc }
        ensures leads { OnOk result (self.new.laid
            ≡ relaid self.old.laid (remember_bottom self.old.laid.shape id loc self.old.laid.table)) }
        ensures keeps { Keeps self.old self.new }
        ensures quiet { self.old.notes ≡ false → IsOk result }
        ensures lacking { OnErr result (self.new ≡ self.old) }
    {
        // what a table keeps
        let _sound = self.table.shape();
        if !self.table.has_room(loc) {
            return Ok(());
        }
        match self.past.note(LogEntry::Noted { loc, at: 0 }) {
            Ok(()) => {}
            Err(Memory) => return Err(Memory),
        }
        self.table.note_bottom(id, loc);
        Ok(())
    }

    /// Takes the topmost reference with the card's face out of a location of references, if there is one.
    pub fn forget(&mut self, id: u16, loc: u16) -> Result<(), Memory>
        requires card { id < length self.old.laid.shape.faces }
        requires loc { HoldsReferences self.old.laid.shape loc }
        ensures leads { OnOk result (self.new.laid
            ≡ relaid self.old.laid (forget_in self.old.laid.shape id loc self.old.laid.table)) }
        ensures keeps { Keeps self.old self.new }
        ensures quiet { self.old.notes ≡ false → IsOk result }
        ensures lacking { OnErr result (self.new ≡ self.old) }
    {
        if self.past.notes() {
            return self.note_and_forget(id, loc);
        }
        self.table.forget(id, loc);
        Ok(())
    }

    // The same with an entry of the reference and its place.
    #[tactic(auto, using(crate::proofs::KeepsLemmas::keeps_all))]
    #[inline(never)]
    fn note_and_forget(&mut self, id: u16, loc: u16) -> Result<(), Memory>
        requires card { id < length self.old.laid.shape.faces }
        requires loc { HoldsReferences self.old.laid.shape loc }
        ensures leads { OnOk result (self.new.laid
            ≡ relaid self.old.laid (forget_in self.old.laid.shape id loc self.old.laid.table)) }
        ensures keeps { Keeps self.old self.new }
        ensures lacking { OnErr result (self.new ≡ self.old) }
    {
        edits_keep_tables_sound();
        // what a table keeps
        let _sound = self.table.shape();
        let Some(place) = self.table.topmost_like(id, loc) else {
            return Ok(());
        };
        let old = id_at(&self.table, loc, place);
        let entry = LogEntry::Forgotten {
            id: old,
            loc,
            place,
        };
        match self.past.note(entry) {
            Ok(()) => {}
            Err(Memory) => return Err(Memory),
        }
        self.table.take_reference(loc, place);
        Ok(())
    }

    /// Sets a number. Nothing changes where there is no such number.
    #[inline(always)]
    pub fn set_number(&mut self, num: u16, value: i64) -> Result<(), Memory>
        requires clamped { IsWithinClamp value }
        ensures leads { OnOk result (self.new ≡ edited self.old (set_number num value self.old.laid.table)) }
        ensures keeps { Keeps self.old self.new }
        ensures quiet { self.old.notes ≡ false → IsOk result }
        ensures lacking { OnErr result (self.new ≡ self.old) }
    {
        if self.past.notes() {
            return self.note_and_set(num, value);
        }
        self.table.set_number(num, value);
        Ok(())
    }

    // The same with an entry of what the number was.
    #[tactic(auto, using(crate::proofs::KeepsLemmas::keeps_all))]
    #[inline(never)]
    fn note_and_set(&mut self, num: u16, value: i64) -> Result<(), Memory>
        requires clamped { IsWithinClamp value }
        ensures leads { OnOk result (self.new ≡ edited self.old (set_number num value self.old.laid.table)) }
        ensures keeps { Keeps self.old self.new }
        ensures lacking { OnErr result (self.new ≡ self.old) }
    {
        // what a table keeps
        let _sound = self.table.shape();
        let entry = changed_entry(num, self.table.number(num));
        match self.past.note(entry) {
            Ok(()) => {}
            Err(Memory) => return Err(Memory),
        }
        self.table.set_number(num, value);
        Ok(())
    }

    /// Puts the list of a location into another order.
    #[tactic(auto, using(crate::proofs::KeepsLemmas::keeps_all))]
    pub fn reorder(&mut self, loc: u16, order: &[u16]) -> Result<(), Memory>
        requires loc { loc < length self.old.laid.shape.places }
        requires order { IsPermutation (below (length (list_at self.old.laid.table loc))) order.now }
        ensures leads { OnOk result (self.new ≡ edited self.old (reorder loc order.now self.old.laid.table)) }
        ensures keeps { Keeps self.old self.new }
        ensures quiet { self.old.notes ≡ false → IsOk result }
        ensures lacking { OnErr result (self.new ≡ self.old) }
    {
        // what a table keeps
        let _sound = self.table.shape();
        match self.past.note_order(self.alloc, loc, &self.table) {
            Ok(()) => {}
            Err(Memory) => return Err(Memory),
        }
        self.table.reorder(loc, order);
        Ok(())
    }

    /// Marks a card for these seats and no others.
    #[tactic(auto, using(crate::proofs::KeepsLemmas::keeps_all))]
    pub fn set_marks(&mut self, id: u16, seats: u8) -> Result<(), Memory>
        requires card { id < length self.old.laid.shape.faces }
        requires players { All (λ seat. seat < self.old.laid.shape.players) (seats_in seats) }
        requires unseen { All (λ seat. sees self.old.laid.shape seat (loc_of self.old.laid.shape self.old.laid.table id)
            ≡ false) (seats_in seats) }
        ensures leads { OnOk result (self.new ≡ edited self.old (set_marks id (seats_in seats) self.old.laid.table)) }
        ensures keeps { Keeps self.old self.new }
        ensures quiet { self.old.notes ≡ false → IsOk result }
        ensures lacking { OnErr result (self.new ≡ self.old) }
    {
        // what a table keeps
        let _sound = self.table.shape();
        let entry = LogEntry::Marked {
            id,
            seats: self.table.marks(id),
        };
        match self.past.note(entry) {
            Ok(()) => {}
            Err(Memory) => return Err(Memory),
        }
        self.table.set_marks(id, seats);
        Ok(())
    }

    // Takes the last edit back.
    fn undo(&mut self)
        requires notes { self.old.notes ≡ true }
        requires some { 0 < length self.old.before }
        ensures { GoesBack self.old self.new (self.old.laid.table ∷ []) }
    {
        match self.past.take_last() {
            Some(entry) => take_back(&mut self.table, &entry),
            None => {}
        }
    }

    /// Takes edits back until so many are left.
    pub fn go_back(&mut self, edits: usize)
        requires notes { self.old.notes ≡ true }
        requires fits { edits ≤ length self.old.before }
        ensures back { (undone : List PureTable) × GoesBack self.old self.new undone }
        ensures count { length self.new.before ≡ edits }
    {
        while self.edits() > edits {
            self.undo();
        }
    }

    /// Goes home, where there is one. It takes no memory.
    pub fn go_home(&mut self)
        ensures { self.new ≡ gone_home self.old }
    {
        self.past.go_home(&mut self.table);
    }

    /// Goes to another table of the same shape, where there is a home. The home stays. It takes no memory.
    pub fn go_to(&mut self, table: &Table)
        requires shape { self.old.laid.shape ≡ table.now.shape }
        requires home { IsSome self.old.home }
        ensures { self.new ≡ away_at table.now self.old.home }
    {
        self.table.copy_from(table);
    }

    /// Goes to another home, a table of the same shape. It takes no memory.
    pub fn move_home(&mut self, table: &Table)
        requires shape { self.old.laid.shape ≡ table.now.shape }
        requires home { IsSome self.old.home }
        ensures { self.new ≡ home_at table.now }
    {
        self.past.move_home(table);
        self.table.copy_from(table);
    }
}

// How many are in a location.
fn count_of(table: &Table, loc: u16) -> u16
    ensures { result ≡ length (list_at table.now.table loc) }
{
    table.list(loc).len() as u16
}

// Which one is at a place of a location.
fn id_at(table: &Table, loc: u16, place: u16) -> u16
    requires { place < length (list_at table.now.table loc) }
    ensures { result ≡ slice_index (list_at table.now.table loc) place }
{
    table.list(loc)[place as usize]
}

// How many are in a location without what is at this place of that one.
#[tactic(auto, using(crate::proofs::UndoLemmas::one_shorter, crate::proofs::UndoLemmas::as_long, crate::proofs::UndoLemmas::some_there))]
fn top_without(table: &Table, from: u16, place: u16, loc: u16) -> u16
    requires there { place < length (list_at table.now.table from) }
    ensures { result ≡ length (list_at (taken_at from place table.now.table) loc) }
{
    let count = table.list(loc).len() as u16;
    if from == loc { count - 1 } else { count }
}

// An entry of a number's value.
fn changed_entry(num: u16, value: i64) -> LogEntry
    ensures { entry_seen result ≡ changed num value }
{
    LogEntry::Changed { num, value }
}

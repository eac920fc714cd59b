//! What takes an edit of a table back.
ghost use Rattle.std.specs.Prelude.{◌≡◌, ℕ, ◌<◌, ◌≤◌, length, slice_index};
ghost use Rattle.rc_play_spec.specs.Bound.{HoldsReferences};
ghost use Rattle.rc_play_spec.specs.Table.{IsSound};
ghost use Rattle.rc_table.specs.Laid.{relaid};
ghost use Rattle.rc_undo.specs.Undo.{moved, ordered, noted, undone, all_marked, IsEditOf, MayMark, LeadsThrough};
ghost use Rattle.rc_undo.specs.Entry.{entry_seen};

use rc_table::Table;

/// What was before an edit.
#[derive(Drop)]
pub enum LogEntry {
    /// A card that moved: it stood at this place of this location, marked for these seats, and stands at that place of
    /// that one now.
    Moved {
        from: u16,
        place: u16,
        to: u16,
        at: u16,
        marks: u8,
    },
    /// A number's value.
    Changed {
        num: u16,
        value: i64,
    },
    /// A location's list, and its cards' marks, if some card was marked.
    Ordered {
        loc: u16,
        list: Vec<u16>,
        marks: Vec<u8>,
    },
    /// A card's marks.
    Marked {
        id: u16,
        seats: u8,
    },
    /// No reference at this place of this location.
    Noted {
        loc: u16,
        at: u16,
    },
    /// A reference to this card at this place of this location.
    Forgotten {
        id: u16,
        loc: u16,
        place: u16,
    },
    /// The lists of two locations, from the one of which unmarked cards went to the other.
    Gathered {
        from: u16,
        list: Vec<u16>,
        to: u16,
        other: Vec<u16>,
    },
}

/// Takes an edit back.
pub fn take_back(table: &mut Table, entry: &LogEntry)
    requires edit { IsEditOf table.old.shape (entry_seen entry.now) }
    requires through { LeadsThrough table.old.shape (entry_seen entry.now) table.old.table }
    requires sound { IsSound table.old.shape (undone (entry_seen entry.now) table.old.table) }
    ensures { table.new ≡ relaid table.old (undone (entry_seen entry.now) table.old.table) }
{
    match entry {
        LogEntry::Moved {
            from,
            place,
            to,
            at,
            marks,
        } => move_back(table, *from, *place, *to, *at, *marks),
        LogEntry::Changed { num, value } => table.set_number(*num, *value),
        LogEntry::Ordered { loc, list, marks } => order_back(table, *loc, list, marks),
        LogEntry::Marked { id, seats } => table.set_marks(*id, *seats),
        LogEntry::Noted { loc, at } => take_away(table, *loc, *at),
        LogEntry::Forgotten { id, loc, place } => table.put_reference(*id, *loc, *place),
        LogEntry::Gathered {
            from,
            list,
            to,
            other,
        } => table.relist_two(*from, list, *to, other),
    }
}

// Takes the move of a card back.
fn move_back(table: &mut Table, from: u16, place: u16, to: u16, at: u16, marks: u8)
    requires there { from < length table.old.shape.places }
    requires through { LeadsThrough table.old.shape (moved from place to at marks) table.old.table }
    ensures { table.new ≡ relaid table.old (undone (moved from place to at marks) table.old.table) }
{
    if (at as usize) < table.list(to).len() {
        let id = table.list(to)[at as usize];
        table.move_between(to, at, from, place);
        if marks != 0 {
            table.set_marks(id, marks);
        }
    }
}

// Takes a shuffle back.
fn order_back(table: &mut Table, loc: u16, list: &[u16], marks: &[u8])
    requires there { loc < length table.old.shape.places }
    requires through { LeadsThrough table.old.shape (ordered loc list.now marks.now) table.old.table }
    ensures { table.new ≡ relaid table.old (undone (ordered loc list.now marks.now) table.old.table) }
{
    table.relist(loc, list);
    mark_these(table, list, marks);
}

// Marks these cards so.
fn mark_these(table: &mut Table, ids: &[u16], marks: &[u8])
    requires few { length marks.now ≤ length ids.now }
    requires may { (k : ℕ) → k < length marks.now
        → MayMark table.old.shape table.old.table (slice_index ids.now k) (slice_index marks.now k) }
    ensures { table.new ≡ relaid table.old (all_marked ids.now marks.now table.old.table) }
{
    for at in 0..marks.len() {
        table.set_marks(ids[at], marks[at]);
    }
}

// Takes a reference away that was put down.
fn take_away(table: &mut Table, loc: u16, at: u16)
    requires mem { HoldsReferences table.old.shape loc }
    requires sound { IsSound table.old.shape (undone (noted loc at) table.old.table) }
    ensures { table.new ≡ relaid table.old (undone (noted loc at) table.old.table) }
{
    if (at as usize) < table.list(loc).len() {
        table.take_reference(loc, at);
    }
}

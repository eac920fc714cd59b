//! What a board keeps of what was before.
ghost use Rattle.std.specs.Prelude.{◌≡◌, ℕ, ◌<◌, false, List, ◌∷◌, [], length, map, slice_index, All, MatchOption, IfOk, OnOk, OnErr, IsOk};
ghost use Rattle.rc_play_spec.specs.Table.{list_at, marks_of};
ghost use Rattle.rc_table.specs.Marks.{seats_in};
ghost use Rattle.rc_table.specs.Laid.{relaid};
ghost use Rattle.rc_undo.specs.Undo.{ordered, gathered};
ghost use Rattle.rc_undo.specs.Entry.{entry_seen, log_seen};
ghost use Rattle.rc_undo.specs.Past.{home_kept, edits_of, notes_of, home_table, noted_in, moved_to, IsPast, HasShape, TookLast, AreMarks, OrderNoted};
ghost use Rattle.rc_undo.specs.PastSeen.{past_seen};

use crate::entry::LogEntry;
use rc_deck::Memory;
use rc_table::Table;
use std::alloc::Global;

/// What a board keeps of what was before.
pub enum Past {
    /// Nothing.
    Nothing,
    /// What takes each edit back, the last one at the end.
    Edits(Vec<LogEntry>),
    /// The table to which it goes home.
    Home(Table),
}

// A derived drop is proved again in each crate that may drop a board, and this one once.
impl Drop for Past {
    fn drop(self) {
        match self {
            Past::Nothing => {}
            Past::Edits(_a) => {}
            Past::Home(_a) => {}
        }
    }
}

impl Past {
    /// Home at this table, which is copied.
    pub fn at_home(alloc: Global, table: &Table) -> Result<Past, Memory>
        ensures { IfOk result (λ past. past_seen past ≡ home_kept table.now) }
    {
        let home = table.copy(alloc)?;
        Ok(Past::Home(home))
    }

    /// How many edits can be taken back.
    pub fn edits(&self) -> usize
        ensures { result ≡ length (edits_of (past_seen self.now)) }
    {
        match self {
            Past::Edits(log) => log.len(),
            Past::Nothing => 0,
            Past::Home(_) => 0,
        }
    }

    /// Whether edits are noted.
    #[inline(always)]
    pub fn notes(&self) -> bool
        ensures { result ≡ notes_of (past_seen self.now) }
    {
        match self {
            Past::Edits(_) => true,
            Past::Nothing => false,
            Past::Home(_) => false,
        }
    }

    /// Notes what takes an edit back, where edits are noted.
    #[inline(always)]
    pub fn note(&mut self, entry: LogEntry) -> Result<(), Memory>
        ensures noted { OnOk result (past_seen self.new ≡ noted_in (entry_seen entry) (past_seen self.old)) }
        ensures lacking { OnErr result (past_seen self.new ≡ past_seen self.old) }
        ensures quiet { notes_of (past_seen self.old) ≡ false → IsOk result }
    {
        match self {
            Past::Nothing => Ok(()),
            Past::Edits(log) => log_entry(log, entry),
            Past::Home(_) => Ok(()),
        }
    }

    /// Notes that the list of a location, which was this one, is put into another order.
    #[inline(always)]
    pub fn note_order(&mut self, alloc: Global, loc: u16, table: &Table) -> Result<(), Memory>
        ensures noted { OnOk result (OrderNoted table.now.table.marks loc (list_at table.now.table loc)
            (past_seen self.old) (past_seen self.new)) }
        ensures lacking { OnErr result (past_seen self.new ≡ past_seen self.old) }
        ensures quiet { notes_of (past_seen self.old) ≡ false → IsOk result }
    {
        match self {
            Past::Nothing => Ok(()),
            Past::Edits(log) => log_order(alloc, log, loc, table),
            Past::Home(_) => Ok(()),
        }
    }

    /// Notes that cards, of which none is marked, go from one location to another one.
    pub fn note_lists(
        &mut self,
        alloc: Global,
        from: u16,
        to: u16,
        table: &Table,
    ) -> Result<(), Memory>
        ensures noted { OnOk result (past_seen self.new ≡ noted_in
            (gathered from (list_at table.now.table from) to (list_at table.now.table to)) (past_seen self.old)) }
        ensures lacking { OnErr result (past_seen self.new ≡ past_seen self.old) }
    {
        match self {
            Past::Nothing => Ok(()),
            Past::Edits(log) => log_lists(alloc, log, from, to, table),
            Past::Home(_) => Ok(()),
        }
    }

    /// Takes the last edit, if one was noted.
    pub fn take_last(&mut self) -> Option<LogEntry>
        ensures { MatchOption result (edits_of (past_seen self.old) ≡ [])
            (λ entry. TookLast (entry_seen entry) (past_seen self.old) (past_seen self.new)) }
    {
        match self {
            Past::Edits(log) => pop_entry(log),
            Past::Nothing => None,
            Past::Home(_) => None,
        }
    }

    /// Puts the home's table back, where there is a home.
    pub fn go_home(&self, table: &mut Table)
        requires { IsPast table.old (past_seen self.now) }
        ensures { table.new ≡ relaid table.old (home_table (past_seen self.now) table.old.table) }
    {
        match self {
            Past::Home(home) => table.copy_from(home),
            Past::Nothing => {}
            Past::Edits(_) => {}
        }
    }

    /// Makes this table the home's, where there is a home.
    pub fn move_home(&mut self, to: &Table)
        requires { HasShape to.now.shape (past_seen self.old) }
        ensures { past_seen self.new ≡ moved_to to.now (past_seen self.old) }
    {
        match self {
            Past::Home(home) => home.copy_from(to),
            Past::Nothing => {}
            Past::Edits(_) => {}
        }
    }
}

// Puts an entry behind the others.
#[tactic(auto, using(crate::proofs::UndoLemmas::log_more))]
fn log_entry(log: &mut Vec<LogEntry>, entry: LogEntry) -> Result<(), Memory>
    ensures noted { OnOk result (log_seen log.new.items ≡ entry_seen entry ∷ log_seen log.old.items) }
    ensures lacking { OnErr result (log.new.items ≡ log.old.items) }
{
    match log.push(entry) {
        Ok(()) => Ok(()),
        Err(_) => Err(Memory),
    }
}

// Puts the list of a location behind the others.
fn log_order(alloc: Global, log: &mut Vec<LogEntry>, loc: u16, table: &Table) -> Result<(), Memory>
    ensures noted { OnOk result ((bytes : List ℕ) × AreMarks table.now.table.marks (list_at table.now.table loc) bytes
        × (log_seen log.new.items ≡ ordered loc (list_at table.now.table loc) bytes ∷ log_seen log.old.items)) }
    ensures lacking { OnErr result (log.new.items ≡ log.old.items) }
{
    // what a table keeps
    let _sound = table.shape();
    let marks = marks_in(alloc, table, table.list(loc))?;
    match Vec::from_slice(alloc, table.list(loc)) {
        Ok(list) => log_entry(log, LogEntry::Ordered { loc, list, marks }),
        Err(_) => Err(Memory),
    }
}

// Puts the lists of two locations behind the others.
fn log_lists(
    alloc: Global,
    log: &mut Vec<LogEntry>,
    from: u16,
    to: u16,
    table: &Table,
) -> Result<(), Memory>
    ensures noted { OnOk result (log_seen log.new.items
        ≡ gathered from (list_at table.now.table from) to (list_at table.now.table to) ∷ log_seen log.old.items) }
    ensures lacking { OnErr result (log.new.items ≡ log.old.items) }
{
    let list = list_of(alloc, table, from)?;
    let other = list_of(alloc, table, to)?;
    let entry = LogEntry::Gathered {
        from,
        list,
        to,
        other,
    };
    log_entry(log, entry)
}

// A copy of a location's list.
fn list_of(alloc: Global, table: &Table, loc: u16) -> Result<Vec<u16>, Memory>
    ensures { IfOk result (λ list. list.items ≡ list_at table.now.table loc) }
{
    match Vec::from_slice(alloc, table.list(loc)) {
        Ok(list) => Ok(list),
        Err(_) => Err(Memory),
    }
}

// The marks of these cards, or nothing where none of them is marked.
fn marks_in(alloc: Global, table: &Table, ids: &[u16]) -> Result<Vec<u8>, Memory>
    requires { All (λ id. id < length table.now.shape.faces) ids.now }
    ensures { IfOk result (λ marks. AreMarks table.now.table.marks ids.now marks.items) }
{
    if some_marked(table, ids) {
        return marks_of(alloc, table, ids);
    }
    Ok(Vec::new(alloc))
}

/// Whether some of these cards is marked.
pub(crate) fn some_marked(table: &Table, ids: &[u16]) -> bool
    requires { All (λ id. id < length table.now.shape.faces) ids.now }
    ensures { result ≡ false → (k : ℕ) → k < length ids.now
        → marks_of table.now.table.marks (slice_index ids.now k) ≡ [] }
{
    for at in 0..ids.len() {
        if table.marks(ids[at]) != 0 {
            return true;
        }
    }
    false
}

// The marks of all of these cards.
fn marks_of(alloc: Global, table: &Table, ids: &[u16]) -> Result<Vec<u8>, Memory>
    requires { All (λ id. id < length table.now.shape.faces) ids.now }
    ensures { IfOk result (λ marks. map seats_in marks.items ≡ map (marks_of table.now.table.marks) ids.now) }
{
    let mut marks = Vec::new(alloc);
    for at in 0..ids.len() {
        marks.push(table.marks(ids[at]))?;
    }
    Ok(marks)
}

// Takes the last entry, if there is one.
#[tactic(auto, using(crate::proofs::UndoLemmas::log_more))]
fn pop_entry(log: &mut Vec<LogEntry>) -> Option<LogEntry>
    ensures { MatchOption result (log.old.items ≡ [])
        (λ entry. log_seen log.old.items ≡ entry_seen entry ∷ log_seen log.new.items) }
{
    log.pop()
}

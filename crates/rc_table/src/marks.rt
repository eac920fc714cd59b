//! For which seats each card is marked.
ghost use Rattle.std.specs.Prelude.{◌≡◌, ◌<◌, [], false, length, map, replicate, slice_set, All, IfOk};
ghost use Rattle.rc_play_spec.specs.Table.{marks_of, cleared, is_marked};
ghost use Rattle.rc_table.specs.Marks.{seats_in};

use rc_deck::Memory;
use std::alloc::Global;
use std::marker::Model;

/// The marks of each card, as a byte whose bit s is that of seat s. In a match in which nobody peeks all of them are 0,
/// and then no edit reads or writes any.
#[derive(Drop)]
pub(crate) struct Marks {
    bytes: Vec<u8>,
    // whether some byte may be another one than 0
    some: bool,
}

impl Model for Marks {
    ghost use Rattle.std.specs.Prelude.{List, ℕ, ◌≡◌, false, map, length, replicate};
    ghost use Rattle.rc_table.specs.Marks.{seats_in};

    ghost Value = { List (List ℕ) };

    ghost view = { λ m. map seats_in m.bytes.items };

    ghost invariant = { λ m. m.some ≡ false → m.bytes.items ≡ replicate (length m.bytes.items) 0 };
}

// So many bytes 0.
fn zeros(alloc: Global, count: usize) -> Result<Vec<u8>, Memory>
    ensures { IfOk result (λ bytes. bytes.items ≡ replicate count 0) }
{
    Ok(vec![in alloc; 0; count]?)
}

// Whether some byte is another one than 0.
fn has_some(marks: &[u8]) -> bool
    ensures { result ≡ false → marks.now ≡ replicate (length marks.now) 0 }
{
    for at in 0..marks.len() {
        if marks[at] != 0 {
            return true;
        }
    }
    false
}

impl Marks {
    /// No mark of so many cards.
    pub(crate) fn new(alloc: Global, count: usize) -> Result<Marks, Memory>
        ensures { IfOk result (λ marks. marks ≡ replicate count []) }
    {
        let bytes = zeros(alloc, count)?;
        Ok(Marks { bytes, some: false })
    }

    /// The same marks once more.
    pub(crate) fn copy(&self, alloc: Global) -> Result<Marks, Memory>
        ensures { IfOk result (λ copy. copy ≡ self.now) }
    {
        Ok(Marks {
            bytes: Vec::from_slice(alloc, &self.bytes)?,
            some: self.some,
        })
    }

    /// Become the marks of as many other cards.
    pub(crate) fn copy_from(&mut self, other: &Marks)
        requires { length other.now ≡ length self.old }
        ensures { self.new ≡ other.now }
    {
        if self.some || other.some {
            self.bytes.copy_from_slice(&other.bytes);
            self.some = other.some;
        }
    }

    /// Become these marks.
    pub(crate) fn lay(&mut self, marks: &[u8])
        requires { length marks.now ≡ length self.old }
        ensures { self.new ≡ map seats_in marks.now }
    {
        self.bytes.copy_from_slice(marks);
        self.some = has_some(marks);
    }

    /// A card's marks.
    pub(crate) fn of(&self, id: u16) -> u8
        requires { id < length self.now }
        ensures { seats_in result ≡ marks_of self.now id }
    {
        self.bytes[id as usize]
    }

    /// Whether a card is marked for a seat.
    pub(crate) fn has(&self, id: u16, seat: u8) -> bool
        requires card { id < length self.now }
        requires seat { seat < 8 }
        ensures { result ≡ is_marked self.now seat id }
    {
        self.some && (self.bytes[id as usize] >> seat) % 2 == 1
    }

    /// Other marks of a card.
    pub(crate) fn set(&mut self, id: u16, seats: u8)
        requires { id < length self.old }
        ensures { self.new ≡ slice_set self.old id (seats_in seats) }
    {
        self.bytes[id as usize] = seats;
        self.some = true;
    }

    /// A card isn't marked any more.
    #[inline(always)]
    pub(crate) fn clear(&mut self, id: u16)
        requires { id < length self.old }
        ensures { self.new ≡ slice_set self.old id [] }
    {
        if self.some {
            self.bytes[id as usize] = 0;
        }
    }

    /// Nor are these cards.
    pub(crate) fn clear_all(&mut self, ids: &[u16])
        requires { All (λ id. id < length self.old) ids.now }
        ensures { self.new ≡ cleared ids.now self.old }
    {
        if self.some {
            for id in ids {
                self.clear(*id);
            }
        }
    }
}

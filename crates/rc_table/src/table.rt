//! The table.
ghost use Rattle.std.specs.Prelude.{◌≡◌, ◌≤◌, length, map, IfOk};
ghost use Rattle.rc_base.specs.Numbers.{below};
ghost use Rattle.rc_base.specs.Clamp.{IsWithinClamp};
ghost use Rattle.rc_base.specs.Limits.{most_in_list};
ghost use Rattle.rc_play_spec.specs.Table.{IsSound, list_at, number_at, at_home, opening};
ghost use Rattle.rc_play_spec.specs.Bound.{HasHomes};
ghost use Rattle.rc_table.specs.Laid.{rooms};

use crate::marks::Marks;
use crate::rows::Rows;
use crate::shape::Shape;
use crate::whereabouts::at_home;
use rc_deck::Memory;
use rc_play_spec::opening_tables_are_sound;
use std::alloc::Global;
use std::marker::Model;
use std::sync::Arc;

/// Where the cards of a match are: the list of each location from bottom to top, the numbers, and for which seats each
/// card is marked. Each table is sound, and knows the shape that it is laid for.
#[derive(Drop)]
pub struct Table {
    pub(crate) shape: Arc<Shape>,
    // with room in each for all that a location may hold
    pub(crate) lists: Rows,
    // each card's location, and its place there
    pub(crate) whereabouts: Vec<(u16, u16)>,
    pub(crate) numbers: Vec<i64>,
    pub(crate) marks: Marks,
}

impl Model for Table {
    ghost use Rattle.rc_table.specs.Laid.{Laid, IsLaid};

    ghost Value = { Laid };

    ghost view = { λ t. record { shape = t.shape.value; table = record { lists = t.lists.all; numbers = t.numbers.items; marks = t.marks } } };

    ghost invariant = { λ t. IsLaid (record { shape = t.shape.value; table = record { lists = t.lists.all; numbers = t.numbers.items; marks = t.marks } }) t.lists.room t.whereabouts.items };
}

impl Table {
    /// The table of the start: each card in its first location, no reference, all numbers 0, and no mark. It takes all
    /// memory that later edits need.
    pub fn new(alloc: Global, shape: &Arc<Shape>) -> Result<Table, Memory>
        ensures { IfOk result (λ table. table ≡ record { shape = shape.now.value; table = opening shape.now.value }) }
    {
        opening_tables_are_sound();
        let shape = Arc::try_clone(shape)?;
        // what a shape keeps
        let _players = shape.players();
        let lists = homes(alloc, &shape)?;
        let whereabouts = at_home(alloc, &shape, &lists)?;
        let numbers = vec![in alloc; 0; shape.numbers() as usize]?;
        let marks = Marks::new(alloc, shape.cards() as usize)?;
        Ok(Table {
            shape,
            lists,
            whereabouts,
            numbers,
            marks,
        })
    }

    /// The same table once more, with room for all that later edits need.
    pub fn copy(&self, alloc: Global) -> Result<Table, Memory>
        ensures { IfOk result (λ copy. copy ≡ self.now) }
    {
        Ok(Table {
            shape: Arc::try_clone(&self.shape)?,
            lists: self.lists.copy(alloc)?,
            whereabouts: Vec::from_slice(alloc, &self.whereabouts)?,
            numbers: Vec::from_slice(alloc, &self.numbers)?,
            marks: self.marks.copy(alloc)?,
        })
    }

    /// The shape that the table is laid for.
    pub fn shape(&self) -> &Shape
        ensures shape { result.now ≡ self.now.shape }
        ensures sound { IsSound self.now.shape self.now.table }
    {
        &self.shape
    }

    /// The ids of a location from bottom to top; none where there is no such location.
    pub fn list(&self, loc: u16) -> &[u16]
        ensures list { result.now ≡ list_at self.now.table loc }
        ensures few { length result.now ≤ most_in_list }
    {
        self.lists.list(loc)
    }

    /// A number, or 0 where there is no such number.
    pub fn number(&self, num: u16) -> i64
        ensures number { result ≡ number_at self.now.table num }
        ensures clamped { IsWithinClamp result }
    {
        match self.numbers.get(num as usize) {
            Some(number) => *number,
            None => 0,
        }
    }
}

// The lists of the start: each card in its first location.
fn homes(alloc: Global, shape: &Shape) -> Result<Rows, Memory>
    requires { HasHomes shape.now }
    ensures { IfOk result (λ lists. lists
        ≡ record { all = map (at_home shape.now) (below (length shape.now.places)); room = rooms shape.now }) }
{
    let mut lists = Rows::new(alloc, shape)?;
    for id in 0..shape.cards() {
        let home = shape.home(id);
        lists.put_on(home, id);
    }
    Ok(lists)
}

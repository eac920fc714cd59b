//! Where views are laid.
ghost use Rattle.std.specs.Prelude.{◌≡◌, OnOk};
ghost use Rattle.rc_play_spec.specs.RedrawLaws.{IsViewOfSound};
ghost use Rattle.rc_redraw.specs.Desk.{IsLaidOn};
ghost use Rattle.rc_view.specs.Seen.{view_seen};

use crate::filling::{keep_pattern, list_hiding};
use crate::layout::{Layout, lay_out};
use crate::marks::mark_known;
use crate::seen::know_some;
use rc_deck::Memory;
use rc_play_spec::seen_places_take_the_smallest;
use rc_table::{Shape, Table};
use rc_view::View;
use std::alloc::Global;
use std::sync::Arc;

/// A table with the lists that the laying of views takes. They are kept from view to view, and take memory where they
/// grow.
pub struct Desk {
    pub(crate) table: Table,
    pub(crate) layout: Layout,
    marks: Vec<u8>,
    // the locations that hide cards
    pub(crate) hidden: Vec<u16>,
    // the ids at their places that are known, or nothing where none is
    pub(crate) pattern: Vec<Option<u16>>,
    // and room for all that they hold, where some are known
    pub(crate) content: Vec<u16>,
    // the ids for the other places in the order of the table
    pub(crate) order: Vec<u16>,
}

// A derived drop is proved again in each crate that may drop a desk, and this one once.
impl Drop for Desk {
    fn drop(self) {
        let Desk {
            table: _table,
            layout: _layout,
            marks: _marks,
            hidden: _hidden,
            pattern: _pattern,
            content: _content,
            order: _order,
        } = self;
    }
}

impl Desk {
    /// A desk with a table, whatever that holds. It takes no memory.
    pub fn new(alloc: Global, table: Table) -> Desk
        ensures { result.table ≡ table }
    {
        Desk {
            table,
            layout: Layout::new(alloc),
            marks: Vec::new(alloc),
            hidden: Vec::new(alloc),
            pattern: Vec::new(alloc),
            content: Vec::new(alloc),
            order: Vec::new(alloc),
        }
    }

    /// The table.
    pub fn into_table(self) -> Table
        ensures { result ≡ self.table }
    {
        let Desk {
            table,
            layout: _layout,
            marks: _marks,
            hidden: _hidden,
            pattern: _pattern,
            content: _content,
            order: _order,
        } = self;
        table
    }

    /// Lays what a view shows, that of some table of this shape, with the hidden cards in ascending order.
    pub(crate) fn lay(
        &mut self,
        alloc: Global,
        shape: &Arc<Shape>,
        view: &View,
    ) -> Result<(), Memory>
        requires sound { IsViewOfSound shape.now.value (view_seen view.now) }
        requires laid { self.old.table.shape ≡ shape.now.value }
        ensures shape { OnOk result (self.new.table.shape ≡ shape.now.value) }
        ensures lies { OnOk result (IsLaidOn self.new (view_seen view.now)) }
    {
        seen_places_take_the_smallest();
        lay_out(alloc, shape, &view.sights, &mut self.layout)?;
        // what a shape keeps
        let _players = shape.players();
        let seen = &self.layout.taken.ids;
        let some = know_some(&view.sights);
        mark_known(shape, &view.sights, seen, view.seat, some, &mut self.marks)?;
        self.table
            .lay(&self.layout.lists, &view.numbers, &self.marks);
        list_hiding(shape, &view.sights, &mut self.hidden)?;
        keep_pattern(shape, &view.sights, seen, some, &mut self.pattern)?;
        self.content.resize(self.pattern.len(), 0)?;
        self.order.clear();
        self.order.extend_from_slice(&self.layout.unused)?;
        Ok(())
    }
}

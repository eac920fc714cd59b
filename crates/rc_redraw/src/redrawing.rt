//! The tables that a view and keys give.
ghost use Rattle.std.specs.Prelude.{◌≡◌, ◌<◌, ◌≤◌, length, IfOk};
ghost use Rattle.rc_base.specs.Limits.{most_cards};
ghost use Rattle.rc_play_spec.specs.Draws.{permuted};
ghost use Rattle.rc_play_spec.specs.Redraw.{redraw as redraw_of};
ghost use Rattle.rc_play_spec.specs.RedrawLaws.{IsViewOfSound};
ghost use Rattle.rc_play_spec.specs.Table.{IsSound};
ghost use Rattle.rc_play_spec.specs.View.{view_of};
ghost use Rattle.rc_table.specs.Laid.{relaid};
ghost use Rattle.rc_table.specs.Refilled.{CanRefill, refilled};
ghost use Rattle.rc_redraw.specs.Hiding.{blanks, spread};
ghost use Rattle.rc_redraw.specs.Redraws.{redealt};
ghost use Rattle.rc_view.specs.Seen.{view_seen};

use crate::desk::Desk;
use crate::places::blend;
use rc_deck::Memory;
use rc_draw::shuffle_by;
use rc_play_spec::{
    redrawn_tables_are_sound, redrawn_tables_keep_the_view, seen_places_take_the_smallest,
};
use rc_table::{Shape, Table};
use rc_view::View;
use std::alloc::Global;
use std::marker::Model;
use std::sync::Arc;

/// Tables that look like a view, one for each key. What the view shows is laid once. A deal only puts the other cards
/// anew into the places that hide them, and takes no memory.
#[derive(Drop)]
pub struct Redraws<'v> {
    view: &'v View,
    // its table is that of the last key, or with the hidden cards in ascending order
    desk: Desk,
}

impl<'v> Model for Redraws<'v> {
    ghost use Rattle.std.specs.Coded.{codes};
    ghost use Rattle.rc_flow.specs.Codes.{sheet_codes};
    ghost use Rattle.rc_redraw.specs.Redraws.{Redrawn};

    ghost Value = { Redrawn };

    ghost coded = { Prim.hlevel (sheet_codes, codes) };

    ghost use Rattle.rc_redraw.specs.Desk.{laid_on, IsLaidOn};
    ghost use Rattle.rc_view.specs.Seen.{view_seen};

    ghost view = { λ r. laid_on r.desk (view_seen r.view.now) };

    ghost invariant = { λ r. IsLaidOn r.desk (view_seen r.view.now) };
}

impl<'v> Redraws<'v> {
    /// Lays what a view shows. The view is that of some table of this shape. It takes all memory that deals need; that
    /// may run out.
    pub fn new(alloc: Global, shape: &Arc<Shape>, view: &'v View) -> Result<Redraws<'v>, Memory>
        requires { IsViewOfSound shape.now.value (view_seen view.now) }
        ensures shape { IfOk result (λ redraws. redraws.shape ≡ shape.now.value) }
        ensures view { IfOk result (λ redraws. redraws.view ≡ view_seen view.now) }
    {
        let table = Table::new(alloc, shape)?;
        Redraws::laid_on(alloc, shape, view, Desk::new(alloc, table))
    }

    /// The same, laid on a desk with a table of this shape, whatever that holds.
    pub fn laid_on(
        alloc: Global,
        shape: &Arc<Shape>,
        view: &'v View,
        desk: Desk,
    ) -> Result<Redraws<'v>, Memory>
        requires sound { IsViewOfSound shape.now.value (view_seen view.now) }
        requires laid { desk.table.shape ≡ shape.now.value }
        ensures shape { IfOk result (λ redraws. redraws.shape ≡ shape.now.value) }
        ensures view { IfOk result (λ redraws. redraws.view ≡ view_seen view.now) }
    {
        let mut desk = desk;
        match desk.lay(alloc, shape, view) {
            Ok(()) => Ok(Redraws { view, desk }),
            Err(Memory) => Err(Memory),
        }
    }

    /// Deals the table of a key. In location order and from bottom to top, each known place has the smallest id of its
    /// face that is left. The other ids, put into the order of the key, fill the other card places. References are the
    /// smallest ids of their faces, numbers are those of the view, and the cards that are known without being shown are
    /// marked for its seat. The table is sound, and what the seat sees of it is the view.
    pub fn deal(&mut self, key: &[u8; 32])
        ensures redealt { self.new ≡ redealt key.now self.old }
        ensures sound { IsSound self.new.shape self.new.table }
        ensures view { view_of self.new.shape self.new.view.seat self.new.table self.new.view.control ≡ self.new.view }
    {
        redrawn_tables_are_sound();
        redrawn_tables_keep_the_view();
        seen_places_take_the_smallest();
        shuffle(&mut self.desk.order, &self.desk.layout.unused, key);
        refill(
            &mut self.desk.table,
            &self.desk.hidden,
            &self.desk.pattern,
            &mut self.desk.content,
            &self.desk.order,
        );
    }

    /// The table of the last key, or before the first one a table that looks like the view.
    pub fn table(&self) -> &Table
        ensures { result.now ≡ record { shape = self.now.shape; table = self.now.table } }
    {
        &self.desk.table
    }

    /// The desk, with that table.
    pub fn into_desk(self) -> Desk
        ensures { result.table ≡ record { shape = self.entry.shape; table = self.entry.table } }
    {
        let Redraws { view: _, desk } = self;
        desk
    }
}

// Writes these ids into the places of these locations that aren't known, with room for all that the locations hold.
fn refill(
    table: &mut Table,
    locs: &[u16],
    pattern: &[Option<u16>],
    content: &mut [u16],
    ids: &[u16],
)
    requires each { length content.old ≡ length pattern.now }
    requires exact { 0 < length pattern.now → blanks pattern.now ≡ length ids.now }
    requires enough { CanRefill locs.now (spread pattern.now ids.now) table.old.table.lists }
    requires sound { IsSound table.old.shape (refilled locs.now (spread pattern.now ids.now) table.old.table) }
    ensures refilled { table.new ≡ relaid table.old (refilled locs.now (spread pattern.now ids.now) table.old.table) }
    ensures each { length content.new ≡ length content.old }
{
    if pattern.is_empty() {
        table.refill(locs, ids);
    } else {
        blend(content, pattern, ids);
        table.refill(locs, content);
    }
}

// Writes ids into the order of a key over as many others.
fn shuffle(order: &mut Vec<u16>, ids: &[u16], key: &[u8; 32])
    requires each { length order.old.items ≡ length ids.now }
    requires few { length ids.now ≤ most_cards }
    ensures permuted { order.new.items ≡ permuted key.now ids.now }
    ensures each { length order.new.items ≡ length ids.now }
{
    order.copy_from_slice(ids);
    shuffle_by(key, order);
}

/// The table of one key, as `Redraws` deals it. The view is that of some table of this shape. Memory may run out.
pub fn redraw(
    alloc: Global,
    shape: &Arc<Shape>,
    view: &View,
    key: &[u8; 32],
) -> Result<Table, Memory>
    requires { IsViewOfSound shape.now.value (view_seen view.now) }
    ensures table { IfOk result (λ table. table ≡ record {
      shape = shape.now.value;
      table = redraw_of shape.now.value (view_seen view.now) key.now;
    }) }
    ensures sound { IfOk result (λ table. IsSound shape.now.value table.table) }
    ensures view { IfOk result (λ table. let seen = view_seen view.now in
        view_of shape.now.value seen.seat table.table seen.control ≡ seen) }
{
    let mut redraws = Redraws::new(alloc, shape, view)?;
    redraws.deal(key);
    Ok(redraws.into_desk().into_table())
}

//! What a seat sees of a match.
ghost use Rattle.std.specs.Prelude.{◌≡◌, ◌<◌, length, map, IfOk};
ghost use Rattle.rc_play_spec.specs.View.{view_of as view_of_state};
ghost use Rattle.rc_play_spec.specs.ViewLaws.{EqualViewsAlike};
ghost use Rattle.rc_rules.specs.Control.{control_seen};
ghost use Rattle.rc_view.specs.Seen.{sight_seen, view_seen};
ghost use Rattle.rc_view.specs.Key.{HasKey};
ghost use Rattle.rc_view.specs.Laws.{HasControlKey, IsViewIn};

use crate::sight::{Sight, sights_of};
use rc_deck::Memory;
use rc_play_spec::views_are_equal_where_states_are_alike;
use rc_rules::Control;
use rc_table::{Shape, Table};
use std::alloc::Global;

/// What a seat sees of a match: where the match stands beside its table, all numbers, and of each location the faces or
/// else those that are marked for it.
#[derive(Debug)]
pub struct View {
    pub seat: u8,
    pub control: Control,
    pub numbers: Vec<i64>,
    pub sights: Vec<Sight>,
}

// A derived drop is proved again in each crate that may drop a view, and this one once.
impl Drop for View {
    fn drop(self) {
        let View {
            seat: _,
            control: _control,
            numbers: _numbers,
            sights: _sights,
        } = self;
    }
}

impl View {
    /// The same view once more.
    pub fn copy(&self, alloc: Global) -> Result<View, Memory>
        ensures { IfOk result (λ copy. view_seen copy ≡ view_seen self.now) }
    {
        let numbers = Vec::from_slice(alloc, &self.numbers)?;
        let sights = copy_sights(alloc, &self.sights)?;
        Ok(View {
            seat: self.seat,
            control: self.control.copy(),
            numbers,
            sights,
        })
    }
}

/// What a player sees of a table and of where its match stands. Two views of a player are equal exactly where the
/// states are alike to it: they differ at most in faces that it doesn't see. Memory may run out.
pub fn view_of(
    alloc: Global,
    shape: &Shape,
    table: &Table,
    control: &Control,
    seat: u8,
) -> Result<View, Memory>
    requires laid { table.now.shape ≡ shape.now }
    requires seat { seat < shape.now.players }
    ensures view { IfOk result (λ view. view_seen view
        ≡ view_of_state shape.now seat table.now.table (control_seen control.now)) }
    ensures alike { EqualViewsAlike }
    ensures key { IfOk result (λ view. HasKey (view_seen view)) }
    ensures within { IfOk result (λ view. HasControlKey (control_seen control.now)
        → length control.now.made.items ≡ shape.now.players
        → IsViewIn shape.now (view_seen view)) }
{
    views_are_equal_where_states_are_alike();
    // what a shape and a table keep
    let _players = shape.players();
    let _shape = table.shape();
    let numbers = numbers_of(alloc, table)?;
    let sights = sights_of(alloc, shape, table, seat)?;
    Ok(View {
        seat,
        control: control.copy(),
        numbers,
        sights,
    })
}

// All numbers of a table.
fn numbers_of(alloc: Global, table: &Table) -> Result<Vec<i64>, Memory>
    ensures { IfOk result (λ numbers. numbers.items ≡ table.now.table.numbers) }
{
    let count = table.shape().numbers();
    let mut numbers = Vec::with_capacity(alloc, count as usize)?;
    for num in 0..count {
        numbers.push(table.number(num))?;
    }
    Ok(numbers)
}

// The same sights once more.
fn copy_sights(alloc: Global, sights: &[Sight]) -> Result<Vec<Sight>, Memory>
    ensures { IfOk result (λ copy. map sight_seen copy.items ≡ map sight_seen sights.now) }
{
    let mut copy = Vec::with_capacity(alloc, sights.len())?;
    for sight in sights {
        copy.push(sight.copy(alloc)?)?;
    }
    Ok(copy)
}

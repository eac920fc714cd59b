//! What stands beside the choose lines of a text while it is judged.
ghost use Rattle.std.specs.Prelude.{◌≡◌, ◌<◌, ◌++◌, ◌∷◌, [], Bool, true, false, List, ℕ, length, IfOk, OnOk};
ghost use Rattle.rc_play_spec.specs.ItemBounds.{Bound as PureBound};
ghost use Rattle.rc_play_spec.specs.HouseText.{first_marks, later_marks};
ghost use Rattle.rc_rules.specs.Bounds.{bounds_seen, match_bounds};
ghost use Rattle.rc_rules.specs.Machine.{StopsAtDecision, bounds_here, menu_here};
ghost use Rattle.rc_judge.specs.Seen.{row_seen, marks_row, marks_left, lists_seen};

use crate::verdict::Why;
use rc_deck::Memory;
use rc_rules::Machine;
use rc_text::Bounds;
use std::alloc::Global;
use std::mem;

/// What stands beside the choose lines of a text, from choice to choice: what their items are told to bind, or notes of
/// what they do bind.
pub(crate) trait Margin {
    /// What is told of the choices that come; nothing where that isn't told.
    ghost told: { Self → List (List PureBound) };

    /// Whether notes are taken.
    ghost notes: { Bool };

    /// The notes of this match.
    ghost here: { Self → List (List PureBound) };

    /// The notes of the matches before it.
    ghost before: { Self → List (List (List PureBound)) };

    /// The row for what an item of the menu binds. The next choice is next in the margin then.
    fn row<M: Machine>(&mut self, machine: &M, item: u16) -> Result<Option<Why>, Memory>
        requires fresh { M.spent machine.now ≡ false }
        requires decision { StopsAtDecision (M.about machine.now) (M.config machine.now) }
        requires offered { item < length (menu_here (M.about machine.now) (M.config machine.now)) }
        ensures row { IfOk result (λ row. row_seen row
            ≡ marks_row (first_marks (told self.old)) (bounds_here (M.about machine.now) item (M.config machine.now))) }
        ensures told { told self.new ≡ later_marks (told self.old) }
        ensures noted { notes ≡ true → OnOk result
            (here self.new ≡ here self.old ++ bounds_here (M.about machine.now) item (M.config machine.now) ∷ []) }
        ensures before { before self.new ≡ before self.old };

    /// Ends the notes of a match.
    fn close(&mut self, alloc: Global) -> Result<(), Memory>
        ensures told { told self.new ≡ told self.old }
        ensures here { OnOk result (here self.new ≡ []) }
        ensures before { notes ≡ true → OnOk result (before self.new ≡ before self.old ++ here self.old ∷ []) };
}

/// Nothing is told, and no notes are taken.
#[derive(Drop)]
pub(crate) struct Bare;

impl Margin for Bare {
    ghost told = { λ _. [] };

    ghost notes = { false };

    ghost here = { λ _. [] };

    ghost before = { λ _. [] };

    #[inline(always)]
    fn row<M: Machine>(&mut self, _machine: &M, _item: u16) -> Result<Option<Why>, Memory> {
        Ok(None)
    }

    fn close(&mut self, _alloc: Global) -> Result<(), Memory> {
        Ok(())
    }
}

/// What the choices of the matches are told to bind: of this match, and of those behind it.
#[derive(Drop)]
pub(crate) struct Told<'a> {
    here: &'a [Bounds],
    later: &'a [Vec<Bounds>],
}

impl<'a> Told<'a> {
    /// All of this is told.
    pub(crate) fn new(lists: &'a [Vec<Bounds>]) -> Told<'a>
        ensures { marks_left result.here.now result.later.now ≡ marks_left [] lists.now }
    {
        Told {
            here: &[],
            later: lists,
        }
    }

    // Goes on to the next list that isn't empty, where this one is at its end.
    fn turn(&mut self)
        ensures same { marks_left self.new.here.now self.new.later.now
            ≡ marks_left self.old.here.now self.old.later.now }
        ensures end { self.new.here.now ≡ [] → self.new.later.now ≡ [] }
    {
        while self.here.is_empty() {
            let Some((list, later)) = self.later.split_first() else {
                return;
            };
            self.here = list;
            self.later = later;
        }
    }
}

impl<'a> Margin for Told<'a> {
    ghost told = { λ t. marks_left t.here.now t.later.now };

    ghost notes = { false };

    ghost here = { λ _. [] };

    ghost before = { λ _. [] };

    fn row<M: Machine>(&mut self, machine: &M, item: u16) -> Result<Option<Why>, Memory> {
        self.turn();
        let Some((told, rest)) = self.here.split_first() else {
            return Ok(None);
        };
        self.here = rest;
        if told.as_slice() == machine.bounds(item).as_slice() {
            Ok(None)
        } else {
            Ok(Some(Why::Named))
        }
    }

    fn close(&mut self, _alloc: Global) -> Result<(), Memory> {
        Ok(())
    }
}

/// Notes of what the choices of the matches bind: of this match, and of those before it.
#[derive(Drop)]
pub(crate) struct Notes {
    pub(crate) here: Vec<Bounds>,
    pub(crate) before: Vec<Vec<Bounds>>,
}

impl Notes {
    /// No notes.
    pub(crate) fn new(alloc: Global) -> Notes
        ensures here { result.here.items ≡ [] }
        ensures before { result.before.items ≡ [] }
    {
        Notes {
            here: Vec::new(alloc),
            before: Vec::new(alloc),
        }
    }
}

impl Margin for Notes {
    ghost told = { λ _. [] };

    ghost notes = { true };

    ghost here = { λ n. match_bounds n.here };

    ghost before = { λ n. lists_seen n.before.items };

    fn row<M: Machine>(&mut self, machine: &M, item: u16) -> Result<Option<Why>, Memory> {
        self.here.push(machine.bounds(item))?;
        Ok(None)
    }

    fn close(&mut self, alloc: Global) -> Result<(), Memory> {
        let list = mem::replace(&mut self.here, Vec::new(alloc));
        self.before.push(list)?;
        Ok(())
    }
}

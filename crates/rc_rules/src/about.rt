//! What a match is played by.
ghost use Rattle.std.specs.Prelude.{◌≡◌, IfOk};
ghost use Rattle.rc_sheet_spec.specs.WellFormed.{IsWellFormed};
ghost use Rattle.rc_sheet_spec.specs.Sight.{IsInSight};
ghost use Rattle.rc_play_spec.specs.Shape.{shape_of};
ghost use Rattle.rc_ast.specs.Sheet.{sheet_seen};
ghost use Rattle.rc_rules.specs.Lookup.{IsLookup};

use crate::lookup::{Lookup, lookup_of};
use rc_ast::Sheet;
use rc_deck::Memory;
use rc_flow::Checked;
use rc_table::Shape;
use std::alloc::Global;
use std::marker::Model;
use std::sync::Arc;

/// A checked sheet, its shape and the turn limit, with what its names and cards come to. Contracts see the first three
/// as the definitions of play have them.
pub struct About {
    checked: Arc<Checked>,
    shape: Arc<Shape>,
    turns: u32,
    lookup: Arc<Lookup>,
}

// A derived drop is proved again in each crate that may drop an about, and this one once.
impl Drop for About {
    fn drop(self) {
        let About {
            checked: _checked,
            shape: _shape,
            turns: _,
            lookup: _lookup,
        } = self;
    }
}

impl Model for About {
    ghost use Rattle.std.specs.Coded.{codes};
    ghost use Rattle.rc_flow.specs.Codes.{sheet_codes};
    ghost use Rattle.rc_play_spec.specs.About.{About as PureAbout};

    ghost Value = { PureAbout };

    ghost coded = { Prim.hlevel (sheet_codes, codes) };

    ghost use Rattle.rc_rules.specs.About.{about_seen, IsAbout};

    ghost view = { about_seen };

    ghost invariant = { IsAbout };
}

impl About {
    /// An about of these parts. The shape is the sheet's.
    pub fn new(
        alloc: Global,
        checked: Arc<Checked>,
        shape: Arc<Shape>,
        turns: u32,
    ) -> Result<About, Memory>
        requires { shape.value ≡ shape_of checked.value }
        ensures { IfOk result (λ about. about ≡ record { sheet = checked.value; shape = shape.value; turns = turns }) }
    {
        let lookup = lookup_of(alloc, checked.sheet(), &shape)?;
        let lookup = Arc::new(alloc, lookup)?;
        Ok(About {
            checked,
            shape,
            turns,
            lookup,
        })
    }

    /// The sheet.
    pub fn sheet(&self) -> &Sheet
        ensures same { sheet_seen result.now ≡ self.now.sheet }
        ensures well { IsWellFormed self.now.sheet }
        ensures sight { IsInSight self.now.sheet }
        ensures shape { self.now.shape ≡ shape_of self.now.sheet }
    {
        self.checked.sheet()
    }

    /// The sheet as it was checked.
    pub fn checked_sheet(&self) -> &Arc<Checked>
        ensures { result.now.value ≡ self.now.sheet }
    {
        &self.checked
    }

    /// Its shape.
    pub fn shape(&self) -> &Arc<Shape>
        ensures { result.now.value ≡ self.now.shape }
    {
        &self.shape
    }

    /// The turn limit.
    pub fn turns(&self) -> u32
        ensures { result ≡ self.now.turns }
    {
        self.turns
    }

    /// What its names and cards come to.
    pub fn lookup(&self) -> &Lookup
        ensures { IsLookup self.now.sheet self.now.shape result.now }
    {
        &self.lookup
    }

    /// The same about once more.
    pub fn copy(&self) -> Result<About, Memory>
        ensures { IfOk result (λ copy. copy ≡ self.now) }
    {
        let checked = Arc::try_clone(&self.checked)?;
        let shape = Arc::try_clone(&self.shape)?;
        let lookup = Arc::try_clone(&self.lookup)?;
        Ok(About {
            checked,
            shape,
            turns: self.turns,
            lookup,
        })
    }
}

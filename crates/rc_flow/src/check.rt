//! The check of a whole sheet.
ghost use Rattle.std.specs.Prelude.{◌≡◌, IfOk, IfErr};
ghost use Rattle.rc_sheet_spec.specs.WellFormed.{IsWellFormed};
ghost use Rattle.rc_sheet_spec.specs.Sight.{IsInSight, IsUnseen};
ghost use Rattle.rc_ast.specs.Sheet.{sheet_seen};

use crate::first::first_unseen;
use rc_ast::Sheet;
use std::marker::Model;

/// A well-formed sheet that keeps the sight rule. Contracts see the sheet as its pure tree.
#[derive(Debug)]
pub struct Checked {
    sheet: Sheet,
}

// A derived drop is proved again in each crate that may drop a sheet, and this one once.
impl Drop for Checked {
    fn drop(self) {
        let Checked { sheet: _sheet } = self;
    }
}

impl Model for Checked {
    ghost use Rattle.std.specs.Coded.{codes};
    ghost use Rattle.rc_sheet_spec.specs.Sheet.{Sheet};
    ghost use Rattle.rc_flow.specs.Codes.{sheet_codes};

    ghost Value = { Sheet };

    ghost coded = { Prim.hlevel (sheet_codes, codes) };

    ghost use Rattle.rc_flow.specs.Checked.{IsChecked, checked_seen};

    ghost view = { checked_seen };

    ghost invariant = { IsChecked };
}

impl Checked {
    /// The sheet.
    pub fn sheet(&self) -> &Sheet
        ensures same { sheet_seen result.now ≡ self.now }
        ensures well { IsWellFormed self.now }
        ensures sight { IsInSight self.now }
    {
        &self.sheet
    }
}

/// A sheet that breaks the sight rule, with the offset of the first location that does.
#[derive(Debug, Drop)]
pub struct Unseen {
    pub at: u32,
    pub sheet: Sheet,
}

/// The sheet, where it keeps the sight rule; else it comes back with the first location that breaks the rule. It takes
/// no memory.
pub fn check_sight(sheet: Sheet) -> Result<Checked, Unseen>
    requires well { IsWellFormed (sheet_seen sheet) }
    ensures sight { IfOk result (λ _. IsInSight (sheet_seen sheet)) }
    ensures same { IfOk result (λ checked. checked ≡ sheet_seen sheet) }
    ensures unseen { IfErr result (λ unseen. IsUnseen (sheet_seen sheet) unseen.at) }
    ensures back { IfErr result (λ unseen. unseen.sheet ≡ sheet) }
{
    match first_unseen(&sheet) {
        None => Ok(Checked { sheet }),
        Some(at) => Err(Unseen { at, sheet }),
    }
}

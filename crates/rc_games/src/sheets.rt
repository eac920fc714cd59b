//! The sheets of texts.
ghost use Rattle.std.specs.Prelude.{ℕ, IfOk};
ghost use Rattle.rc_base.specs.Placed.{IsPlaced};
ghost use Rattle.rc_form.specs.Form.{tree_of, IsPrintable};
ghost use Rattle.rc_form.specs.SameForm.{IsOfAtoms};
ghost use Rattle.rc_ast.specs.Sheet.{sheet_seen};
ghost use Rattle.rc_sheet_spec.specs.WellFormed.{IsWellFormed};

use bumpalo::Bump;
use rc_ast::Sheet;
use rc_base::limits::LONGEST_TEXT;
use rc_deck::Memory;
use rc_flow::{Checked, check_sight};
use rc_form::{Form, FormFail, read_forms};
use rc_sheet::{SheetFail, sheet_of};
use std::alloc::Global;

/// Why a text tells no game.
#[derive(Clone, Copy, Debug, PartialEq, Eq)]
pub enum NoGame {
    /// It is longer than 33,554,432 bytes, or its forms have a fault.
    Forms,
    /// Its first list is no sheet, or it has none.
    Sheet,
    /// The sheet breaks the sight rule.
    Sight,
    /// The other text's first list is no plan for its players, or it has none.
    Plan,
    /// There was no memory.
    Memory,
}

impl From<Memory> for NoGame {
    fn from(_error: Memory) -> NoGame {
        NoGame::Memory
    }
}

/// The sheet of a form that was read.
fn sheet_of_form(alloc: Global, form: &Form) -> Result<Sheet, NoGame>
    requires placed { (size : ℕ) × IsPlaced size (tree_of form.now) }
    requires printable { IsPrintable (tree_of form.now) }
    requires of_atoms { IsOfAtoms (tree_of form.now) }
    ensures { IfOk result (λ sheet. IsWellFormed (sheet_seen sheet)) }
{
    match sheet_of(alloc, form) {
        Ok(sheet) => Ok(sheet),
        Err(SheetFail::Fault(_)) => Err(NoGame::Sheet),
        Err(SheetFail::Memory) => Err(NoGame::Memory),
    }
}

/// The sheet of a form that was read, where it keeps the sight rule.
pub fn checked_of_form(alloc: Global, form: &Form) -> Result<Checked, NoGame>
    requires placed { (size : ℕ) × IsPlaced size (tree_of form.now) }
    requires printable { IsPrintable (tree_of form.now) }
    requires of_atoms { IsOfAtoms (tree_of form.now) }
{
    match sheet_of_form(alloc, form) {
        Ok(sheet) => checked_sheet(sheet),
        Err(why) => Err(why),
    }
}

/// The sheet of a text, which is its first list.
pub(crate) fn sheet_in(alloc: Global, text: &[u8]) -> Result<Sheet, NoGame>
    ensures { IfOk result (λ sheet. IsWellFormed (sheet_seen sheet)) }
{
    if text.len() > LONGEST_TEXT {
        return Err(NoGame::Forms);
    }
    let arena = Bump::new(alloc);
    let forms = match read_forms(&arena, text, 1) {
        Ok(forms) => forms,
        Err(FormFail::Fault(_)) => return Err(NoGame::Forms),
        Err(FormFail::Memory) => return Err(NoGame::Memory),
    };
    match forms.list.first() {
        Some(form) => sheet_of_form(alloc, form),
        None => Err(NoGame::Sheet),
    }
}

/// The sheet, where it keeps the sight rule.
pub(crate) fn checked_sheet(sheet: Sheet) -> Result<Checked, NoGame>
    requires { IsWellFormed (sheet_seen sheet) }
{
    match check_sight(sheet) {
        Ok(checked) => Ok(checked),
        Err(_) => Err(NoGame::Sight),
    }
}

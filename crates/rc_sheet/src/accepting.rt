//! The sheet of a form.
ghost use Rattle.std.specs.Prelude.{◌≡◌, ℕ, Some, None, IfOk, IfErr};
ghost use Rattle.rc_base.specs.Placed.{IsPlaced};
ghost use Rattle.rc_base.specs.Tree.{IsOpenAtMost};
ghost use Rattle.rc_form.specs.Form.{tree_of};
ghost use Rattle.rc_form.specs.SameForm.{IsOfAtoms};
ghost use Rattle.rc_ast.specs.Sheet.{sheet_seen};
ghost use Rattle.rc_sheet_spec.specs.Stands.{Stands};
ghost use Rattle.rc_sheet_spec.specs.WellFormed.{IsWellFormed};
ghost use Rattle.rc_check.specs.SecondFaults.{sheet_fault};
ghost use Rattle.rc_check.specs.FirstFault.{IsFirstFault};
ghost use Rattle.rc_check.specs.Checks.{IfSheetFault};

use crate::{Reader, Unread};
use rc_ast::Sheet;
use rc_check::{SheetFail, check_semantics, check_shape};
use rc_form::Form;
use rc_resolve::naming_of;
use std::alloc::Global;

/// Makes the sheet of a form. The error is the form's first fault, or that there was no memory: the first fault of its
/// shape and its numbers, or else the first of its names, sorts and limits.
///
/// The time is linear in the form, but for names: each is found in an ordered index of all that were mentioned, or by a
/// search among at most 256.
pub fn sheet_of(alloc: Global, form: &Form) -> Result<Sheet, SheetFail>
    requires placed { (size : ℕ) × IsPlaced size (tree_of form.now) }
    requires shallow { IsOpenAtMost 64 (tree_of form.now) }
    requires of_atoms { IsOfAtoms (tree_of form.now) }
    ensures stands { IfOk result (λ sheet. Stands (sheet_seen sheet) (tree_of form.now)) }
    ensures well { IfOk result (λ sheet. IsWellFormed (sheet_seen sheet)) }
    ensures fine { IfOk result (λ _. sheet_fault (tree_of form.now) ≡ None) }
    ensures found { IfErr result (λ fail. IfSheetFault fail (λ fault. sheet_fault (tree_of form.now) ≡ Some fault)) }
    ensures least { IfErr result (λ fail. IfSheetFault fail (λ fault. IsFirstFault (tree_of form.now) fault)) }
{
    if let Err(fault) = check_shape(form) {
        return Err(SheetFail::Fault(fault));
    }
    if let Err(fail) = check_semantics(alloc, form) {
        return Err(fail);
    }
    sheet_of_faultless(alloc, form)
}

/// The sheet of a form without a fault.
fn sheet_of_faultless(alloc: Global, form: &Form) -> Result<Sheet, SheetFail>
    requires faultless { sheet_fault (tree_of form.now) ≡ None }
    requires shallow { IsOpenAtMost 64 (tree_of form.now) }
    requires of_atoms { IsOfAtoms (tree_of form.now) }
    ensures stands { IfOk result (λ sheet. Stands (sheet_seen sheet) (tree_of form.now)) }
    ensures well { IfOk result (λ sheet. IsWellFormed (sheet_seen sheet)) }
    ensures memory { IfErr result (λ fail. fail ≡ SheetFail.Memory) }
{
    let Ok(naming) = naming_of(alloc, form) else {
        return Err(SheetFail::Memory);
    };
    let Ok(Some(reader)) = Reader::new(alloc, naming) else {
        return Err(SheetFail::Memory);
    };
    match reader.sheet(alloc, form) {
        Ok(sheet) => Ok(sheet),
        Err(Unread::Memory) => Err(SheetFail::Memory),
        Err(Unread::Meaningless) => unreachable!(),
    }
}

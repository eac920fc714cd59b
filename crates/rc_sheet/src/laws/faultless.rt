//! A law of forms without a fault. No function here does anything.
ghost use Rattle.std.specs.Prelude.{◌≡◌, None};
ghost use Rattle.rc_base.specs.Tree.{Tree, IsOpenAtMost};
ghost use Rattle.rc_form.specs.SameForm.{IsOfAtoms};
ghost use Rattle.rc_sheet_spec.specs.Sheet.{Sheet};
ghost use Rattle.rc_sheet_spec.specs.Stands.{Stands};
ghost use Rattle.rc_sheet_spec.specs.WellFormed.{IsWellFormed};
ghost use Rattle.rc_check.specs.SecondFaults.{sheet_fault};

/// A form without a fault is that of a well formed sheet, where its words are atoms and at most 64 of its lists are
/// open at a place.
pub fn a_faultless_form_has_a_sheet()
    ensures { (tree : Tree) → sheet_fault tree ≡ None → IsOpenAtMost 64 tree → IsOfAtoms tree
        → (sheet : Sheet) × Stands sheet tree × IsWellFormed sheet }
{}

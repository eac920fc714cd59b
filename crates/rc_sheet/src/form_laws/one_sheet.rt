//! A law of forms and sheets: a form is that of one well formed sheet at most. No function here does anything.
ghost use Rattle.std.specs.Prelude.{◌≡◌};
ghost use Rattle.rc_base.specs.Tree.{Tree};
ghost use Rattle.rc_sheet_spec.specs.Sheet.{Sheet};
ghost use Rattle.rc_sheet_spec.specs.Stands.{Stands};
ghost use Rattle.rc_sheet_spec.specs.WellFormed.{IsWellFormed};

/// A form stands for one well formed sheet at most.
pub fn a_form_has_one_sheet()
    ensures { (tree : Tree) (sheet other : Sheet) → Stands sheet tree → IsWellFormed sheet → Stands other tree
        → IsWellFormed other → other ≡ sheet }
{}

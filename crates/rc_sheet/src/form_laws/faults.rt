//! Laws of the forms of well formed sheets: such a form has no fault. No function here does anything.
ghost use Rattle.std.specs.Prelude.{◌≡◌, [], None};
ghost use Rattle.rc_base.specs.Tree.{Tree};
ghost use Rattle.rc_sheet_spec.specs.Sheet.{Sheet};
ghost use Rattle.rc_sheet_spec.specs.Stands.{Stands};
ghost use Rattle.rc_sheet_spec.specs.WellFormed.{IsWellFormed};
ghost use Rattle.rc_check.specs.Faults.{faults, first};
ghost use Rattle.rc_check.specs.declared.grammar.Symbol.TheVariants as symbol;
ghost use Rattle.rc_check.specs.SecondFaults.{second_faults, sheet_fault};

/// A form that stands for a well formed sheet has no fault of the first round: its lists are forms of their places,
/// with as many parts as those have, and its atoms are words and numbers of theirs. So its first fault would be one of
/// the second round.
pub fn a_sheet_has_its_shape()
    ensures shape { (tree : Tree) (sheet : Sheet) → Stands sheet tree → IsWellFormed sheet
        → faults symbol.Sheet tree ≡ [] }
    ensures second { (tree : Tree) (sheet : Sheet) → Stands sheet tree → IsWellFormed sheet
        → sheet_fault tree ≡ first (second_faults tree) }
{}

/// A form that stands for a well formed sheet, and whose shape has no fault, has no fault of the second round.
pub fn a_sheet_has_no_second_fault()
    ensures { (tree : Tree) (sheet : Sheet) → Stands sheet tree → IsWellFormed sheet → faults symbol.Sheet tree ≡ []
        → second_faults tree ≡ [] }
{}

/// A form that stands for a well formed sheet has no fault.
pub fn a_sheet_has_no_fault()
    ensures { (tree : Tree) (sheet : Sheet) → Stands sheet tree → IsWellFormed sheet → sheet_fault tree ≡ None }
{}

//! What is printed stands for the sheet. The function does nothing: its contract is the law.
ghost use Rattle.rc_base.specs.Tree.{Tree, IsOpenAtMost};
ghost use Rattle.rc_sheet_spec.specs.Sheet.{Sheet};
ghost use Rattle.rc_base.specs.Limits.{most_open};
ghost use Rattle.rc_sheet_spec.specs.Stands.{Stands};
ghost use Rattle.rc_sheet_spec.specs.WellFormed.{IsWellFormed};
ghost use Rattle.rc_sheet_spec.specs.Printing.{sheet_form};
ghost use Rattle.rc_print.specs.Respelled.{IsRespelled, in_order};
ghost use Rattle.rc_print.specs.Unplaced.{unplaced, IsBare};

/// The form that is printed for a well-formed sheet stands for the sheet, but for offsets, which are all 0 in both.
/// Each form that stands for the sheet is the printed one, once its setup lines are put in order and its numbers are
/// spelled in decimal digits. The printed form's words are atoms, and at most 64 of its lists are open at one place, so
/// that its bytes can be read.
pub fn printed_form_stands()
    ensures stands { (sheet : Sheet) → IsWellFormed sheet → Stands (unplaced sheet) (sheet_form sheet) }
    ensures bare { (sheet : Sheet) → IsWellFormed sheet → IsBare (sheet_form sheet) }
    ensures form { (sheet : Sheet) (form : Tree) → IsWellFormed sheet → Stands sheet form
        → IsRespelled (in_order form) (sheet_form sheet) }
    ensures shallow { (sheet : Sheet) → IsWellFormed sheet → IsOpenAtMost most_open (sheet_form sheet) }
{}

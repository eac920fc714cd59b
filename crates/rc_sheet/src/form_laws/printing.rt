//! Laws of printed sheets: their text is read back. No function here does anything.
ghost use Rattle.std.specs.Prelude.{ℕ, List};
ghost use Rattle.rc_base.specs.Tree.{Tree};
ghost use Rattle.rc_base.specs.Spelled.{Spelled};
ghost use Rattle.rc_base.specs.Transcript.{line};
ghost use Rattle.rc_form.specs.SameForm.{SpellsAgain};
ghost use Rattle.rc_sheet_spec.specs.Sheet.{Sheet};
ghost use Rattle.rc_sheet_spec.specs.WellFormed.{IsWellFormed};
ghost use Rattle.rc_sheet_spec.specs.Printing.{sheet_form, printed_sheet};
ghost use Rattle.rc_sheet.specs.PrintedAgain.{IsReadBack};

/// The text that is printed for a well-formed sheet spells one form and nothing else. That form is the printed one but
/// for offsets, and has no fault. It stands for the same sheet but for offsets, and for no other well formed one, and
/// that sheet is well formed and printed as the same text.
pub fn printed_sheet_reads_back()
    ensures again { (sheet : Sheet) → IsWellFormed sheet → SpellsAgain (sheet_form sheet) (printed_sheet sheet) }
    ensures only { (sheet : Sheet) (forms : List Tree) (rest : ℕ) → IsWellFormed sheet
        → Spelled (printed_sheet sheet) 1 forms rest → IsReadBack sheet forms }
{}

/// So does that text with an LF behind it, which is what is written for a sheet.
pub fn written_sheet_reads_back()
    ensures spelled { (sheet : Sheet) → IsWellFormed sheet
        → (forms : List Tree) × (rest : ℕ) × Spelled (line (printed_sheet sheet)) 1 forms rest }
    ensures only { (sheet : Sheet) (forms : List Tree) (rest : ℕ) → IsWellFormed sheet
        → Spelled (line (printed_sheet sheet)) 1 forms rest → IsReadBack sheet forms }
{}

//! Laws of the limits and the words of a sheet that is read off a form without a fault. No function here does anything.
ghost use Rattle.std.specs.Prelude.{◌≡◌, ◌≤◌, [], Some};
ghost use Rattle.rc_base.specs.Tree.{Tree, IsOpenAtMost};
ghost use Rattle.rc_sheet_spec.specs.Sheet.{Sheet};
ghost use Rattle.rc_base.specs.Limits.{most_open, most_stages, most_sites};
ghost use Rattle.rc_sheet_spec.specs.Naming.{Naming};
ghost use Rattle.rc_sheet_spec.specs.WellFormed.{team_count as team_count_of, HasWords, IsWithinLimits, IsShallow};
ghost use Rattle.rc_check.specs.Faults.{faults};
ghost use Rattle.rc_check.specs.declared.grammar.Symbol.TheVariants as symbol;
ghost use Rattle.rc_check.specs.SecondFaults.{second_faults, stage_count, choice_count};
ghost use Rattle.rc_resolve.specs.Naming.{naming_of};
ghost use Rattle.rc_check.specs.SecondParts.{parts_of};
ghost use Rattle.rc_check.specs.SecondNames.{player_count, team_count};
ghost use Rattle.rc_form.specs.Form.{IsPrintable};
ghost use Rattle.rc_form.specs.SameForm.{IsOfAtoms};
ghost use Rattle.rc_sheet.specs.ReadSheet.{sheet_at};

/// A sheet that is read is shallow where its form is, so where its form may be printed.
pub fn sheet_is_shallow()
    ensures of_form { (naming : Naming) (tree : Tree) (sheet : Sheet) → sheet_at naming tree ≡ Some sheet
        → IsOpenAtMost most_open tree → IsShallow sheet }
    ensures printable { (naming : Naming) (tree : Tree) (sheet : Sheet) → sheet_at naming tree ≡ Some sheet
        → IsPrintable tree → IsShallow sheet }
{}

/// A sheet that is read has as many players and teams as the parts of its form count.
pub fn players_and_teams_are_counted()
    ensures { (naming : Naming) (tree : Tree) (sheet : Sheet) → sheet_at naming tree ≡ Some sheet
        → (player_count (parts_of tree) ≡ sheet.players)
        × (team_count (parts_of tree) ≡ team_count_of sheet sheet.teams) }
{}

/// A sheet that is read off a form without a fault is within its limits.
pub fn sheet_is_within_limits()
    ensures { (tree : Tree) (sheet : Sheet) → faults symbol.Sheet tree ≡ [] → second_faults tree ≡ []
        → sheet_at (naming_of tree) tree ≡ Some sheet → IsWithinLimits sheet }
{}

/// A sheet that is read off a form without a fault has plain words as names and variable words as variables, where the
/// form's atoms are of 1 to 64 bytes that may stand in an atom.
pub fn sheet_has_words()
    ensures { (tree : Tree) (sheet : Sheet) → faults symbol.Sheet tree ≡ [] → second_faults tree ≡ [] → IsOfAtoms tree
        → sheet_at (naming_of tree) tree ≡ Some sheet → HasWords sheet }
{}

/// A form without a fault of the second round has no more stages and choices than a sheet may have.
pub fn stages_and_choices_are_few()
    ensures stages { (tree : Tree) → second_faults tree ≡ [] → stage_count (parts_of tree) ≤ most_stages }
    ensures choices { (tree : Tree) → second_faults tree ≡ [] → choice_count (parts_of tree) ≤ most_sites }
{}

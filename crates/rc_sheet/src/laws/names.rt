//! Laws of the names of a form and of its sheet: how few a form without a fault mentions, and that its sheet mentions
//! the same in the same order, so that names are numbered by their first mention. No function here does anything.
ghost use Rattle.std.specs.Prelude.{◌≡◌, ◌≤◌, [], length, Some};
ghost use Rattle.rc_base.specs.Tree.{Tree};
ghost use Rattle.rc_sheet_spec.specs.FormMentions.{names_of};
ghost use Rattle.rc_base.specs.Limits.{most_attrs, most_values, most_maps, most_locations, most_numbers};
ghost use Rattle.rc_check.specs.Faults.{faults};
ghost use Rattle.rc_check.specs.declared.grammar.Symbol.TheVariants as symbol;
ghost use Rattle.rc_check.specs.SecondParts.{parts_of};
ghost use Rattle.rc_check.specs.SecondNames.{player_count, team_count};
ghost use Rattle.rc_check.specs.SecondFaults.{second_faults};
ghost use Rattle.rc_sheet_spec.specs.Sheet.{Sheet};
ghost use Rattle.rc_sheet_spec.specs.Mentions.{attr_of, value_of, map_of, loc_of, num_of, var_of};
ghost use Rattle.rc_sheet_spec.specs.FormMentions as form;
ghost use Rattle.rc_sheet_spec.specs.Numbering.{mentioned, IsNumbered};
ghost use Rattle.rc_sheet_spec.specs.Stands.{Stands};
ghost use Rattle.rc_resolve.specs.Naming.{naming_of};
ghost use Rattle.rc_sheet.specs.ReadSheet as reading;

/// A form without a fault mentions few names of each kind; of locations and of stored numbers, where it has a player
/// and a team.
pub fn names_are_few()
    ensures attrs { (tree : Tree) → faults symbol.Sheet tree ≡ [] → second_faults tree ≡ []
        → length (names_of tree).attrs ≤ most_attrs }
    ensures values { (tree : Tree) → faults symbol.Sheet tree ≡ [] → second_faults tree ≡ []
        → length (names_of tree).values ≤ most_values }
    ensures maps { (tree : Tree) → faults symbol.Sheet tree ≡ [] → second_faults tree ≡ []
        → length (names_of tree).maps ≤ most_maps }
    ensures locs { (tree : Tree) → faults symbol.Sheet tree ≡ [] → second_faults tree ≡ []
        → 1 ≤ player_count (parts_of tree) → 1 ≤ team_count (parts_of tree)
        → length (names_of tree).locs ≤ most_locations }
    ensures nums { (tree : Tree) → faults symbol.Sheet tree ≡ [] → second_faults tree ≡ []
        → 1 ≤ player_count (parts_of tree) → 1 ≤ team_count (parts_of tree)
        → length (names_of tree).nums ≤ most_numbers }
{}

/// A sheet that stands for a form mentions the words of each kind that the form mentions, in order.
pub fn mentions_stand()
    ensures attrs { (sheet : Sheet) (tree : Tree) → Stands sheet tree
        → mentioned sheet attr_of sheet.names.attrs ≡ form.attr_mentions tree }
    ensures values { (sheet : Sheet) (tree : Tree) → Stands sheet tree
        → mentioned sheet value_of sheet.names.values ≡ form.value_mentions tree }
    ensures maps { (sheet : Sheet) (tree : Tree) → Stands sheet tree
        → mentioned sheet map_of sheet.names.maps ≡ form.map_mentions tree }
    ensures locations { (sheet : Sheet) (tree : Tree) → Stands sheet tree
        → mentioned sheet loc_of sheet.names.locs ≡ form.loc_mentions tree }
    ensures numbers { (sheet : Sheet) (tree : Tree) → Stands sheet tree
        → mentioned sheet num_of sheet.names.nums ≡ form.num_mentions tree }
    ensures variables { (sheet : Sheet) (tree : Tree) → Stands sheet tree
        → mentioned sheet var_of sheet.names.vars ≡ form.var_mentions tree }
{}

/// A sheet that is read with the naming of its form has its names, stages and choices numbered by their first mention.
pub fn what_is_read_is_numbered()
    ensures { (tree : Tree) (sheet : Sheet) → reading.sheet_at (naming_of tree) tree ≡ Some sheet → IsNumbered sheet }
{}

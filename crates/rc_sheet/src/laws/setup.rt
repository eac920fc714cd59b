//! Laws of the players, the teams, the decks and the points of a form without a fault, and of those that its sheet has.
//! No function here does anything.
ghost use Rattle.std.specs.Prelude.{◌≡◌, ◌≤◌, ℕ, true, List, [], ◌∷◌, ◌++◌, length, flat_map, position, sum_by, bytes_eq, All, Some};
ghost use Rattle.rc_base.specs.Tree.{Tree, list, Trees, cons};
ghost use Rattle.rc_base.specs.Deck.{face_count};
ghost use Rattle.rc_check.specs.Faults.{faults};
ghost use Rattle.rc_check.specs.declared.grammar.Symbol.TheVariants as symbol;
ghost use Rattle.rc_check.specs.SecondParts.{parts_of, Standing, Part, form, word_in};
ghost use Rattle.rc_check.specs.SecondNames.{player_count, team_count, is_named, attributes_in, values_in, maps_in};
ghost use Rattle.rc_check.specs.SecondFaults.{second_faults};
ghost use Rattle.rc_sheet_spec.specs.Sheet.{SheetItems, Best, IntExpr, Sheet};
ghost use Rattle.rc_sheet_spec.specs.WellFormed.{IsAttr, IsValue, IsMap, AreTeams, IsDeck, IsEntry};
ghost use Rattle.rc_check.specs.declared.grammar.Rule.TheVariants as rule;
ghost use Rattle.rc_resolve.specs.Naming.{naming_of};
ghost use Rattle.rc_sheet.specs.ReadSetup.{Setup};
ghost use Rattle.rc_sheet.specs.ReadSheet.{setup_form_at, sheet_with, sheet_at};
ghost use Rattle.rc_base.specs.Limits.{most_cards};

/// A form without a fault has a player and a team.
pub fn someone_plays()
    ensures players { (tree : Tree) → faults symbol.Sheet tree ≡ [] → second_faults tree ≡ []
        → 1 ≤ player_count (parts_of tree) }
    ensures teams { (tree : Tree) → faults symbol.Sheet tree ≡ [] → second_faults tree ≡ []
        → 1 ≤ team_count (parts_of tree) }
{}

/// The map of a line of points has the number of the lines of points before it.
pub fn maps_are_in_turn()
    ensures turn { (tree : Tree) (earlier later : List Part) (at : Standing) (parts : Trees) (from : ℕ)
        → faults symbol.Sheet tree ≡ [] → second_faults tree ≡ []
        → parts_of tree ≡ earlier ++ (form at rule.PutPoints parts from ∷ later)
        → position (bytes_eq (word_in 2 parts)) (naming_of tree).names.maps ≡ Some (length (flat_map maps_in earlier)) }
{}

/// The attributes, the values and the point maps that decks and points give are those of a sheet with this setup.
pub fn setup_is_given()
    ensures attrs { (tree head setup : Tree) (rest : Trees) (from to n : ℕ) (s : Setup)
        (body : SheetItems × (Best × IntExpr)) (bytes : List ℕ) → tree ≡ list (cons head (cons setup rest)) from to
        → faults symbol.Sheet tree ≡ [] → second_faults tree ≡ [] → setup_form_at (naming_of tree) setup ≡ Some s
        → is_named bytes (flat_map attributes_in (parts_of tree)) ≡ true
        → position (bytes_eq bytes) (naming_of tree).names.attrs ≡ Some n
        → IsAttr (sheet_with (naming_of tree) s body) n }
    ensures values { (tree head setup : Tree) (rest : Trees) (from to n : ℕ) (s : Setup)
        (body : SheetItems × (Best × IntExpr)) (bytes : List ℕ) → tree ≡ list (cons head (cons setup rest)) from to
        → faults symbol.Sheet tree ≡ [] → second_faults tree ≡ [] → setup_form_at (naming_of tree) setup ≡ Some s
        → is_named bytes (flat_map values_in (parts_of tree)) ≡ true
        → position (bytes_eq bytes) (naming_of tree).names.values ≡ Some n
        → IsValue (sheet_with (naming_of tree) s body) n }
    ensures maps { (tree head setup : Tree) (rest : Trees) (from to n : ℕ) (s : Setup)
        (body : SheetItems × (Best × IntExpr)) (bytes : List ℕ) → tree ≡ list (cons head (cons setup rest)) from to
        → faults symbol.Sheet tree ≡ [] → second_faults tree ≡ [] → setup_form_at (naming_of tree) setup ≡ Some s
        → is_named bytes (flat_map maps_in (parts_of tree)) ≡ true
        → position (bytes_eq bytes) (naming_of tree).names.maps ≡ Some n
        → IsMap (sheet_with (naming_of tree) s body) n }
{}

/// The teams of a sheet that is read off a form without a fault have a player each, and each player stands in one of
/// them, once.
pub fn teams_are_a_partition()
    ensures { (tree : Tree) (sheet : Sheet) → faults symbol.Sheet tree ≡ [] → second_faults tree ≡ []
        → sheet_at (naming_of tree) tree ≡ Some sheet → AreTeams sheet.players sheet.teams }
{}

/// It has a deck, and no more cards than a sheet may have.
pub fn there_are_few_cards()
    ensures some { (tree : Tree) (sheet : Sheet) → faults symbol.Sheet tree ≡ [] → second_faults tree ≡ []
        → sheet_at (naming_of tree) tree ≡ Some sheet → 1 ≤ length sheet.decks }
    ensures few { (tree : Tree) (sheet : Sheet) → faults symbol.Sheet tree ≡ [] → second_faults tree ≡ []
        → sheet_at (naming_of tree) tree ≡ Some sheet
        → sum_by (λ line. face_count line.groups) sheet.decks ≤ most_cards }
{}

/// Each of its decks has a group, no face of it has an attribute twice, and it begins in a location of the game that
/// holds cards.
pub fn decks_are_decks()
    ensures { (tree : Tree) (sheet : Sheet) → faults symbol.Sheet tree ≡ [] → second_faults tree ≡ []
        → sheet_at (naming_of tree) tree ≡ Some sheet → All (IsDeck sheet) sheet.decks }
{}

/// Each of its points has an entry, and each entry has a value and points that are in range.
pub fn points_have_entries()
    ensures some { (tree : Tree) (sheet : Sheet) → faults symbol.Sheet tree ≡ [] → second_faults tree ≡ []
        → sheet_at (naming_of tree) tree ≡ Some sheet → All (λ entries. 1 ≤ length entries) sheet.points }
    ensures entries { (tree : Tree) (sheet : Sheet) → faults symbol.Sheet tree ≡ [] → second_faults tree ≡ []
        → sheet_at (naming_of tree) tree ≡ Some sheet → All (All IsEntry) sheet.points }
{}

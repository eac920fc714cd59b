//! Namings, computed on texts that are known. No function here does anything: each has a contract that the check proves
//! by computing.
ghost use Rattle.std.specs.Prelude.{◌≡◌, ◌∷◌, [], codes};
ghost use Rattle.rc_sheet_spec.specs.Sheet.{vloc, iloc, mem, game_class, player_class, team_class};
ghost use Rattle.rc_sheet_spec.specs.Naming as sheet;
ghost use Rattle.rc_sheet_spec.specs.Examples.{form_of, four_cards, four_cards_text};
ghost use Rattle.rc_sheet_spec.specs.PartExamples.{swapped, swapped_text};
ghost use Rattle.rc_resolve.specs.Naming.{naming_of};

/// The naming of a form is that of the sheet that it stands for.
pub fn namings_of_sheets()
    ensures four_cards { naming_of (form_of four_cards_text) ≡ sheet.sheet_naming four_cards }
    ensures any_order { naming_of (form_of swapped_text) ≡ sheet.sheet_naming swapped }
{}

/// The first mention in the printed order says what a name stands for: a deck's location before the items, an owner's
/// inner list as it is written.
pub fn first_mentions()
    ensures kinds { (naming_of (form_of (codes "(game (setup (create deck (game vloc B) (deck (A (X))))) (do (shuffle ((current player) iloc C)) (shuffle (game vloc B)) (remember 'X (top ((team of 'P) mem D)))))"))).locs
        ≡ record { name = 0; kind = vloc; class = game_class }
        ∷ record { name = 1; kind = iloc; class = player_class }
        ∷ record { name = 2; kind = mem; class = team_class }
        ∷ [] }
    ensures numbers { (naming_of (form_of
        (codes "(game (setup) (do (set (game sto N) ('P sto M)) (set ((current team) sto L) (game sto N))))"))).nums
        ≡ record { name = 0; class = game_class }
        ∷ record { name = 1; class = player_class }
        ∷ record { name = 2; class = team_class }
        ∷ [] }
{}

//! The printed bytes of sheets, computed. No function here does anything: each has a contract that the check proves by
//! computing.
ghost use Rattle.std.specs.Prelude.{◌≡◌, ◌∷◌, [], length, codes, pos, neg_ℤ};
ghost use Rattle.rc_base.specs.Tree.{printed};
ghost use Rattle.rc_sheet_spec.specs.Sheet.{bottom, game, current_player, team_of_var, card_var, literal, number, eq_int, eq_who, ne, move};
ghost use Rattle.rc_sheet_spec.specs.Printing.{int_form, test_form, effect_form, printed_sheet};
ghost use Rattle.rc_sheet_spec.specs.Examples.{four_cards, four_cards_one_line};
ghost use Rattle.rc_sheet_spec.specs.PartExamples.{naming, swapped, in_teams, loc_at, num_of};

/// The sheet is printed on one line, without the line's end.
pub fn four_cards_printed()
    ensures size { length (printed_sheet four_cards) ≡ 462 }
    ensures bytes { printed_sheet four_cards ≡ four_cards_one_line }
{}

/// The lines of the setup are printed in one order, in whatever order they stood.
pub fn setup_printed()
    ensures decks_first { printed_sheet swapped
        ≡ codes "(game (setup (create players 1) (create deck (game vloc P) (deck (A (X Y)))) (put points M ((A (Y) 1)))) (do (shuffle (game vloc P))) (scoring min 0))" }
    ensures teams { printed_sheet in_teams
        ≡ codes "(game (setup (create players 3) (create teams (0 2) (1)) (create deck (game vloc P) (deck (A (X Y)))) (put points M ((A (Y) 1)))) (do (shuffle (game vloc P))) (scoring min 0))" }
{}

/// Numbers, tests, teams and ends of locations, printed.
pub fn printed_parts()
    ensures zero { printed (int_form naming [] (literal (neg_ℤ (pos 0)))) ≡ codes "0" }
    ensures negative { printed (int_form naming [] (literal (neg_ℤ (pos 70)))) ≡ codes "-70" }
    ensures unequal { printed (test_form naming []
        (ne (eq_int (literal (neg_ℤ (pos 7))) (number (num_of current_player 0)))))
        ≡ codes "(!= -7 ((current player) sto BID))" }
    ensures owners { printed (test_form naming (codes "'P" ∷ []) (eq_who (team_of_var 0) (team_of_var 0)))
        ≡ codes "(= (team of 'P) (team of 'P))" }
    ensures bottom { printed (effect_form naming (codes "'C" ∷ []) (move (card_var 0) bottom (loc_at game 0 9)))
        ≡ codes "(move 'C (bottom (game vloc PILE)))" }
{}

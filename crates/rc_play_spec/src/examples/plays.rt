//! Plays and house texts, computed on small sheets. No function here does anything.
ghost use Rattle.std.specs.Prelude.{◌≡◌, ◌∷◌, [], length, codes, Some, option_map};
ghost use Rattle.rc_sheet_spec.specs.Sheet.{next_is, current_player};
ghost use Rattle.rc_sheet_spec.specs.Examples.{four_cards, form_of};
ghost use Rattle.rc_sheet_spec.specs.Stands.{Stands};
ghost use Rattle.rc_play_spec.specs.Plan.{scripted};
ghost use Rattle.rc_play_spec.specs.Shape.{shape_of, face_number};
ghost use Rattle.rc_play_spec.specs.Table.{opening};
ghost use Rattle.rc_play_spec.specs.SmallPlays.{plan_text, script_text, script_play, zeros, two, three, counting, refusing, by_way_of_pile, few_points, turning, turning_text, counting_to_four, large_pile, forty_cards};

/// The cards begin in their deck's location.
pub fn shapes()
    ensures places { length (shape_of four_cards).places ≡ 5 }
    ensures teams { (shape_of four_cards).team_of ≡ 0 ∷ 1 ∷ [] }
    ensures lists { (opening (shape_of four_cards)).lists ≡ (0 ∷ 1 ∷ 2 ∷ 3 ∷ []) ∷ [] ∷ [] ∷ [] ∷ [] ∷ [] }
    ensures number { face_number (shape_of four_cards) 2 ≡ 2 }
{}

/// Each player plays his first card first.
pub fn whole_play()
    ensures { script_text four_cards two 100
        ≡ codes "house 1\nmatch 0 deal 0 seats 0\nchoose 0 0 0 2\nchoose 1 0 0 2\nchoose 0 0 0 1\nchoose 1 0 0 1\nend done 8\nscore 0 7 2\nscore 1 3 0\nstanding 1 strategy 0 points 2\nstanding 2 strategy 1 points 0\n" }
{}

/// The limit is met before a decision, and before a round.
pub fn limits()
    ensures decision { script_text four_cards two 3
        ≡ codes "house 1\nmatch 0 deal 0 seats 0\nchoose 0 0 0 2\nend limit 3\nscore 0 4 2\nscore 1 0 0\nstanding 1 strategy 0 points 2\nstanding 2 strategy 1 points 0\n" }
    ensures early { script_text four_cards two 1
        ≡ codes "house 1\nmatch 0 deal 0 seats 0\nend limit 1\nscore 0 0 1\nscore 1 0 1\nstanding 1 strategy 0 points 1\nstanding 1 strategy 1 points 1\n" }
{}

/// A script's number is taken modulo the size of the menu, and is 0 past the script's end.
pub fn scripts()
    ensures one { script_text four_cards ((1 ∷ []) ∷ [] ∷ []) 100
        ≡ codes "house 1\nmatch 0 deal 0 seats 0\nchoose 0 0 1 2\nchoose 1 0 0 2\nchoose 0 0 0 1\nchoose 1 0 0 1\nend done 8\nscore 0 7 2\nscore 1 3 0\nstanding 1 strategy 0 points 2\nstanding 2 strategy 1 points 0\n" }
    ensures modulo { script_text four_cards ((3 ∷ []) ∷ [] ∷ []) 100 ≡ script_text four_cards ((1 ∷ []) ∷ [] ∷ []) 100 }
{}

/// Strategies change seats from match to match, and their points add up.
pub fn rotation()
    ensures even { plan_text four_cards (scripted (1 ∷ []) ∷ scripted [] ∷ []) (zeros ∷ zeros ∷ []) 100
        ≡ codes "house 1\nmatch 0 deal 0 seats 0\nchoose 0 0 1 2\nchoose 1 0 0 2\nchoose 0 0 0 1\nchoose 1 0 0 1\nend done 8\nscore 0 7 2\nscore 1 3 0\nmatch 1 deal 0 seats 0\nchoose 0 0 0 2\nchoose 1 0 1 2\nchoose 0 0 0 1\nchoose 1 0 0 1\nend done 8\nscore 0 7 2\nscore 1 3 0\nstanding 1 strategy 0 points 2\nstanding 1 strategy 1 points 2\n" }
    ensures odd { plan_text few_points (scripted [] ∷ scripted [] ∷ []) (zeros ∷ zeros ∷ zeros ∷ []) 2
        ≡ codes "house 1\nmatch 0 deal 0 seats 0\nchoose 0 0 0 2\nend limit 2\nscore 0 4 0\nscore 1 0 2\nmatch 1 deal 0 seats 0\nchoose 0 0 0 2\nend limit 2\nscore 0 4 0\nscore 1 0 2\nmatch 2 deal 0 seats 0\nchoose 0 0 0 2\nend limit 2\nscore 0 4 0\nscore 1 0 2\nstanding 1 strategy 1 points 4\nstanding 2 strategy 0 points 2\n" }
{}

/// Effects may count hidden cards and move one card twice; a menu may be empty; and the lowest score may be best.
pub fn changed_lines()
    ensures counts { script_text counting two 100 ≡ script_text four_cards two 100 }
    ensures refuses { script_text refusing two 5
        ≡ codes "house 1\nmatch 0 deal 0 seats 0\nend limit 5\nscore 0 0 1\nscore 1 0 1\nstanding 1 strategy 0 points 1\nstanding 1 strategy 1 points 1\n" }
    ensures lowest { script_text few_points two 100
        ≡ codes "house 1\nmatch 0 deal 0 seats 0\nchoose 0 0 0 2\nchoose 1 0 0 2\nchoose 0 0 0 1\nchoose 1 0 0 1\nend done 8\nscore 0 7 0\nscore 1 3 2\nstanding 1 strategy 1 points 2\nstanding 2 strategy 0 points 0\n" }
    ensures twice { script_text by_way_of_pile two 100 ≡ script_text four_cards two 100 }
{}

/// The direction is turned, a member is named to come next, and members of a team have one score together.
pub fn cycles()
    ensures turned { script_text turning three 100
        ≡ codes "house 1\nmatch 0 deal 0 seats 0\nchoose 0 0 0 1\nchoose 2 0 0 1\nchoose 0 0 0 1\nchoose 2 0 0 1\nend done 8\nscore 0 4 2\nscore 1 4 2\nscore 2 4 2\nstanding 1 strategy 0 points 2\nstanding 1 strategy 1 points 2\nstanding 1 strategy 2 points 2\n" }
    ensures named { script_text (counting_to_four (next_is current_player)) three 100
        ≡ codes "house 1\nmatch 0 deal 0 seats 0\nchoose 0 0 0 1\nchoose 0 0 0 1\nchoose 0 0 0 1\nchoose 0 0 0 1\nend done 8\nscore 0 4 2\nscore 1 4 2\nscore 2 4 2\nstanding 1 strategy 0 points 2\nstanding 1 strategy 1 points 2\nstanding 1 strategy 2 points 2\n" }
    ensures teams { script_text (record turning { teams = Some ((0 ∷ 2 ∷ []) ∷ (1 ∷ []) ∷ []) }) three 100
        ≡ codes "house 1\nmatch 0 deal 0 seats 0\nchoose 0 0 0 1\nchoose 2 0 0 1\nchoose 0 0 0 1\nchoose 2 0 0 1\nend done 8\nscore 0 4 2\nscore 1 4 0\nscore 2 4 2\nstanding 1 strategy 0 points 2\nstanding 1 strategy 2 points 2\nstanding 3 strategy 1 points 0\n" }
{}

/// That sheet is what its text says.
pub fn turning_stands()
    ensures { Stands turning (form_of turning_text) }
{}

/// A menu has the first 256 of 300 items.
pub fn large_menus()
    ensures last { script_text large_pile ((255 ∷ []) ∷ []) 2
        ≡ codes "house 1\nmatch 0 deal 0 seats 0\nchoose 0 0 255 256\nend limit 2\nscore 0 0 0\nstanding 1 strategy 0 points 0\n" }
    ensures first { script_text large_pile ((256 ∷ []) ∷ []) 2
        ≡ codes "house 1\nmatch 0 deal 0 seats 0\nchoose 0 0 0 256\nend limit 2\nscore 0 0 0\nstanding 1 strategy 0 points 0\n" }
{}

/// Forty choices.
pub fn forty_choices()
    ensures picks { option_map (λ p. length p.picks) (script_play forty_cards two 100) ≡ Some 40 }
    ensures turn { option_map (λ p. p.control.turn) (script_play forty_cards two 100) ≡ Some 80 }
    ensures shuffles { option_map (λ p. p.dealer) (script_play forty_cards two 100) ≡ Some 1 }
{}

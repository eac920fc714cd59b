//! The meaning of expressions, computed on a small moment of a match. No function here does anything.
ghost use Rattle.std.specs.Prelude.{◌≡◌, ◌∷◌, [], true, false, Some, None, pos, neg_ℤ};
ghost use Rattle.rc_sheet_spec.specs.Sheet.{game, current_player, current_team, team_of_current, team_of_var, who_var, card_var, top_card, bottom_card, max_card, min_card, group_var, filtered, union_of, literal, number, size_of, sum_of, worth_of, add, subtract, multiply, eq_int, eq_card, eq_attr, eq_who, ne, less, has_value, and_of, all_of, any_of, each_player, each_card, each_group};
ghost use Rattle.rc_sheet_spec.specs.Lists.{colls_from, tests_from};
ghost use Rattle.rc_play_spec.specs.Value.{card_value, coll_value, int_value, test_value, members, who_value, player_bound, group_bound};
ghost use Rattle.rc_play_spec.specs.Scene.{held, noted};
ghost use Rattle.rc_play_spec.specs.SmallMoment.{small, cards_of, bound_to};

/// Locations, filters and unions. A filter reads its variable; references stay references.
pub fn collections()
    ensures pile { coll_value small [] (cards_of game 0) ≡ held 0 ∷ held 1 ∷ held 2 ∷ [] }
    ensures hand { coll_value small [] (cards_of current_player 1) ≡ held 3 ∷ held 4 ∷ [] }
    ensures references { coll_value small [] (cards_of game 3) ≡ noted 6 4 ∷ noted 6 3 ∷ [] }
    ensures filter { coll_value small [] (filtered (cards_of game 0) 0 (has_value (card_var 0) 1 21)) ≡ held 1 ∷ [] }
    ensures of_all { coll_value small []
        (union_of (colls_from (cards_of current_player 1 ∷ cards_of game 3 ∷ cards_of game 0 ∷ [])))
        ≡ held 3 ∷ held 4 ∷ noted 6 4 ∷ noted 6 3 ∷ held 0 ∷ held 1 ∷ held 2 ∷ [] }
    ensures bound { coll_value small (player_bound 1 ∷ group_bound (held 0 ∷ []) ∷ []) (group_var 1) ≡ held 0 ∷ [] }
{}

/// Ends, and the first of the largest and of the smallest.
pub fn cards()
    ensures top { card_value small [] (top_card (cards_of game 0)) ≡ Some (held 2) }
    ensures bottom { card_value small [] (bottom_card (cards_of game 0)) ≡ Some (held 0) }
    ensures nothing { card_value small [] (top_card (cards_of (who_var 0) 1)) ≡ None }
    ensures ties { card_value small []
        (max_card (union_of (colls_from (cards_of game 0 ∷ cards_of current_player 1 ∷ []))) 0) ≡ Some (held 2) }
    ensures least { card_value small [] (min_card (cards_of game 3) 0) ≡ Some (noted 6 3) }
    ensures flat { card_value small [] (max_card (cards_of game 0) 1) ≡ Some (held 0) }
    ensures none { card_value small [] (max_card (cards_of (who_var 0) 1) 1) ≡ None }
{}

/// Points are added exactly and clamped once; arithmetic is clamped.
pub fn numbers()
    ensures size { int_value small [] (size_of (cards_of game 0)) ≡ pos 3 }
    ensures sum { int_value small [] (sum_of (cards_of game 0) 0) ≡ pos 6 }
    ensures clamped { int_value small [] (sum_of (cards_of game 0) 1) ≡ pos 1000000000 }
    ensures points { int_value small [] (worth_of (top_card (cards_of current_player 1)) 0) ≡ pos 3 }
    ensures nothing { int_value small [] (worth_of (top_card (cards_of (who_var 0) 1)) 0) ≡ pos 0 }
    ensures of_the_player { int_value small [] (number (record { who = current_player; name = 1 })) ≡ neg_ℤ (pos 2) }
    ensures product { int_value small [] (multiply (literal (pos 100000)) (literal (neg_ℤ (pos 100000))))
        ≡ neg_ℤ (pos 1000000000) }
    ensures nested { int_value small []
        (subtract (add (literal (pos 900000000)) (literal (pos 900000000))) (literal (pos 900000000))) ≡ pos 100000000 }
{}

/// Cards are equal by their faces, and what is nothing equals what is nothing.
pub fn tests()
    ensures faces { test_value small [] (eq_card (top_card (cards_of game 3)) (bottom_card (cards_of current_player 1)))
        ≡ true }
    ensures others { test_value small [] (eq_card (top_card (cards_of game 0)) (top_card (cards_of current_player 1)))
        ≡ false }
    ensures nothing { test_value small [] (eq_card (top_card (cards_of (who_var 0) 1)) (top_card (cards_of game 0)))
        ≡ false }
    ensures both_nothing { test_value small []
        (eq_card (top_card (cards_of (who_var 0) 1)) (max_card (cards_of (who_var 0) 1) 0)) ≡ true }
    ensures none { test_value small [] (eq_attr (top_card (cards_of game 0)) 1 (top_card (cards_of (who_var 0) 1)) 0)
        ≡ true }
    ensures suits { test_value small []
        (eq_attr (bottom_card (cards_of game 0)) 1 (top_card (cards_of current_player 1)) 1) ≡ true }
    ensures no_suit { test_value small []
        (eq_attr (top_card (cards_of game 0)) 1 (top_card (cards_of current_player 1)) 1) ≡ false }
    ensures each { test_value small []
        (all_of each_player 0 (less (size_of (cards_of (who_var 0) 1)) (literal (pos 3)))) ≡ true }
    ensures some { test_value small []
        (any_of (each_card (cards_of game 0)) 0
        (and_of (tests_from (has_value (card_var 0) 0 12 ∷ ne (eq_int (worth_of (card_var 0) 0) (literal (pos 2)))
        ∷ [])))) ≡ true }
{}

/// The current player and team are those of the innermost stages of players and of teams.
pub fn owners()
    ensures player { who_value small.known (bound_to 0) current_player ≡ 1 }
    ensures team { who_value small.known (bound_to 0) current_team ≡ 0 }
    ensures own_team { who_value small.known (bound_to 0) team_of_current ≡ 0 }
    ensures team_of_another { who_value small.known (bound_to 0) (team_of_var 0) ≡ 1 }
    ensures same { test_value small (player_bound 1 ∷ []) (eq_who current_player (who_var 0)) ≡ true }
{}

/// Groups come in the order of first appearance; a card without the attribute stands in none.
pub fn partitions()
    ensures ranks { members small []
        (each_group (union_of (colls_from (cards_of game 0 ∷ cards_of current_player 1 ∷ []))) 0)
        ≡ group_bound (held 0 ∷ []) ∷ group_bound (held 1 ∷ held 3 ∷ []) ∷ group_bound (held 2 ∷ held 4 ∷ []) ∷ [] }
    ensures suits { members small [] (each_group (cards_of game 0) 1)
        ≡ group_bound (held 0 ∷ []) ∷ group_bound (held 1 ∷ []) ∷ [] }
    ensures players { members small [] each_player ≡ player_bound 0 ∷ player_bound 1 ∷ player_bound 2 ∷ [] }
{}

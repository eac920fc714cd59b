//! The definitions of sheets, computed on parts of sheets and on sheets at their limits. No function here does
//! anything: each has a contract that the check proves by computing.
ghost use Rattle.std.specs.Prelude.{◌≡◌, ◌∷◌, [], codes, pos, neg_ℤ, Some, None};
ghost use Rattle.rc_base.specs.Deck.{no_group, group, no_branch, branch};
ghost use Rattle.rc_sheet_spec.specs.Sheet.{game_class, player_class, team_class, top, bottom, game, current_player, current_team, team_of_current, team_of_var, who_var, card_var, top_card, group_var, cards_in, filtered, union_of, literal, number, worth_of, eq_int, eq_card, eq_attr, eq_who, ne, has_value, and_of, all_of, any_of, each_player, each_card, each_group, move, move_all, remember, shuffle, increase, when, repeat, for_each, next_is, turn_round, do_alt, any_alt, do_item, stage, choice};
ghost use Rattle.rc_sheet_spec.specs.Lists.{colls_from, tests_from, effects_from, items_from};
ghost use Rattle.rc_sheet_spec.specs.Naming.{self_scope};
ghost use Rattle.rc_sheet_spec.specs.StandsExpressions.{StandsOwner, StandsLoc, StandsNum, StandsColl, StandsInt, StandsTest};
ghost use Rattle.rc_sheet_spec.specs.StandsEffects.{StandsEffect};
ghost use Rattle.rc_sheet_spec.specs.StandsItems.{StandsAlt};
ghost use Rattle.rc_sheet_spec.specs.Stands.{Stands};
ghost use Rattle.rc_sheet_spec.specs.Numbering.{IsNumbered};
ghost use Rattle.rc_sheet_spec.specs.FormMentions.{AreNames, names_of};
ghost use Rattle.rc_base.specs.Clamp.{IsWithinClamp};
ghost use Rattle.rc_sheet_spec.specs.WellFormed.{outside, IsTest, IsEffect, IsBinder, IsOwner, IsItem, IsDeck, AreGroups, AreTeams, IsWithinLimits};
ghost use Rattle.rc_sheet_spec.specs.Examples.{form_of};
ghost use Rattle.rc_sheet_spec.specs.PartExamples.{parts, naming, three, truth, single, around_by, loc_at, num_of, swapped_text, swapped, with_cards, with_locs, with_nums, with_stages, with_choices, with_players};

/// Two sides of each sort, and the same behind `!=`. A variable is a side by its own sort.
pub fn sides()
    ensures numbers { StandsTest naming [] (eq_int (literal (pos 7)) (number (num_of current_player 0)))
        (form_of (codes "(= 007 ((current player) sto BID))")) }
    ensures unequal { StandsTest naming [] (ne (eq_int (literal (neg_ℤ (pos 7))) (literal (pos 0))))
        (form_of (codes "(!= -7 -0)")) }
    ensures cards { StandsTest naming three (eq_card (card_var 1) (top_card (group_var 2)))
        (form_of (codes "(= 'C (top 'G))")) }
    ensures attrs { StandsTest naming three (eq_attr (card_var 1) 0 (card_var 1) 1)
        (form_of (codes "(= (attr 'C SUIT) (attr 'C RANK))")) }
    ensures players { StandsTest naming three (ne (eq_who (who_var 0) current_player))
        (form_of (codes "(!= 'P (current player))")) }
    ensures teams { StandsTest naming three (eq_who (team_of_var 0) current_team)
        (form_of (codes "(= (team of 'P) (current team))")) }
{}

/// A player and a team are of different sorts. A variable stands for a side of its own sort alone.
pub fn no_sides()
    ensures player_and_team { StandsTest naming three (eq_who (who_var 0) current_team)
        (form_of (codes "(= 'P (current team))")) → ⊥ }
    ensures card_for_player { StandsTest naming three (eq_who (who_var 1) current_player)
        (form_of (codes "(= 'C (current player))")) → ⊥ }
    ensures number_for_card { StandsTest naming three (eq_card (card_var 1) (card_var 1)) (form_of (codes "(= 'C 7)"))
        → ⊥ }
    ensures other_head { StandsTest naming [] truth (form_of (codes "(!= 0 0)")) → ⊥ }
{}

/// Owners, as they are written.
pub fn owners()
    ensures team_of_variable { StandsLoc naming three (loc_at (team_of_var 0) 1 0)
        (form_of (codes "((team of 'P) iloc HAND)")) }
    ensures team_of_current { StandsLoc naming [] (loc_at team_of_current 1 0)
        (form_of (codes "((team of (current player)) iloc HAND)")) }
    ensures current_team { StandsNum naming [] (num_of current_team 1) (form_of (codes "((current team) sto BANK)")) }
    ensures the_game { StandsLoc naming [] (loc_at game 0 2) (form_of (codes "  (game vloc PILE)")) }
{}

/// A name has one kind and one class of owner, the game owns locations alone, and a variable is in scope.
pub fn no_owners()
    ensures class { StandsLoc naming [] (loc_at current_player 0 0) (form_of (codes "((current player) vloc PILE)"))
        → ⊥ }
    ensures kind { StandsLoc naming [] (loc_at game 0 0) (form_of (codes "(game hloc PILE)")) → ⊥ }
    ensures the_game { StandsOwner [] game (form_of (codes "(game)")) → ⊥ }
    ensures unbound { StandsOwner [] (team_of_var 0) (form_of (codes "(team of 'P)")) → ⊥ }
    ensures no_stage { IsOwner outside current_team → ⊥ }
    ensures no_player_stage { IsOwner outside team_of_current → ⊥ }
{}

/// References go into a location of references, and cards into another one.
pub fn references()
    ensures remembers { StandsEffect naming []
        (remember (top_card (cards_in (loc_at game 0 15))) bottom (loc_at game 2 41))
        (form_of (codes "(remember (top (game vloc PILE)) (bottom (game mem SEEN)))")) }
    ensures fits { IsEffect parts outside
        (remember (top_card (cards_in (loc_at game 0 15))) bottom (loc_at game 2 41)) }
    ensures no_cards { IsEffect parts outside (move (top_card (cards_in (loc_at game 0 0))) top (loc_at game 2 0)) → ⊥ }
    ensures no_shuffle { IsEffect parts outside (shuffle (loc_at game 2 0)) → ⊥ }
    ensures no_references { IsEffect parts outside
        (remember (top_card (cards_in (loc_at game 0 0))) top (loc_at game 0 0)) → ⊥ }
{}

/// A stage of the owner's class names its next member, and any stage turns round.
pub fn cycles()
    ensures next { StandsEffect naming three (next_is (who_var 0)) (form_of (codes "(cycle next 'P)")) }
    ensures reverse { StandsEffect naming [] turn_round (form_of (codes "(cycle reverse)")) }
    ensures fits { IsEffect parts (around_by three 3 0) (next_is (team_of_var 0)) }
    ensures no_stage { IsEffect parts outside turn_round → ⊥ }
    ensures no_variable { IsEffect parts outside (next_is (who_var 0)) → ⊥ }
{}

/// The head word and the fixed word behind it tell effects from one another.
pub fn effects()
    ensures all_cards { StandsEffect naming three (move_all (group_var 2) top (loc_at game 0 18))
        (form_of (codes "(move all 'G (top (game vloc PILE)))")) }
    ensures one_card { StandsEffect naming three (move (card_var 1) top (loc_at game 0 14))
        (form_of (codes "(move 'C (top (game vloc PILE)))")) }
    ensures each { StandsEffect naming []
        (for_each each_player 0 (effects_from (increase (num_of (who_var 0) 0) (literal (pos 1)) ∷ [])))
        (form_of (codes "(all player 'P (inc ('P sto BID) 1))")) }
    ensures none { StandsEffect naming [] (when truth (effects_from [])) (form_of (codes "(if (= 0 0))")) → ⊥ }
{}

/// A variable has its place in the scope, from outside to inside, behind its binder and not in the domain.
pub fn scopes()
    ensures inner { StandsTest naming []
        (all_of each_player 0 (any_of (each_card (cards_in (loc_at (team_of_var 0) 1 20))) 1
        (eq_card (card_var 1) (card_var 1))))
        (form_of (codes "(all player 'P (any ((team of 'P) iloc HAND) 'C (= 'C 'C)))")) }
    ensures filters { StandsColl naming [] (filtered (cards_in (loc_at game 0 8)) 1 (has_value (card_var 0) 0 0))
        (form_of (codes "(filter (game vloc PILE) 'C (is 'C SUIT HEARTS))")) }
    ensures own_domain { StandsTest naming [] (any_of (each_card (group_var 0)) 2 truth)
        (form_of (codes "(any 'G 'G (= 0 0))")) → ⊥ }
    ensures player_scored { StandsInt naming self_scope (number (num_of (who_var 0) 0))
        (form_of (codes "('SELF sto BID)")) }
{}

/// A variable that is in scope isn't bound again, and at most four binders stand around a place.
pub fn binders()
    ensures another { IsBinder parts (around_by three 3 0) 1 → ⊥ }
    ensures shadow { IsTest parts outside (all_of each_player 0 (all_of each_player 0 truth)) → ⊥ }
    ensures beside { IsTest parts outside
        (and_of (tests_from (all_of each_player 0 truth ∷ all_of each_player 0 truth ∷ []))) }
    ensures fourth { IsBinder parts (around_by [] 3 0) 0 }
    ensures fifth { IsBinder parts (around_by [] 4 0) 0 → ⊥ }
{}

/// Groups are bound in alternatives alone.
pub fn partitions()
    ensures alternative { StandsAlt naming []
        (any_alt (each_group (cards_in (loc_at game 0 16)) 0) 2
        (do_alt (effects_from (move_all (group_var 0) bottom (loc_at game 0 67) ∷ []))))
        (form_of (codes "(any (partition (game vloc PILE) SUIT) 'G (do (move all 'G (bottom (game vloc PILE)))))")) }
    ensures no_test { StandsTest naming [] (any_of (each_group (cards_in (loc_at game 0 16)) 0) 2 truth)
        (form_of (codes "(any (partition (game vloc PILE) SUIT) 'G (= 0 0))")) → ⊥ }
{}

/// At least two lists are joined, and a map, an attribute and a value are those of the setup.
pub fn parts_of_expressions()
    ensures joins { StandsColl naming three (union_of (colls_from (group_var 2 ∷ group_var 2 ∷ [])))
        (form_of (codes "(union 'G 'G)")) }
    ensures one { StandsColl naming three (union_of (colls_from (group_var 2 ∷ []))) (form_of (codes "(union 'G)"))
        → ⊥ }
    ensures known { IsTest parts (around_by three 3 0) (has_value (card_var 1) 0 3) }
    ensures unknown_attr { IsTest parts (around_by three 3 0) (has_value (card_var 1) 1 3) → ⊥ }
    ensures unknown_value { IsTest parts (around_by three 3 0) (has_value (card_var 1) 0 4) → ⊥ }
    ensures unknown_map { IsTest parts (around_by three 3 0) (eq_int (worth_of (card_var 1) 1) (literal (pos 0))) → ⊥ }
{}

/// A sheet with its points line before its deck and its players behind both. Names are numbered by the deck first.
pub fn lines_in_any_order()
    ensures stands { Stands swapped (form_of swapped_text) }
    ensures numbered { IsNumbered swapped }
    ensures names { AreNames swapped (form_of swapped_text) }
{}

/// A choice stands in a stage of players, and a stage's `end` is inside the stage.
pub fn stages()
    ensures choice_in_stage { IsItem parts outside
        (stage 0 player_class truth (items_from (choice 0 (do_alt (effects_from (turn_round ∷ [])) ∷ []) ∷ []))) }
    ensures no_stage { IsItem parts outside (choice 0 (do_alt (effects_from (shuffle (loc_at game 0 0) ∷ [])) ∷ []))
        → ⊥ }
    ensures team_stage { IsItem parts outside
        (stage 0 team_class truth (items_from (choice 0 (do_alt (effects_from (turn_round ∷ [])) ∷ []) ∷ []))) → ⊥ }
    ensures own_end { IsItem parts outside
        (stage 0 team_class (eq_who current_team current_team)
        (items_from (do_item (effects_from (turn_round ∷ [])) ∷ []))) }
    ensures no_owner { IsItem parts outside
        (stage 0 game_class truth (items_from (do_item (effects_from (turn_round ∷ [])) ∷ []))) → ⊥ }
    ensures empty { IsItem parts outside (stage 0 player_class truth (items_from [])) → ⊥ }
{}

/// A deck's cards begin in a location of the game, and not among references.
pub fn decks()
    ensures cards { IsDeck parts (record { loc = 0; groups = group 0 single no_group }) }
    ensures references { IsDeck parts (record { loc = 2; groups = group 0 single no_group }) → ⊥ }
    ensures of_teams { IsDeck parts (record { loc = 1; groups = group 0 single no_group }) → ⊥ }
    ensures no_groups { IsDeck parts (record { loc = 0; groups = no_group }) → ⊥ }
    ensures no_values { IsDeck parts (record { loc = 0; groups = group 0 no_branch no_group }) → ⊥ }
{}

/// Each player stands in one team.
pub fn teams()
    ensures none { AreTeams 3 None }
    ensures two { AreTeams 3 (Some ((0 ∷ 2 ∷ []) ∷ (1 ∷ []) ∷ [])) }
    ensures missing { AreTeams 3 (Some ((0 ∷ 2 ∷ []) ∷ [])) → ⊥ }
    ensures twice { AreTeams 3 (Some ((0 ∷ 2 ∷ []) ∷ (1 ∷ 2 ∷ []) ∷ [])) → ⊥ }
    ensures no_player { AreTeams 3 (Some ((0 ∷ 3 ∷ []) ∷ (1 ∷ []) ∷ [])) → ⊥ }
    ensures empty { AreTeams 3 (Some ((0 ∷ 2 ∷ 1 ∷ []) ∷ [] ∷ [])) → ⊥ }
{}

/// No face has an attribute twice. Groups under different values of one group don't meet in a face.
pub fn faces()
    ensures beside { AreGroups [] (group 0 single (group 1 single no_group)) }
    ensures twice_beside { AreGroups [] (group 0 single (group 0 single no_group)) → ⊥ }
    ensures twice_inside { AreGroups []
        (group 0 single (group 1 (branch 0 (group 0 single no_group) no_branch) no_group)) → ⊥ }
    ensures two_values { AreGroups []
        (group 0 (branch 0 (group 1 single no_group) (branch 1 (group 1 single no_group) no_branch)) no_group) }
    ensures behind_both { AreGroups []
        (group 0 (branch 0 (group 1 single no_group) (branch 1 no_group no_branch)) (group 1 single no_group)) → ⊥ }
{}

/// Numbers and repeats at their limits and one past them.
pub fn small_limits()
    ensures most { IsWithinClamp (pos 1000000000) }
    ensures least { IsWithinClamp (neg_ℤ (pos 1000000000)) }
    ensures too_large { IsWithinClamp (pos 1000000001) → ⊥ }
    ensures too_small { IsWithinClamp (neg_ℤ (pos 1000000001)) → ⊥ }
    ensures second_repeat { IsEffect parts (around_by [] 0 1)
        (repeat (literal (pos 0)) (effects_from (shuffle (loc_at game 0 0) ∷ []))) }
    ensures third_repeat { IsEffect parts (around_by [] 0 2)
        (repeat (literal (pos 0)) (effects_from (shuffle (loc_at game 0 0) ∷ []))) → ⊥ }
{}

/// Sheets at their limits and one past them.
pub fn limits()
    ensures players { IsWithinLimits (with_players 8) }
    ensures more_players { IsWithinLimits (with_players 9) → ⊥ }
    ensures no_player { IsWithinLimits (with_players 0) → ⊥ }
    ensures cards { IsWithinLimits (with_cards 9 0) }
    ensures more_cards { IsWithinLimits (with_cards 9 1) → ⊥ }
    ensures locations { IsWithinLimits (with_locs 128) }
    ensures more_locations { IsWithinLimits (with_locs 129) → ⊥ }
    ensures numbers { IsWithinLimits (with_nums 256) }
    ensures more_numbers { IsWithinLimits (with_nums 257) → ⊥ }
    ensures stages { IsWithinLimits (with_stages 256) }
    ensures more_stages { IsWithinLimits (with_stages 257) → ⊥ }
    ensures choices { IsWithinLimits (with_choices 64) }
    ensures more_choices { IsWithinLimits (with_choices 65) → ⊥ }
{}

/// What a form mentions, in the order of its text: a domain before its variable, and that before what follows.
pub fn mentions()
    ensures variables { (names_of (form_of (codes "(game (setup) (do (all (filter (game vloc A) 'X (= 0 0)) 'Y (all player 'X (shuffle (game mem B))))))"))).vars
        ≡ codes "'X" ∷ codes "'Y" ∷ [] }
    ensures locations { (names_of (form_of (codes "(game (setup) (do (all (filter (game vloc A) 'X (= 0 0)) 'Y (all player 'X (shuffle (game mem B))))))"))).locs
        ≡ codes "A" ∷ codes "B" ∷ [] }
    ensures words { (names_of (form_of (codes "(game (setup) (do (if (is 'X SUIT HEARTS) (set (game sto N) (sum 'G using M)))) (scoring max (points 'X using L)))"))).maps
        ≡ codes "M" ∷ codes "L" ∷ [] }
    ensures no_fixed_word { (names_of
        (form_of (codes "(game (setup) (do (if (is 'X using X) (forget 'X))) (scoring max 0))"))).maps ≡ [] }
    ensures decks { (names_of (form_of (codes "(game (setup (create deck (game vloc P) (deck (A ((X (B (Y Z))) Y)))) (put points M ((C (X W) 1)))))"))).values
        ≡ codes "X" ∷ codes "Y" ∷ codes "Z" ∷ codes "W" ∷ [] }
    ensures attributes { (names_of (form_of (codes "(game (setup (create deck (game vloc P) (deck (A ((X (B (Y Z))) Y)))) (put points M ((C (X W) 1)))))"))).attrs
        ≡ codes "A" ∷ codes "B" ∷ codes "C" ∷ [] }
{}

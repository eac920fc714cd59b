//! The definitions of sheets, computed on cases that one clause of a definition refuses. No function here does
//! anything: each has a contract that the check proves by computing.
ghost use Rattle.std.specs.Prelude.{◌≡◌, ◌∷◌, [], codes, pos, replicate, true, false};
ghost use Rattle.rc_sheet_spec.specs.Sheet.{player_class, team_class, iloc, vloc, mem, game, current_player, current_team, team_of_current, who_var, card_var, bottom_card, max_card, group_var, cards_in, filtered, union_of, literal, number, worth_of, add, subtract, eq_card, eq_who, ne, less, less_eq, and_of, or_of, all_of, any_of, each_player, each_card, each_group, when, repeat, for_each, next_is, turn_round, do_alt, any_alt, do_item, choice};
ghost use Rattle.rc_sheet_spec.specs.Lists.{colls_from, tests_from, effects_from};
ghost use Rattle.rc_sheet_spec.specs.Naming.{self_scope};
ghost use Rattle.rc_base.specs.Tree.{IsOpenAtMost};
ghost use Rattle.rc_sheet_spec.specs.StandsExpressions.{StandsOwner, StandsLoc, StandsNum, StandsCard, StandsColl, StandsInt, StandsTest};
ghost use Rattle.rc_sheet_spec.specs.StandsItems.{StandsAlt};
ghost use Rattle.rc_sheet_spec.specs.Stands.{Stands};
ghost use Rattle.rc_sheet_spec.specs.Numbering.{IsNumbered};
ghost use Rattle.rc_sheet_spec.specs.FormMentions.{AreNames};
ghost use Rattle.rc_base.specs.Limits.{most_open};
ghost use Rattle.rc_sheet_spec.specs.WellFormed.{outside, scored, in_stage, is_plain_word, is_variable_word, IsOwner, IsBinder, IsColl, IsInt, IsTest, IsEffect, IsAlt, IsItem, IsEntry, IsWithinLimits};
ghost use Rattle.rc_sheet_spec.specs.Sight.{is_seen_by_mover};
ghost use Rattle.rc_sheet_spec.specs.Examples.{form_of};
ghost use Rattle.rc_sheet_spec.specs.PartExamples.{parts, naming, three, truth, around_by, loc_at, num_of, swapped_text, in_teams};
ghost use Rattle.rc_sheet_spec.specs.ClauseExamples.{shuffled, teams_text, of_teams_text, of_other_teams, of_no_teams, two_lines_text, of_two_lines, with_team_locs, with_lone_locs, with_player_nums, with_names, with_numbers, renamed, binding_self, nested};

/// Groups are a domain of an alternative, and no range of a test or of an effect. Their attribute is one of the setup.
pub fn ranges()
    ensures some { IsTest parts (around_by [] 0 0) (any_of (each_group (cards_in (loc_at game 0 0)) 0) 2 truth) → ⊥ }
    ensures each { IsTest parts (around_by [] 0 0) (all_of (each_group (cards_in (loc_at game 0 0)) 0) 2 truth) → ⊥ }
    ensures effect { IsEffect parts (around_by [] 0 0)
        (for_each (each_group (cards_in (loc_at game 0 0)) 0) 2 (shuffled 0)) → ⊥ }
    ensures alternative { IsAlt parts (around_by [] 0 0)
        (any_alt (each_group (cards_in (loc_at game 0 0)) 0) 2 (do_alt (shuffled 0))) }
    ensures unknown { IsAlt parts (around_by [] 0 0)
        (any_alt (each_group (cards_in (loc_at game 0 0)) 1) 2 (do_alt (shuffled 0))) → ⊥ }
{}

/// A variable isn't in scope in what it runs over, where it would have the right sort.
pub fn own_domains()
    ensures group { StandsAlt naming []
        (any_alt (each_group (group_var 0) 0) 2 (do_alt (effects_from (turn_round ∷ []))))
        (form_of (codes "(any (partition 'G SUIT) 'G (do (cycle reverse)))")) → ⊥ }
    ensures card { StandsColl naming []
        (filtered (filtered (cards_in (loc_at game 0 16)) 2 (eq_card (card_var 0) (card_var 1))) 1 truth)
        (form_of (codes "(filter (filter (game vloc PILE) 'G (= 'C 'G)) 'C (= 0 0))")) → ⊥ }
    ensures no_group { IsAlt parts (around_by [] 0 0)
        (any_alt (each_group (group_var 0) 0) 2 (do_alt (shuffled 0))) → ⊥ }
    ensures no_card { IsColl parts outside
        (filtered (filtered (cards_in (loc_at game 0 0)) 2 (eq_card (card_var 0) (card_var 1))) 1 truth) → ⊥ }
    ensures no_card_of_a_test { IsTest parts outside
        (any_of (each_card (filtered (cards_in (loc_at game 0 0)) 2 (eq_card (card_var 0) (card_var 1)))) 1 truth) → ⊥ }
    ensures no_card_of_an_effect { IsEffect parts outside
        (for_each (each_card (filtered (cards_in (loc_at game 0 0)) 2 (eq_card (card_var 0) (card_var 1)))) 1
        (shuffled 0)) → ⊥ }
    ensures behind { IsColl parts outside
        (filtered (cards_in (loc_at game 0 0)) 1
        (any_of (each_card (filtered (cards_in (loc_at game 0 0)) 2 (eq_card (card_var 0) (card_var 1)))) 0 truth)) }
{}

/// What each team owns counts once a team, and without teams once a player. Numbers count once an owner too.
pub fn owners_counted()
    ensures teams { IsWithinLimits (with_team_locs 128) }
    ensures more_teams { IsWithinLimits (with_team_locs 129) → ⊥ }
    ensures alone { IsWithinLimits (with_lone_locs 85) }
    ensures more_alone { IsWithinLimits (with_lone_locs 86) → ⊥ }
    ensures numbers { IsWithinLimits (with_player_nums 85) }
    ensures more_numbers { IsWithinLimits (with_player_nums 86) → ⊥ }
{}

/// A text with a line of teams stands for the sheet with these teams, whose location begins where it does in the text.
pub fn a_line_of_teams()
    ensures stands { Stands of_teams_text (form_of teams_text) }
    ensures names { AreNames of_teams_text (form_of teams_text) }
    ensures other_teams { Stands of_other_teams (form_of teams_text) → ⊥ }
    ensures no_teams { Stands of_no_teams (form_of teams_text) → ⊥ }
    ensures other_offset { Stands in_teams (form_of teams_text) → ⊥ }
    ensures two_lines { Stands of_two_lines (form_of two_lines_text) → ⊥ }
{}

/// Attributes, values and point maps at their limits and one past them.
pub fn names_counted()
    ensures most { IsWithinLimits (with_names 256 256 256) }
    ensures attributes { IsWithinLimits (with_names 257 0 0) → ⊥ }
    ensures values { IsWithinLimits (with_names 0 257 0) → ⊥ }
    ensures maps { IsWithinLimits (with_names 0 0 257) → ⊥ }
{}

/// A sheet may stand for a form with its names numbered otherwise, and is then not numbered by their first mention.
/// Stages and choices are numbered in the order of the text.
pub fn numbers_of_names()
    ensures other_numbers { Stands renamed (form_of swapped_text) }
    ensures not_by_mention { IsNumbered renamed → ⊥ }
    ensures in_order { IsNumbered (with_numbers 0 0 1) }
    ensures stage { IsNumbered (with_numbers 1 0 1) → ⊥ }
    ensures choices { IsNumbered (with_numbers 0 1 0) → ⊥ }
    ensures one_number { IsNumbered (with_numbers 0 0 0) → ⊥ }
{}

/// Words of 1 to 64 bytes that may stand in an atom. `'` alone is a variable.
pub fn words()
    ensures longest { is_plain_word (replicate 64 65) ≡ true }
    ensures too_long { is_plain_word (replicate 65 65) ≡ false }
    ensures empty { is_plain_word [] ≡ false }
    ensures variable { is_plain_word (codes "'A") ≡ false }
    ensures blank { is_plain_word (codes "A B") ≡ false }
    ensures quote { is_variable_word (codes "'") ≡ true }
    ensures plain { is_variable_word (codes "A'") ≡ false }
{}

/// At most 64 lists are open at one place.
pub fn depths()
    ensures deepest { IsOpenAtMost most_open (nested 64) }
    ensures too_deep { IsOpenAtMost most_open (nested 65) → ⊥ }
{}

/// Owners inside stages, and in the score. A player's team is named inside a stage of players, and is the next of one
/// of teams.
pub fn owners_in_stages()
    ensures player { IsOwner (in_stage player_class outside) current_player }
    ensures player_outside { IsOwner outside current_player → ⊥ }
    ensures player_among_teams { IsOwner (in_stage team_class outside) current_player → ⊥ }
    ensures team_among_players { IsOwner (in_stage player_class outside) current_team → ⊥ }
    ensures own_team { IsOwner (in_stage player_class outside) team_of_current }
    ensures next_team { IsEffect parts (in_stage team_class outside) (next_is current_team) }
    ensures no_next_team { IsEffect parts (in_stage player_class outside) (next_is team_of_current) → ⊥ }
    ensures own_number { IsInt parts scored (number (num_of (who_var 0) 0)) }
    ensures no_stage { IsInt parts scored (number (num_of current_player 0)) → ⊥ }
{}

/// In the score `'SELF` isn't bound, and isn't one of the four variables that may be. Elsewhere it is a variable like
/// others.
pub fn own_variable()
    ensures elsewhere { IsBinder binding_self outside 0 }
    ensures in_the_score { IsBinder binding_self scored 0 → ⊥ }
    ensures fourth { IsBinder parts (around_by self_scope 3 0) 0 }
    ensures fifth { IsBinder parts (around_by self_scope 4 0) 0 → ⊥ }
    ensures no_word { IsBinder parts outside 3 → ⊥ }
{}

/// Parts that may not be empty, and tests and amounts that are none.
pub fn faulty_parts()
    ensures no_effect { IsItem parts outside (do_item (effects_from [])) → ⊥ }
    ensures no_alternative { IsItem parts (around_by [] 0 0) (choice 0 []) → ⊥ }
    ensures no_consequence { IsEffect parts outside (when truth (effects_from [])) → ⊥ }
    ensures nothing_repeated { IsEffect parts outside (repeat (literal (pos 1)) (effects_from [])) → ⊥ }
    ensures nothing_for_each { IsEffect parts outside (for_each each_player 0 (effects_from [])) → ⊥ }
    ensures no_test { IsTest parts outside (and_of (tests_from [])) → ⊥ }
    ensures no_choice_of_tests { IsTest parts outside (or_of (tests_from [])) → ⊥ }
    ensures one_list { IsColl parts (around_by three 3 0) (union_of (colls_from (group_var 2 ∷ []))) → ⊥ }
    ensures no_equality { IsTest parts outside (ne (less (literal (pos 0)) (literal (pos 1)))) → ⊥ }
    ensures player_and_team { IsTest parts (around_by three 3 0) (eq_who (who_var 0) current_team) → ⊥ }
    ensures card_as_group { IsColl parts (around_by three 3 0) (group_var 1) → ⊥ }
    ensures too_large { IsInt parts outside (literal (pos 1000000001)) → ⊥ }
    ensures no_value { IsEntry (record { attr = 0; values = []; points = pos 1 }) → ⊥ }
    ensures too_many_points { IsEntry (record { attr = 0; values = 0 ∷ []; points = pos 1000000001 }) → ⊥ }
{}

/// Each part stands in its own place, behind its own head.
pub fn heads_and_places()
    ensures difference { StandsInt naming [] (subtract (literal (pos 1)) (literal (pos 2)))
        (form_of (codes "(- 1 2)")) }
    ensures turned { StandsInt naming [] (subtract (literal (pos 2)) (literal (pos 1))) (form_of (codes "(- 1 2)"))
        → ⊥ }
    ensures sum_as_product { StandsInt naming [] (add (literal (pos 1)) (literal (pos 2))) (form_of (codes "(* 1 2)"))
        → ⊥ }
    ensures at_most { StandsTest naming [] (less_eq (literal (pos 1)) (literal (pos 2))) (form_of (codes "(<= 1 2)")) }
    ensures less_as_more { StandsTest naming [] (less (literal (pos 1)) (literal (pos 2))) (form_of (codes "(> 1 2)"))
        → ⊥ }
    ensures worth { StandsInt naming three (worth_of (card_var 1) 0) (form_of (codes "(points 'C using WORTH)")) }
    ensures best { StandsCard naming three (max_card (group_var 2) 0) (form_of (codes "(max 'G using WORTH)")) }
    ensures other_word { StandsCard naming three (max_card (group_var 2) 0) (form_of (codes "(max 'G by WORTH)")) → ⊥ }
    ensures last_as_first { StandsCard naming three (bottom_card (group_var 2)) (form_of (codes "(top 'G)")) → ⊥ }
    ensures team_as_player { StandsOwner [] current_player (form_of (codes "(current team)")) → ⊥ }
    ensures number_of_the_game { StandsNum naming [] (num_of game 0) (form_of (codes "(game sto BID)")) → ⊥ }
    ensures other_place { StandsLoc naming [] (loc_at game 0 1) (form_of (codes "(game vloc PILE)")) → ⊥ }
{}

/// What the mover sees by the way an owner is written.
pub fn seen_by_mover()
    ensures anyones { is_seen_by_mover vloc (who_var 0) ≡ true }
    ensures references { is_seen_by_mover mem current_team ≡ true }
    ensures own { is_seen_by_mover iloc team_of_current ≡ true }
    ensures of_the_game { is_seen_by_mover iloc game ≡ false }
{}

//! The sight rule, computed on sheets with one choice. No function here does anything: each has a contract that the
//! check proves by computing.
ghost use Rattle.std.specs.Prelude.{◌≡◌, ◌∷◌, [], ℕ};
ghost use Rattle.rc_sheet_spec.specs.Sheet.{Sheet, game, current_player, current_team, team_of_current, team_of_var, who_var, card_var, top_card, max_card, cards_in, filtered, union_of, size_of, sum_of, worth_of, add, eq_card, eq_attr, ne, has_value, and_of, not_of, any_of, each_player, each_card, each_group, do_alt, if_alt, any_alt};
ghost use Rattle.rc_sheet_spec.specs.Lists.{colls_from, tests_from};
ghost use Rattle.rc_sheet_spec.specs.Sight.{unseen_offsets, IsInSight, IsUnseen};
ghost use Rattle.rc_sheet_spec.specs.Examples.{four_cards};
ghost use Rattle.rc_sheet_spec.specs.PartExamples.{loc_at, truth};
ghost use Rattle.rc_sheet_spec.specs.SightExamples.{hand, bank, lead, stock_at, pile_at, dealt, offering, offering_cards, offering_where, offering_where_zero};

/// What everybody sees, and the mover's own hand and that of the mover's team. The effects and the end of the stage
/// read other locations.
pub fn in_sight()
    ensures worked { IsInSight four_cards }
    ensures open { IsInSight (offering_cards (pile_at 40)) }
    ensures references { IsInSight (offering_cards (cards_in (loc_at game lead 40))) }
    ensures own { IsInSight (offering_cards (cards_in (loc_at current_player hand 40))) }
    ensures of_own_team { IsInSight (offering_cards (cards_in (loc_at team_of_current bank 40))) }
    ensures no_guard { IsInSight (offering (do_alt dealt ∷ [])) }
{}

/// What nobody sees, and what is another's or is written as another's.
pub fn out_of_sight()
    ensures closed { unseen_offsets (offering_cards (stock_at 40)) ≡ 40 ∷ [] }
    ensures of_named_player { unseen_offsets
        (offering (any_alt each_player 0 (any_alt (each_card (cards_in (loc_at (who_var 0) hand 40))) 1 (do_alt dealt))
        ∷ [])) ≡ 40 ∷ [] }
    ensures of_stage_team { unseen_offsets (offering_cards (cards_in (loc_at current_team bank 40))) ≡ 40 ∷ [] }
    ensures of_named_team { unseen_offsets (offering_cards (cards_in (loc_at (team_of_var 0) bank 40))) ≡ 40 ∷ [] }
{}

/// The length of any location is known, but neither its sum nor how many of its cards pass a test.
pub fn lengths()
    ensures length { IsInSight (offering_where_zero (size_of (stock_at 40))) }
    ensures sum { unseen_offsets (offering_where_zero (sum_of (stock_at 40) 0)) ≡ 40 ∷ [] }
    ensures union { unseen_offsets (offering_where_zero
        (size_of (union_of (colls_from (stock_at 40 ∷ pile_at 50 ∷ []))))) ≡ 40 ∷ [] }
    ensures filter { unseen_offsets (offering_where_zero (size_of (filtered (stock_at 40) 1 truth))) ≡ 40 ∷ [] }
    ensures inside { unseen_offsets
        (offering_where_zero (size_of (filtered (pile_at 40) 1 (eq_card (card_var 0) (top_card (stock_at 50))))))
        ≡ 50 ∷ [] }
{}

/// Guards and domains, however deep.
pub fn places()
    ensures guard { unseen_offsets (offering_where (has_value (top_card (stock_at 40)) 0 0)) ≡ 40 ∷ [] }
    ensures domain { unseen_offsets (offering (any_alt (each_group (stock_at 40) 0) 1 (do_alt dealt) ∷ [])) ≡ 40 ∷ [] }
    ensures both { unseen_offsets
        (offering (any_alt (each_card (stock_at 40)) 1
        (if_alt (ne (eq_card (card_var 0) (top_card (stock_at 50)))) dealt) ∷ []))
        ≡ 40 ∷ 50 ∷ [] }
    ensures domain_of_a_test { unseen_offsets
        (offering_where (not_of (and_of (tests_from (truth ∷ any_of (each_card (stock_at 40)) 1 truth ∷ [])))))
        ≡ 40 ∷ [] }
    ensures points { unseen_offsets
        (offering_where_zero (add (worth_of (max_card (stock_at 40) 0) 0) (sum_of (stock_at 50) 0))) ≡ 40 ∷ 50 ∷ [] }
    ensures attributes { unseen_offsets (offering_where (eq_attr (top_card (pile_at 40)) 0 (top_card (stock_at 50)) 0))
        ≡ 50 ∷ [] }
{}

/// A sheet that breaks the rule has one first offset, and one that keeps it has none.
pub fn one_first_offset()
    ensures one { (sheet : Sheet) (at other : ℕ) → IsUnseen sheet at → IsUnseen sheet other → at ≡ other }
    ensures none { (sheet : Sheet) (at : ℕ) → IsInSight sheet → IsUnseen sheet at → ⊥ }
{}

/// The first is the one with the least offset, wherever it stands among the others.
pub fn first_by_offset()
    ensures offsets { unseen_offsets (offering_where (eq_card (top_card (stock_at 60)) (top_card (stock_at 40))))
        ≡ 60 ∷ 40 ∷ [] }
    ensures least { IsUnseen (offering_where (eq_card (top_card (stock_at 60)) (top_card (stock_at 40)))) 40 }
{}

//! Effects, computed on a small table. No function here does anything.
ghost use Rattle.std.specs.Prelude.{◌≡◌, ◌∷◌, [], pos, neg_ℤ, Some, None, false, true, map};
ghost use Rattle.rc_sheet_spec.specs.Sheet.{top, bottom, top_card, bottom_card, literal, game, current_team, current_player, team_of_var, move, move_all, remember, forget, shuffle, increase, repeat, for_each, each_player, each_card, next_is, turn_round};
ghost use Rattle.rc_sheet_spec.specs.Lists.{effects_from};
ghost use Rattle.rc_sheet_spec.specs.PartExamples.{loc_at, num_of};
ghost use Rattle.rc_play_spec.specs.SmallEffects.{after_effects, stock, seen};

/// A shuffle takes one order, also of an empty list.
pub fn shuffles()
    ensures list { (after_effects (shuffle (loc_at game 0 0) ∷ [])).table.lists
        ≡ (3 ∷ 2 ∷ 1 ∷ 0 ∷ []) ∷ [] ∷ [] ∷ [] ∷ [] }
    ensures count { (after_effects (shuffle (loc_at game 0 0) ∷ shuffle (loc_at game 1 0) ∷ [])).dealer ≡ 2 }
{}

/// Repeats are within 0 and 1,000.
pub fn repeats()
    ensures below { (after_effects (repeat (literal (neg_ℤ (pos 3)))
        (effects_from (increase (num_of current_player 0) (literal (pos 1)) ∷ [])) ∷ [])).table.numbers
        ≡ pos 0 ∷ pos 0 ∷ pos 0 ∷ [] }
    ensures above { (after_effects (repeat (literal (pos 5000))
        (effects_from (increase (num_of current_player 0) (literal (pos 1)) ∷ [])) ∷ [])).table.numbers
        ≡ pos 0 ∷ pos 0 ∷ pos 1000 ∷ [] }
{}

/// Cards move one by one, references stay, and a domain is taken once.
pub fn moves()
    ensures all { (after_effects (move_all stock top (loc_at current_team 2 0) ∷ [])).table.lists
        ≡ [] ∷ [] ∷ (0 ∷ 1 ∷ 2 ∷ 3 ∷ []) ∷ [] ∷ [] }
    ensures under { (after_effects (move_all stock bottom (loc_at current_team 2 0) ∷ [])).table.lists
        ≡ [] ∷ [] ∷ (3 ∷ 2 ∷ 1 ∷ 0 ∷ []) ∷ [] ∷ [] }
    ensures once { (after_effects (for_each (each_card stock) 1
        (effects_from (move (top_card stock) bottom (loc_at game 0 0) ∷ [])) ∷ [])).table.lists
        ≡ (0 ∷ 1 ∷ 2 ∷ 3 ∷ []) ∷ [] ∷ [] ∷ [] ∷ [] }
    ensures noted { (after_effects (remember (top_card stock) top (loc_at game 1 0)
        ∷ remember (bottom_card stock) top (loc_at game 1 0) ∷ move (top_card seen) top (loc_at current_team 2 0)
        ∷ forget (bottom_card seen) ∷ [])).table.lists
        ≡ (0 ∷ 1 ∷ 2 ∷ 3 ∷ []) ∷ (0 ∷ []) ∷ [] ∷ [] ∷ [] }
{}

/// Cycles change the innermost stage of their class.
pub fn cycle_effects()
    ensures player { map (λ f. f.named) (after_effects (next_is current_player ∷ [])).frames ≡ Some 2 ∷ None ∷ [] }
    ensures team { map (λ f. f.named)
        (after_effects (for_each each_player 0 (effects_from (next_is (team_of_var 0) ∷ [])) ∷ [])).frames
        ≡ None ∷ Some 0 ∷ [] }
    ensures turned { map (λ f. f.back) (after_effects (turn_round ∷ [])).frames ≡ false ∷ true ∷ [] }
{}

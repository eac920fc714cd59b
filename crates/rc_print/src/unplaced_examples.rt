//! Sheets without offsets and bare forms, computed on cases that are known. No function here does anything: each has a
//! contract that the check proves by computing.
ghost use Rattle.std.specs.Prelude.{◌≡◌, ◌∷◌, [], codes, replicate};
ghost use Rattle.rc_base.specs.Tree.{word, list, nil, cons};
ghost use Rattle.rc_sheet_spec.specs.Sheet.{top, game, who_var, card_var, top_card, max_card, cards_in, filtered, known_in, not_of, any_of, each_card, each_group, if_alt, any_alt, move, when, peek};
ghost use Rattle.rc_sheet_spec.specs.Lists.{effects_from};
ghost use Rattle.rc_sheet_spec.specs.PartExamples.{swapped, loc_at, truth};
ghost use Rattle.rc_sheet_spec.specs.ClauseExamples.{shuffled_item};
ghost use Rattle.rc_print.specs.Unplaced.{unplaced, card_unplaced, effect_unplaced, alt_unplaced, IsBare};

/// Each location loses its offset, however deep it stands, and nothing else changes.
pub fn offsets_taken_away()
    ensures sheet { unplaced swapped ≡ record swapped { items = shuffled_item 0 } }
    ensures card { card_unplaced (max_card (filtered (cards_in (loc_at game 0 7)) 1 truth) 2)
        ≡ max_card (filtered (cards_in (loc_at game 0 0)) 1 truth) 2 }
    ensures effect { effect_unplaced
        (when (not_of (any_of (each_card (cards_in (loc_at (who_var 0) 1 20))) 1 truth))
        (effects_from (move (top_card (cards_in (loc_at game 0 30))) top (loc_at game 2 40) ∷ [])))
        ≡ when (not_of (any_of (each_card (cards_in (loc_at (who_var 0) 1 0))) 1 truth))
        (effects_from (move (top_card (cards_in (loc_at game 0 0))) top (loc_at game 2 0) ∷ [])) }
    ensures peeked { effect_unplaced (peek (known_in (loc_at game 0 30)) (who_var 0))
        ≡ peek (known_in (loc_at game 0 0)) (who_var 0) }
    ensures alternative { alt_unplaced (any_alt (each_group (cards_in (loc_at game 0 9)) 3) 1
        (if_alt truth (effects_from (move (card_var 0) top (loc_at game 0 12) ∷ []))))
        ≡ any_alt (each_group (cards_in (loc_at game 0 0)) 3) 1
        (if_alt truth (effects_from (move (card_var 0) top (loc_at game 0 0) ∷ []))) }
{}

/// The words of a bare form are atoms, and it has no offsets.
pub fn bare_forms()
    ensures bare { IsBare (list (cons (word (codes "a") 0 0) (cons (list nil 0 0) nil)) 0 0) }
    ensures no_byte { IsBare (word [] 0 0) → ⊥ }
    ensures too_long { IsBare (word (replicate 65 97) 0 0) → ⊥ }
    ensures no_part { IsBare (word (codes "a)") 0 0) → ⊥ }
    ensures offset { IsBare (list (cons (word (codes "a") 1 0) nil) 0 0) → ⊥ }
    ensures end { IsBare (list nil 0 2) → ⊥ }
{}

//! Definitions of texts and points, computed on a few. No function here does anything: each has a contract that the
//! check proves by computing both sides.
ghost use Rattle.std.specs.Prelude.{◌≡◌, [], ◌∷◌, codes, pos, neg_ℤ, Some, None};
ghost use Rattle.rc_base.specs.Examples.{three_entries};
ghost use Rattle.rc_base.specs.Literal.{natural, integer};
ghost use Rattle.rc_base.specs.Deck.{IsBefore, value_at, points_of};
ghost use Rattle.rc_base.specs.Token.{tokens, opening, closing, atom, odd};

/// White space and comments part tokens, and an atom runs on to the first byte that can't stand in it.
pub fn cut_texts()
    ensures parts { tokens (codes "(ab, 'c)") ≡ opening 0 ∷ atom 1 (codes "ab") ∷ atom 5 (codes "'c") ∷ closing 7 ∷ [] }
    ensures comment { tokens (codes "a;b)\n(") ≡ atom 0 (codes "a") ∷ opening 5 ∷ [] }
    ensures odd { tokens (1 ∷ 97 ∷ 127 ∷ 59 ∷ 127 ∷ []) ≡ odd 0 ∷ atom 1 (codes "a") ∷ odd 2 ∷ [] }
{}

/// The byte that ends an atom begins what follows it, and bytes outside 33 to 126 stand in none.
pub fn cut_at_edges()
    ensures ends_of_parts { tokens (32 ∷ 33 ∷ 126 ∷ 32 ∷ []) ≡ atom 1 (33 ∷ 126 ∷ []) ∷ [] }
    ensures odd_control { tokens (11 ∷ 31 ∷ 128 ∷ []) ≡ odd 0 ∷ odd 1 ∷ odd 2 ∷ [] }
    ensures odd_behind_atom { tokens (97 ∷ 0 ∷ 98 ∷ []) ≡ atom 0 (codes "a") ∷ odd 1 ∷ atom 2 (codes "b") ∷ [] }
    ensures list_behind_atom { tokens (codes "a(b)c")
        ≡ atom 0 (codes "a") ∷ opening 1 ∷ atom 2 (codes "b") ∷ closing 3 ∷ atom 4 (codes "c") ∷ [] }
    ensures comment_to_end { tokens (codes "a;b (c") ≡ atom 0 (codes "a") ∷ [] }
    ensures carriage_return { tokens (59 ∷ 40 ∷ 13 ∷ 40 ∷ 10 ∷ 41 ∷ []) ≡ closing 5 ∷ [] }
{}

/// One to eighteen digits, with a sign in a sheet alone.
pub fn literals()
    ensures most_digits { natural (codes "000000000000000012") ≡ Some 12 }
    ensures more_digits { natural (codes "0000000000000000012") ≡ None }
    ensures signed { natural (codes "-1") ≡ None }
    ensures negative { integer (codes "-000000000000000012") ≡ Some (neg_ℤ (pos 12)) }
    ensures negative_zero { integer (codes "-0") ≡ Some (pos 0) }
    ensures sign_alone { integer (codes "-") ≡ None }
    ensures two_signs { integer (codes "--1") ≡ None }
    ensures plus { integer (codes "+1") ≡ None }
    ensures nothing { integer [] ≡ None }
{}

/// The sum of the entries that a face fits, each once, clamped at the end.
pub fn worths_of_faces()
    ensures first_pair { value_at ((0, 5) ∷ (1, 6) ∷ []) 1 ≡ Some 6 }
    ensures no_pair { value_at ((0, 5) ∷ []) 5 ≡ None }
    ensures two_entries { points_of three_entries ((0, 1) ∷ (1, 2) ∷ []) ≡ pos 999999993 }
    ensures clamped { points_of three_entries ((0, 2) ∷ []) ≡ pos 1000000000 }
    ensures other_attribute { points_of three_entries ((2, 1) ∷ []) ≡ pos 0 }
    ensures shorter_path { IsBefore (0 ∷ []) (0 ∷ 0 ∷ []) }
    ensures first_choice { IsBefore (0 ∷ 9 ∷ []) (1 ∷ []) }
    ensures same_path { IsBefore (1 ∷ 0 ∷ []) (1 ∷ 0 ∷ []) → ⊥ }
{}

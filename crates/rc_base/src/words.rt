//! The definitions of words, computed on a few. The function does nothing: its contract is proved by computing.
ghost use Rattle.std.specs.Prelude.{◌≡◌, ◌∷◌, [], codes, true, false};
ghost use Rattle.rc_base.specs.Words.{is_variable, with_word, different};

/// A word that stands twice counts where it stands first, and one more word goes last where it is new. A variable
/// begins with a quote.
pub fn words_in_order()
    ensures first { different (codes "B" ∷ codes "A" ∷ codes "B" ∷ codes "C" ∷ codes "A" ∷ [])
        ≡ codes "B" ∷ codes "A" ∷ codes "C" ∷ [] }
    ensures new { with_word (codes "B" ∷ codes "A" ∷ []) (codes "C") ≡ codes "B" ∷ codes "A" ∷ codes "C" ∷ [] }
    ensures known { with_word (codes "B" ∷ codes "A" ∷ []) (codes "B") ≡ codes "B" ∷ codes "A" ∷ [] }
    ensures variable { is_variable (codes "'P") ≡ true }
    ensures plain { is_variable (codes "P'") ≡ false }
    ensures none { is_variable [] ≡ false }
{}

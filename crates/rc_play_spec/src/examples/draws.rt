//! Draws, computed. No function here does anything.
ghost use Rattle.std.specs.Prelude.{◌≡◌, ◌∷◌, [], ℕ};
ghost use Rattle.rc_play_spec.specs.Draws.{key32, word_of, scaled, pick_of, permuted_by, permuted};

/// With words that are all 0 the first item becomes the last.
pub fn orders()
    ensures zeros { permuted_by {X = ℕ} (λ k. 0) 0 4 (1 ∷ 2 ∷ 3 ∷ 4 ∷ []) ≡ 2 ∷ 3 ∷ 4 ∷ 1 ∷ [] }
    ensures largest { permuted_by {X = ℕ} (λ k. 4294967295) 0 4 (1 ∷ 2 ∷ 3 ∷ 4 ∷ []) ≡ 1 ∷ 2 ∷ 3 ∷ 4 ∷ [] }
    ensures key { key32 0 1 2 0 ≡ 0 ∷ 0 ∷ 0 ∷ 0 ∷ 0 ∷ 0 ∷ 0 ∷ 0 ∷ 1 ∷ 0 ∷ 0 ∷ 0 ∷ 0 ∷ 0 ∷ 0 ∷ 0 ∷ 2 ∷ 0 ∷ 0 ∷ 0 ∷ 0 ∷ 0
        ∷ 0 ∷ 0 ∷ 0 ∷ 0 ∷ 0 ∷ 0 ∷ 0 ∷ 0 ∷ 0 ∷ 0 ∷ [] }
    ensures half { scaled 2147483648 5 ≡ 2 }
{}

/// The first word of the key of zeros is that of ChaCha8.
pub fn words()
    ensures first { word_of (key32 0 0 0 0) 0 ≡ 804192318 }
    ensures pick { pick_of (key32 0 0 0 0) 100 ≡ 18 }
    ensures two { permuted {X = ℕ} (key32 0 0 0 0) (1 ∷ 2 ∷ []) ≡ 2 ∷ 1 ∷ [] }
{}

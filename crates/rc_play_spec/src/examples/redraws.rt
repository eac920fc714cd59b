//! Redrawn tables, computed on a small moment of a match. No function here does anything.
ghost use Rattle.std.specs.Prelude.{◌≡◌, ◌∷◌, []};
ghost use Rattle.rc_play_spec.specs.View.{view_of};
ghost use Rattle.rc_play_spec.specs.Redraw.{seen_of, unused, redrawn};
ghost use Rattle.rc_play_spec.specs.Table.{IsSound};
ghost use Rattle.rc_play_spec.specs.SmallMoment.{small_shape, small_table, small_control};

/// Player 1 holds the second 11 of spades, which player 0 has peeked at, and the 12 of hearts, and sees the pile and
/// the references. Player 0 knows one card less.
pub fn small_redraws()
    ensures seen { seen_of small_shape (view_of small_shape 0 small_table small_control) ≡ 0 ∷ 1 ∷ 2 ∷ 3 ∷ [] }
    ensures others { unused small_shape (0 ∷ 1 ∷ 2 ∷ 3 ∷ []) ≡ 4 ∷ [] }
    ensures lists { (redrawn small_shape (view_of small_shape 0 small_table small_control) (4 ∷ [])).lists
        ≡ (0 ∷ 1 ∷ 2 ∷ []) ∷ [] ∷ (3 ∷ 4 ∷ []) ∷ [] ∷ [] ∷ [] ∷ (4 ∷ 1 ∷ []) ∷ [] }
    ensures known { (redrawn small_shape (view_of small_shape 0 small_table small_control) (4 ∷ [])).marks
        ≡ [] ∷ [] ∷ [] ∷ (0 ∷ []) ∷ [] ∷ [] }
    ensures unknown { (redrawn small_shape (view_of small_shape 1 small_table small_control) []).marks
        ≡ [] ∷ [] ∷ [] ∷ [] ∷ [] ∷ [] }
    ensures all_seen { (redrawn small_shape (view_of small_shape 1 small_table small_control) []).lists
        ≡ (0 ∷ 1 ∷ 2 ∷ []) ∷ [] ∷ (3 ∷ 4 ∷ []) ∷ [] ∷ [] ∷ [] ∷ (4 ∷ 1 ∷ []) ∷ [] }
{}

/// There are sound tables.
pub fn small_table_sound()
    ensures { IsSound small_shape small_table }
{}

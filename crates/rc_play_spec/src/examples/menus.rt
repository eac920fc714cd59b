//! Menus and views, computed on a small moment of a match. No function here does anything.
ghost use Rattle.std.specs.Prelude.{◌≡◌, ◌∷◌, [], pos, Some, None};
ghost use Rattle.rc_sheet_spec.specs.Sheet.{game, current_player, who_var, card_var, top_card, literal, eq_int, eq_card, has_value, ne, no_effect, each_player, each_card, each_group, do_alt, if_alt, any_alt};
ghost use Rattle.rc_play_spec.specs.Menu.{spots_of, paths_of};
ghost use Rattle.rc_play_spec.specs.Shape.{face_number};
ghost use Rattle.rc_play_spec.specs.View.{with_faces, partly, view_of, view_scene};
ghost use Rattle.rc_play_spec.specs.SmallMoment.{small, small_sheet, small_shape, small_table, small_control, cards_of};

/// An outer binding varies slowest, and what its guard refuses isn't listed.
pub fn menu_items()
    ensures always { spots_of small [] (do_alt no_effect) ≡ [] ∷ [] }
    ensures never { spots_of small [] (if_alt (eq_int (literal (pos 0)) (literal (pos 1))) no_effect) ≡ [] }
    ensures cards { spots_of small [] (any_alt (each_card (cards_of current_player 1)) 0 (do_alt no_effect))
        ≡ (0 ∷ []) ∷ (1 ∷ []) ∷ [] }
    ensures nested { spots_of small [] (any_alt each_player 0 (any_alt (each_card (cards_of game 0)) 1
        (if_alt (ne (eq_card (card_var 1) (top_card (cards_of (who_var 0) 1)))) no_effect)))
        ≡ (0 ∷ 0 ∷ []) ∷ (0 ∷ 1 ∷ []) ∷ (0 ∷ 2 ∷ []) ∷ (1 ∷ 0 ∷ []) ∷ (1 ∷ 1 ∷ []) ∷ (1 ∷ 2 ∷ []) ∷ (2 ∷ 0 ∷ [])
        ∷ (2 ∷ 1 ∷ []) ∷ (2 ∷ 2 ∷ []) ∷ [] }
    ensures groups { spots_of small []
        (any_alt (each_group (cards_of game 0) 1) 0 (any_alt (each_card (cards_of game 3)) 1 (do_alt no_effect)))
        ≡ (0 ∷ 0 ∷ []) ∷ (0 ∷ 1 ∷ []) ∷ (1 ∷ 0 ∷ []) ∷ (1 ∷ 1 ∷ []) ∷ [] }
{}

/// Player 1 sees its own hand and what is open, and player 0 one card of that hand, which is marked for it.
pub fn views()
    ensures same_faces { face_number small_shape 3 ≡ 1 }
    ensures own { (view_of small_shape 1 small_table small_control).sights
        ≡ with_faces (0 ∷ 1 ∷ 2 ∷ []) ∷ partly [] ∷ with_faces (1 ∷ 4 ∷ []) ∷ partly [] ∷ partly [] ∷ partly []
        ∷ with_faces (4 ∷ 1 ∷ []) ∷ [] }
    ensures another { (view_of small_shape 0 small_table small_control).sights
        ≡ with_faces (0 ∷ 1 ∷ 2 ∷ []) ∷ with_faces [] ∷ partly (Some 1 ∷ None ∷ []) ∷ partly [] ∷ partly [] ∷ partly []
        ∷ with_faces (4 ∷ 1 ∷ []) ∷ [] }
    ensures from_view { paths_of (view_scene small_sheet small_shape (view_of small_shape 1 small_table small_control))
        (any_alt (each_card (cards_of current_player 1)) 0 (if_alt (has_value (card_var 0) 0 12) no_effect) ∷ [])
        ≡ (0 ∷ 1 ∷ []) ∷ [] }
{}

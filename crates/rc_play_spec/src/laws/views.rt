//! Laws of views. No function here does anything: a crate above gets a law by calling its function.
ghost use Rattle.rc_play_spec.specs.ViewLaws.{EqualViewsAlike, KnownOfView, AlikeEqualKnown};

/// Two views of a seat are equal exactly where the states are alike to it.
pub fn views_are_equal_where_states_are_alike()
    ensures { EqualViewsAlike }
{}

/// What the mover knows of a location is a function of its view, and so the same at alike states.
pub fn known_cards_are_functions_of_views()
    ensures of_view { KnownOfView }
    ensures same { AlikeEqualKnown }
{}

//! Laws of standings. No function here does anything: a crate above gets a law by calling its function.
ghost use Rattle.rc_play_spec.specs.StandingLaws.{EachRanksOnce, StandingsAreInOrder, StandingsTellPoints, PlacesCountAhead};

/// Each strategy stands once in the standings, by its points and then by its number, with its points and its place.
pub fn standings_are_in_order()
    ensures once { EachRanksOnce }
    ensures order { StandingsAreInOrder }
    ensures points { StandingsTellPoints }
    ensures places { PlacesCountAhead }
{}

//! Laws of plays. No function here does anything: a crate above gets a law by calling its function.
ghost use Rattle.rc_play_spec.specs.StepLaws.{EveryPlayEnds, ItemsLeadToEnd};
ghost use Rattle.rc_play_spec.specs.MatchLaws.{PicksAreTaken};

/// Every play ends.
pub fn every_play_ends()
    ensures { EveryPlayEnds }
{}

/// The items of a play lead to its end.
pub fn items_lead_to_the_end()
    ensures { ItemsLeadToEnd }
{}

/// Each pick of a play is what the chooser takes at the stop to which the items before it lead.
pub fn picks_are_those_of_the_chooser()
    ensures { PicksAreTaken }
{}

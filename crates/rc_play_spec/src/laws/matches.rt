//! Laws of matches by keys. No function here does anything: a crate above gets a law by calling its function.
ghost use Rattle.rc_play_spec.specs.StepLaws.{EveryMatchHasRecord};
ghost use Rattle.rc_play_spec.specs.MatchLaws.{EachMatchRecorded, MatchPicksAreTaken, AlikeSamePicks, DecisionsAtSite, EveryPickFits, MatchLeadsToEnd, FrontsAreReached};

/// Every match has a record, and a house text has one for each match.
pub fn every_match_has_a_record()
    ensures record_there { EveryMatchHasRecord }
    ensures each { EachMatchRecorded }
{}

/// Each pick is what its seat's strategy chooses at the stop before it.
pub fn picks_are_choices()
    ensures { MatchPicksAreTaken }
{}

/// Decisions of one seat, strategy and seed at alike states have the same item, in whatever matches of one sheet and
/// turn limit they stand.
pub fn alike_decisions_have_one_item()
    ensures { AlikeSamePicks }
{}

/// At a decision the configuration is the one at its control's site.
pub fn decisions_stand_at_their_sites()
    ensures { DecisionsAtSite }
{}

/// Each pick is an item of its menu, the items of a match lead to its end, and those before a pick lead to its
/// decision.
pub fn picks_are_items()
    ensures item { EveryPickFits }
    ensures end { MatchLeadsToEnd }
    ensures fronts { FrontsAreReached }
{}

//! Laws of searches. No function here does anything: a crate above gets a law by calling its function.
ghost use Rattle.rc_play_spec.specs.SearchLaws.{BestComesFirst, TwoTeamsAlternate};
ghost use Rattle.rc_play_spec.specs.RivalLaws.{SearchesItems, RivalsHaveRecords, EachRivalRecorded};
ghost use Rattle.rc_play_spec.specs.RivalLaws.{AlikeSameSearches};

/// Of lists of rank points the first one of those in which a player has the most is the best.
pub fn best_points_come_first()
    ensures { BestComesFirst }
{}

/// In a game of two teams what an item is worth to a seat can be told without the points of the others.
pub fn two_teams_alternate()
    ensures { TwoTeamsAlternate }
{}

/// A search chooses an item of the menu.
pub fn searches_choose_items()
    ensures { SearchesItems }
{}

/// Every match in which a search plays has a record.
pub fn every_rival_match_has_a_record()
    ensures record_there { RivalsHaveRecords }
    ensures each { EachRivalRecorded }
{}

/// Decisions of the searching strategy, of one seat and seed, at alike states have one item.
pub fn alike_searches_have_one_item()
    ensures { AlikeSameSearches }
{}

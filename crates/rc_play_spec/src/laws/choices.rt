//! Laws of what strategies choose. No function here does anything: a crate above gets a law by calling its function.
ghost use Rattle.rc_play_spec.specs.ChoiceLaws.{EveryPlayoutEnds, TalliesItems, TotalsBounded, ChoosesItems, SizeOfView, SizeRedrawn, AlikeSameChoice};

/// Every playout ends.
pub fn every_playout_ends()
    ensures { EveryPlayoutEnds }
{}

/// A tally has a total for each item, and each is within its bound.
pub fn tallies_are_bounded()
    ensures items { TalliesItems }
    ensures bounded { TotalsBounded }
{}

/// A strategy chooses an item of the menu.
pub fn choices_are_items()
    ensures { ChoosesItems }
{}

/// How many items the mover has is a function of its view, and the same in every redrawn table.
pub fn menu_sizes_are_functions_of_views()
    ensures size { SizeOfView }
    ensures redrawn { SizeRedrawn }
{}

/// At alike states one seat, strategy and seed of the seats choose one item, in whatever match.
pub fn choices_are_functions_of_views()
    ensures { AlikeSameChoice }
{}

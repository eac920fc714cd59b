//! Laws of paths into a sheet. No function here does anything: a crate above gets a law by calling its function.
ghost use Rattle.rc_play_spec.specs.StepLaws.{PathPassesItem, PathAtRound, PathEntersBody, PathEndsBody, SiteFixesLeft, SiteFixesAlternatives};

/// What a path leaves to run is what the cases of a step say.
pub fn paths_leave_what_steps_leave()
    ensures passes { PathPassesItem }
    ensures at_round { PathAtRound }
    ensures enters { PathEntersBody }
    ensures ends { PathEndsBody }
{}

/// The number of a choice fixes what is left at it and what it offers.
pub fn sites_fix_choices()
    ensures left { SiteFixesLeft }
    ensures alternatives { SiteFixesAlternatives }
{}

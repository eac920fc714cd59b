//! Laws of controls. No function here does anything: a crate above gets a law by calling its function.
ghost use Rattle.rc_play_spec.specs.ControlLaws.{ControlsFit, StagesAreFew, PathsAreShallow, FramesAreFew, TurnsAreWithin};

/// At each decision of a match of a well formed sheet the control fits its site.
pub fn controls_fit_their_sites()
    ensures { ControlsFit }
{}

/// At most 63 stages stand inside one another in a well formed sheet, and so no more are open at one time.
pub fn few_stages_are_open()
    ensures stages { StagesAreFew }
    ensures paths { PathsAreShallow }
    ensures frames { FramesAreFew }
{}

/// The turn count is never more than the turn limit.
pub fn turns_stay_within_the_limit()
    ensures { TurnsAreWithin }
{}

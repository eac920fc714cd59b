//! Laws of steps and stops. No function here does anything: a crate above gets a law by calling its function.
ghost use Rattle.rc_play_spec.specs.StepLaws.{ComesToStop, StepKeepsStop, StepTakesEffort, StopsAgain, StopsThere, SiteAtDecision, StartHasFrames, StopHasFrames, StepHasFrames, ChoiceHasFrames};

/// Every configuration comes to a stop.
pub fn configurations_come_to_stops()
    ensures { ComesToStop }
{}

/// A step leaves the stop that follows as it is, and takes from the effort to it.
pub fn steps_keep_stops()
    ensures keeps { StepKeepsStop }
    ensures less { StepTakesEffort }
{}

/// A stop that is asked again is the same. What holds there is what its name says.
pub fn stops_stay()
    ensures again { StopsAgain }
    ensures there { StopsThere }
    ensures site { SiteAtDecision }
{}

/// The frames are those of the open stages at the start, after each step and choice, and at each stop.
pub fn frames_are_those_of_open_stages()
    ensures start { StartHasFrames }
    ensures stop { StopHasFrames }
    ensures step { StepHasFrames }
    ensures choice_made { ChoiceHasFrames }
{}

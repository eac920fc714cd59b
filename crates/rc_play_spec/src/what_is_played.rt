//! Laws of what is played. No function here does anything: a crate above gets a law by calling its function.
ghost use Rattle.rc_play_spec.specs.PlayedBack.{PlayedIsHouseText, PlayedIsToldBack, PlayedIsRead, PlayedIsJudgedLegal, PlayedStandsBehind};

/// What a plan's keys make of its matches is in the ranges of house texts, and is read back off its bytes.
pub fn what_is_played_is_read_back()
    ensures house { PlayedIsHouseText }
    ensures read { PlayedIsRead }
{}

/// What is read off those bytes is legal, and the judge finds no illegal line in it.
pub fn what_is_played_is_judged_legal()
    ensures { PlayedIsJudgedLegal }
{}

/// A source that is read to its end may have its house text behind it, in a new line: it is read as the same forms, and
/// the rest is that house text.
pub fn what_is_played_may_stand_behind()
    ensures { PlayedStandsBehind }
{}

/// In either format what is played has a text, which is read back, and the judge finds no illegal line in it.
pub fn what_is_played_is_told_back()
    ensures { PlayedIsToldBack }
{}

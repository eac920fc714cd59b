//! Laws of the judge. No function here does anything: a crate above gets a law by calling its function.
ghost use Rattle.rc_play_spec.specs.JudgeLaws.{LegalExactly, OnePassJudges, PlayGoesOn};
ghost use Rattle.rc_play_spec.specs.PlayedLaws.{HouseTextIsPlayed, PlayedIsLegal, PlayedIsPassed};

/// A play goes on from where its first items lead.
pub fn plays_go_on()
    ensures { PlayGoesOn }
{}

/// One pass finds the first illegal line.
pub fn one_pass_judges()
    ensures { OnePassJudges }
{}

/// No line is illegal exactly where the text is legal.
pub fn legal_exactly()
    ensures { LegalExactly }
{}

/// What a plan's keys make of its matches is legal, and the judge finds no illegal line in it.
pub fn what_is_played_is_legal()
    ensures text { HouseTextIsPlayed }
    ensures legal { PlayedIsLegal }
    ensures passed { PlayedIsPassed }
{}

//! Laws of logs. No function here does anything: a crate above gets a law by calling its function.
ghost use Rattle.rc_log_spec.specs.Laws.{LogIsRead, ReadIsLog, FaultIsFirst, FirstIsFault, ViewsHaveLog, LogHasViews};
ghost use Rattle.rc_log_spec.specs.Laws.{LogsTellViews};
ghost use Rattle.rc_log_spec.specs.MatchLaws.{RecordsAreOfPlays, RecordsTellViews, ChoicesHaveViews, MatchViewsCount};
ghost use Rattle.rc_log_spec.specs.MatchLaws.{MatchLogIsRead};

/// A log is read exactly where its text stands.
pub fn logs_are_read()
    ensures again { LogIsRead }
    ensures only { ReadIsLog }
{}

/// A fault is exactly at the first line that no log goes on with.
pub fn faults_are_first()
    ensures only { FaultIsFirst }
    ensures again { FirstIsFault }
{}

/// A log tells the first views and how many there are, and nothing else.
pub fn logs_tell_views()
    ensures has { ViewsHaveLog }
    ensures of { LogHasViews }
    ensures tell { LogsTellViews }
{}

/// The record of a match is that of a play, and tells where its views are.
pub fn records_tell_views()
    ensures plays { RecordsAreOfPlays }
    ensures views { RecordsTellViews }
{}

/// A seat has a view for each choice of a match, and each of them counts as a view of a log: it may stand in one.
pub fn views_of_matches_count()
    ensures each { ChoicesHaveViews }
    ensures all { MatchViewsCount }
{}

/// The log of a match is read, and tells what the seat saw in it.
pub fn logs_of_matches_are_read()
    ensures { MatchLogIsRead }
{}

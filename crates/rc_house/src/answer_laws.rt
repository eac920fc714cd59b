//! Laws of what commands answer. No function here does anything: its contract is the law.
ghost use Rattle.rc_house.specs.AnswerLaws.{AnswersAreAlike, OneAnswer, PrintedAgain, SomeAnswer, TextsAreTheSame};
ghost use Rattle.rc_house.specs.PlayedLaws.{PlayedIsAnsweredLegal, PlayedIsChecked, PlayedIsLegal};
ghost use Rattle.rc_house.specs.PlayedLaws.{PlayedIsMeasured, PlayedIsMigrated};
ghost use Rattle.rc_house.specs.Plays.{WrittenIsPlayed};
ghost use Rattle.rc_house.specs.WatchedLaws.{AbsentExactly, WatchedIsRead};

use rc_log_spec::logs_of_matches_are_read;

/// A command has at most one answer to a source, where one worker runs it.
pub fn one_answer()
    ensures { OneAnswer }
{}

/// The answers of a command to a source differ in their notes alone, however many workers run it.
pub fn answers_are_alike()
    ensures { AnswersAreAlike }
{}

/// Each command has an answer to each source.
pub fn some_answer()
    ensures { SomeAnswer }
{}

/// What is written of the matches of a source in one format is the same however many workers play, and however much is
/// remembered.
pub fn texts_are_the_same()
    ensures { TextsAreTheSame }
{}

/// What `sheet` answers to a source, it answers to that text too: what it writes is in canonical form.
pub fn a_printed_sheet_is_printed_again()
    ensures { PrintedAgain }
{}

/// The house text of an accepted sheet and plan is judged legal. So `check` answers `legal` to these with their house
/// text behind them, and to a source with what `play` writes for it behind it in a new line.
pub fn what_is_played_is_judged_legal()
    ensures legal { PlayedIsLegal }
    ensures answered { PlayedIsAnsweredLegal }
    ensures checked { PlayedIsChecked }
{}

/// To a source with what `play` writes for it behind it in a new line, in either format, `migrate` answers what `play`
/// writes for that source in format 2.
pub fn what_is_played_is_migrated()
    ensures { PlayedIsMigrated }
{}

/// What `play` writes for a source tells each match of its plan: a play that the sheet allows for its seeded shuffles,
/// up to its end or the turn limit, in which each choice is its strategy's function of its seat's view and of the seed
/// of the seats.
pub fn what_is_written_is_played()
    ensures { WrittenIsPlayed }
{}

/// To a source with what `play` writes for it behind it in a new line, in either format, `measure` answers the measures
/// of the matches that were played.
pub fn what_is_played_is_measured()
    ensures { PlayedIsMeasured }
{}

/// What `watch` writes for a source is read as the log of the seat in the match, and so tells what the seat saw there.
pub fn what_is_watched_is_read()
    ensures { WatchedIsRead }
{
    logs_of_matches_are_read();
}

/// `watch` refuses a source since the seat or the match is absent exactly where sheet and plan are accepted and that is
/// so.
pub fn absent_exactly()
    ensures { AbsentExactly }
{}

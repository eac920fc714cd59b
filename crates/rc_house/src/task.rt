//! What commands do with a source.
ghost use Rattle.std.specs.Prelude.{◌≡◌, ◌≤◌};
ghost use Rattle.rc_base.specs.Limits.{longest_text};
ghost use Rattle.rc_house.specs.declared.task.Task.{Task};
ghost use Rattle.rc_house.specs.Task.{limit_of, wanted};

use crate::options::Options;
use crate::rival::Rival;
use rc_base::limits::{LONGEST_SOURCE, LONGEST_TEXT};

/// What a command does with its source.
#[derive(Clone, Copy, Debug, PartialEq, Eq, Hash)]
pub enum Task {
    /// Plays the matches of a sheet and a plan, by these options.
    Play(Options),
    /// Judges a transcript of a sheet and a plan.
    Check,
    /// Prints a sheet.
    Sheet,
    /// Tells a transcript of a sheet and a plan in format 2.
    Migrate,
    /// Tells what a seat sees in a match of a sheet and a plan.
    Watch { seat: u8, number: u32 },
    /// Tells the measures of a transcript of a sheet and a plan.
    Measure,
    /// Plays the matches of a sheet and a plan with this search for one of its strategies.
    Rival(Rival),
}

impl Task {
    /// How many lists it reads from the front of its source.
    pub fn wanted_lists(self) -> usize
        ensures { result ≡ wanted self }
    {
        match self {
            Task::Play(_) => 2,
            Task::Check => 2,
            Task::Sheet => 1,
            Task::Migrate => 2,
            Task::Watch { .. } => 2,
            Task::Measure => 2,
            Task::Rival(_) => 2,
        }
    }

    /// The most bytes that it takes from its source.
    pub fn limit(self) -> usize
        ensures limit { result ≡ limit_of self }
        ensures few { result ≤ longest_text }
    {
        match self {
            Task::Play(_) => LONGEST_SOURCE,
            Task::Check => LONGEST_TEXT,
            Task::Sheet => LONGEST_SOURCE,
            Task::Migrate => LONGEST_TEXT,
            Task::Watch { .. } => LONGEST_SOURCE,
            Task::Measure => LONGEST_TEXT,
            Task::Rival(_) => LONGEST_SOURCE,
        }
    }
}

//! The commands, from their words to the end: `play` plays a sheet by a plan, `check` judges a transcript of such
//! plays, `migrate` tells one in format 2, `measure` tells its measures, `watch` tells what a seat sees in a match,
//! `rival` has one strategy search, `sheet` prints a sheet, and `bench` plays a game of its own.
//!
//! There are four parts. What a command is: its words, what it does with a source, and how it may end. What a source
//! is prepared to before anybody plays: a sheet and a plan that are accepted, or why they aren't. What answers: texts
//! that are printed, judged, or played where no worker is to be asked, and the laws of answers. What runs: it reads the
//! source, has its matches played, and hands the answer to the ports.
//!
//! Stands on rc_search, rc_plan, rc_measure, rc_seatlog, rc_series, rc_judge and rc_trick.
#![tactic(auto)]

// what a command is
mod command;
mod note;
mod number;
mod option;
mod options;
mod reader;
mod refusal;
mod rival;
mod settings;
mod status;
mod table_examples;
mod task;
mod word_laws;

// what a source is prepared to
mod accepting;
mod answer;
mod benching;
mod planning;

// what answers
mod answer_laws;
mod naming;
mod printing;
mod rival_matches;
mod rivalling;
mod transcript;
mod watched_match;
mod watching;

// what runs
mod handing;
mod running;

pub use answer_laws::{
    a_printed_sheet_is_printed_again, absent_exactly, answers_are_alike, one_answer, some_answer,
    texts_are_the_same, what_is_played_is_judged_legal, what_is_played_is_measured,
    what_is_played_is_migrated, what_is_watched_is_read, what_is_written_is_played,
};
pub use command::{Command, command_of};
pub use handing::refuse;
pub use rc_judge::Why;
pub use rc_plan::{PlanFail, PlanFault, PlanKind, plan_of};
pub use rc_series::play_shared;
pub use refusal::Refusal;
pub use rival_matches::rivals_of;
pub use running::{run, run_alone};
pub use status::{SourceKind, Status};
pub use table_examples::{codes_of_statuses, lines_of_statuses, sources_of_tasks};
pub use task::Task;
pub use watched_match::watched_log;
pub use word_laws::words_are_one_command;

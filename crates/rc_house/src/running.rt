//! The calls that a program makes: they run a command from its words to its end.
ghost use Rattle.std.specs.Prelude.{◌≡◌, ◌<◌, ◌≤◌, ◌+◌, ℕ, [], map, true, string_bytes, IfOk, IfErr};
ghost use Rattle.rc_play_spec.specs.MatchLaws.{AlikeSamePicks};
ghost use Rattle.rc_rules.specs.Plan.{plan_seen};
ghost use Rattle.rc_text.specs.House.{Fits};
ghost use Rattle.rc_play_spec.specs.Reading.{lines_in};
ghost use Rattle.rc_house.specs.Command.{IsCommand, options_of, workers_of};
ghost use Rattle.rc_house.specs.Words.{is_named};
ghost use Rattle.rc_house.specs.declared.note.Note.TheVariants.{Looks};
ghost use Rattle.rc_house.specs.Answer.{IsGame};
ghost use Rattle.rc_house.specs.Task.{CanSearch};
ghost use Rattle.rc_play_spec.specs.RivalLaws.{AlikeSameSearches};
ghost use Rattle.rc_house.specs.Ends.{Ends, RefusesMany, Runs};
ghost use Rattle.rc_house.specs.AnswerLaws.{TextsAreTheSame};
ghost use Rattle.rc_house.specs.PlayedLaws.{PlayedIsChecked, PlayedIsMeasured, PlayedIsMigrated};
ghost use Rattle.rc_house.specs.Plays.{WrittenIsPlayed};
ghost use Rattle.rc_house.specs.WatchedLaws.{AbsentExactly, WatchedIsRead};
ghost use Rattle.rc_house.specs.Players.{CanPlay};
ghost use Rattle.rc_house.specs.Port.{between, moment};
ghost use Rattle.rc_house.specs.Running.{AnswersCommand, ArePlayedBy, HasWords, IsSeriesFor, NamesNone};
ghost use Rattle.rc_house.specs.Running.{PreparesCommand, PreparesNone, ReadsNone, ReadsPrepared, TellsOf};
ghost use Rattle.rc_house.specs.Running.{counted_for, series_text, told_of};

use crate::answer::{Answer, Game, Prepared, prepare};
use crate::answer_laws::{
    absent_exactly, texts_are_the_same, what_is_played_is_judged_legal, what_is_played_is_measured,
    what_is_played_is_migrated, what_is_watched_is_read, what_is_written_is_played,
};
use crate::benching::bench_game;
use crate::command::{Command, command_of};
use crate::handing::{conclude, refuse};
use crate::naming::legend_for;
use crate::note::Note;
use crate::options::{Format, Options};
use crate::status::Status;
use crate::task::Task;
use rc_base::Steps;
use rc_deck::Memory;
use rc_outside::{Gate, Sink, Source, read_all};
use rc_play_spec::{alike_decisions_have_one_item, alike_searches_have_one_item};
use rc_series::{Series, series_by_workers, series_of};
use rc_text::{write_house, write_named};
use rc_trick::summary;
use std::alloc::Global;
use std::marker::Brand;
use std::sync::Wait;
use std::sync::ledger::{Blank, Ledger};
use std::thread::Threads;

/// What a command makes of its source before anybody plays, or the status that it ends with.
fn read_prepared<S: Source>(alloc: Global, task: Task, source: &mut S) -> Result<Prepared, Status>
    requires searches { CanSearch task }
    ensures prepared { IfOk result (between S.left S.faults source.old source.new (ReadsPrepared task)) }
    ensures none { IfErr result (between S.left S.faults source.old source.new (ReadsNone task)) }
    ensures counted { S.faults source.old ≤ S.faults source.new }
{
    let bytes = read_all(alloc, source, task.limit())?;
    let prepared = prepare(alloc, task, &bytes)?;
    Ok(prepared)
}

/// What a command makes of its source before anybody plays, or the status that it ends with. `bench` has no source.
fn prepare_command<S: Source>(
    alloc: Global,
    command: Command,
    source: &mut S,
) -> Result<Prepared, Status>
    requires named { HasWords command }
    ensures prepared { IfOk result (between S.left S.faults source.old source.new (PreparesCommand command)) }
    ensures none { IfErr result (between S.left S.faults source.old source.new (PreparesNone command)) }
    ensures counted { S.faults source.old ≤ S.faults source.new }
{
    match command {
        Command::Play(options) => read_prepared(alloc, Task::Play(options), source),
        Command::Check => read_prepared(alloc, Task::Check, source),
        Command::Sheet => read_prepared(alloc, Task::Sheet, source),
        Command::Bench { number, .. } => Ok(Prepared::Playing(bench_game(alloc, number)?)),
        Command::Migrate => read_prepared(alloc, Task::Migrate, source),
        Command::Watch { seat, number } => {
            read_prepared(alloc, Task::Watch { seat, number }, source)
        }
        Command::Measure => read_prepared(alloc, Task::Measure, source),
        Command::Rival(rival) => read_prepared(alloc, Task::Rival(rival), source),
    }
}

/// The text that tells of the matches that were played for a command, with this legend if it tells what items bind. The
/// legend has whole lines. Memory may run out.
fn told_text(
    alloc: Global,
    command: Command,
    legend: &[u8],
    series: &Series,
) -> Result<Vec<u8>, Memory>
    requires legend { (lines_in legend.now).1 ≡ [] }
    requires fits { is_named (options_of command).format ≡ true → Fits series.now.named }
    ensures { IfOk result (λ bytes. bytes.items ≡ told_of command (lines_in legend.now).0 series.now) }
{
    let text = &series.named.text;
    match command {
        Command::Bench { number, .. } => summary(alloc, number, &text.matches, &text.standings),
        Command::Play(options) => series_text(alloc, options.format, legend, series),
        Command::Check
        | Command::Sheet
        | Command::Migrate
        | Command::Watch { .. }
        | Command::Measure
        | Command::Rival(_) => write_house(alloc, text),
    }
}

/// The house text of these matches in a format, with this legend if it tells what items bind. The legend has whole
/// lines. Memory may run out.
fn series_text(
    alloc: Global,
    format: Format,
    legend: &[u8],
    series: &Series,
) -> Result<Vec<u8>, Memory>
    requires legend { (lines_in legend.now).1 ≡ [] }
    requires fits { is_named format ≡ true → Fits series.now.named }
    ensures { IfOk result (λ bytes. bytes.items ≡ series_text format (lines_in legend.now).0 series.now) }
{
    match format {
        Format::Plain => write_house(alloc, &series.named.text),
        Format::Named => write_named(alloc, legend, &series.named),
    }
}

/// What a command answers where these matches were played for it, as its options say. The legend has whole lines.
/// Memory may run out.
fn played_answer(
    alloc: Global,
    command: Command,
    legend: &[u8],
    series: &Series,
) -> Result<Answer, Memory>
    requires legend { (lines_in legend.now).1 ≡ [] }
    requires played { ArePlayedBy (options_of command) series.now }
    ensures { IfOk result (TellsOf command (lines_in legend.now).0 series.now) }
{
    let text = told_text(alloc, command, legend, series)?;
    Ok(Answer::Text(text, note_of(series)))
}

/// What is noted behind a text that tells of these matches.
fn note_of(series: &Series) -> Note
    ensures { result ≡ Looks series.now.totals.looks series.now.totals.hits }
{
    Note::Looks {
        looks: series.totals.looks(),
        hits: series.totals.hits(),
    }
}

/// The matches of a game, as one worker plays them for a command, who waits for nobody. Memory may run out; then no
/// more steps were counted than the whole call counts.
fn play_alone<L: Ledger>(
    alloc: Global,
    command: Command,
    game: Game,
    steps: &mut Steps<L>,
) -> Result<Series, Memory>
    requires named { HasWords command }
    requires alone { workers_of command ≡ 1 }
    requires game { IsGame game.checked (plan_seen game.plan) }
    ensures series { IfOk result (IsSeriesFor command game steps.old steps.new) }
    ensures few { steps.new ≤ steps.old + counted_for command game }
{
    let Game { checked, plan } = game;
    let Options { cache, format, .. } = command.options();
    series_of(alloc, checked, plan, format.is_named(), cache, steps)
}

/// What a command answers that one worker runs, who waits for nobody, or the status that it ends with.
fn answer_alone<S: Source, L: Ledger>(
    alloc: Global,
    command: Command,
    source: &mut S,
    steps: &mut Steps<L>,
) -> Result<Answer, Status>
    requires named { HasWords command }
    requires alone { workers_of command ≡ 1 }
    ensures answers { between S.left S.faults source.old source.new (AnswersCommand command)
        steps.old steps.new result }
    ensures counted { S.faults source.old ≤ S.faults source.new }
{
    match prepare_command(alloc, command, source)? {
        Prepared::Answered(answer) => Ok(answer),
        Prepared::Playing(game) => {
            let legend = legend_for(alloc, command.options().format, &game.checked)?;
            let series = play_alone(alloc, command, game, steps)?;
            let answer = played_answer(alloc, command, &legend, &series)?;
            Ok(answer)
        }
    }
}

/// The matches of a game, as several workers play them for a command: so many as its words say, over one book of as
/// many entries. Each calls the gate before it plays a match. Memory may run out.
fn play_together<R: Threads + Wait + Sync, G: Gate>(
    alloc: Global,
    rt: &R,
    command: Command,
    game: Game,
    gate: &G,
) -> Result<Series, Memory>
    requires named { HasWords command }
    requires many { 1 < workers_of command }
    requires game { IsGame game.checked (plan_seen game.plan) }
    ensures { IfOk result (IsSeriesFor command game 0 0) }
{
    let Game { checked, plan } = game;
    let Options {
        workers,
        cache,
        format,
    } = command.options();
    let noted = format.is_named();
    series_by_workers(rt, alloc, checked, plan, noted, workers, cache, gate)
}

/// What a command answers that several workers run, over one book, or the status that it ends with. Each calls the gate
/// before it plays a match.
fn answer_together<R: Threads + Wait + Sync, S: Source, G: Gate>(
    alloc: Global,
    rt: &R,
    command: Command,
    source: &mut S,
    gate: &G,
) -> Result<Answer, Status>
    requires named { HasWords command }
    requires many { 1 < workers_of command }
    ensures answers { between S.left S.faults source.old source.new (AnswersCommand command) 0 0 result }
    ensures counted { S.faults source.old ≤ S.faults source.new }
{
    match prepare_command(alloc, command, source)? {
        Prepared::Answered(answer) => Ok(answer),
        Prepared::Playing(game) => {
            let legend = legend_for(alloc, command.options().format, &game.checked)?;
            let series = play_together(alloc, rt, command, game, gate)?;
            let answer = played_answer(alloc, command, &legend, &series)?;
            Ok(answer)
        }
    }
}

/// What a command answers that one worker runs on a ledger that no type stands for yet, or the status that it ends
/// with.
fn answer_from<S: Source, L: Ledger>(
    alloc: Global,
    command: Command,
    source: &mut S,
    blank: Blank,
) -> Result<Answer, Status>
    requires name { blank.name ≡ L.name }
    requires parts { blank.parts ≡ L.parts }
    requires some { 0 < blank.parts }
    requires named { HasWords command }
    requires alone { workers_of command ≡ 1 }
    ensures answers { (playouts : ℕ)
        × between S.left S.faults source.old source.new (AnswersCommand command) 0 playouts result }
    ensures counted { S.faults source.old ≤ S.faults source.new }
{
    let mut steps = Steps::<L>::new(blank);
    answer_alone(alloc, command, source, &mut steps)
}

/// The command that words name; where only one worker can play, one of more isn't named.
fn command_for(alloc: Global, words: &[String], several: bool) -> Result<Command, Status>
    ensures named { IfOk result (IsCommand (map string_bytes words.now)) }
    ensures can { IfOk result (λ command. CanPlay several (workers_of command)) }
    ensures none { IfErr result (NamesNone several (map string_bytes words.now)) }
{
    let Some(command) = command_of(alloc, words)? else {
        return Err(Status::Usage);
    };
    if several || command.options().workers == 1 {
        Ok(command)
    } else {
        Err(Status::Usage)
    }
}

/// Runs a command with one worker; where its words name more, they are none of a command's. It waits for nobody and
/// always returns. Each playout of `play` and of `bench` is a step. All clauses but `ends` hand on laws and refuse no
/// body.
pub fn run_alone<S: Source, O: Sink, N: Sink, L: Ledger>(
    alloc: Global,
    words: &[String],
    source: &mut S,
    out: &mut O,
    notes: &mut N,
    steps: &mut Steps<L>,
) -> Status
    // How the words end: what the ports have received then, the steps that were counted, and the status.
    ensures ends { Ends RefusesMany (map string_bytes words.now)
        (moment S.left S.faults O.written O.faults N.written N.faults source.old out.old notes.old)
        (moment S.left S.faults O.written O.faults N.written N.faults source.new out.new notes.new)
        steps.old steps.new result }

    // In what is played, two decisions of one seat with one strategy and one seed of the seats, at states that are
    // alike to that seat, have the same item, in whatever matches of that sheet and turn limit they stand.
    ensures alike { AlikeSamePicks }

    // What is written to a source in one format is the same whoever plays.
    ensures same { TextsAreTheSame }

    // What `play` writes for a source, in either format, `check` answers to be legal behind that source.
    ensures legal { PlayedIsChecked }

    // To the same `migrate` answers what `play` writes in format 2.
    ensures migrated { PlayedIsMigrated }

    // And `measure` the measures of the matches that were played.
    ensures measured { PlayedIsMeasured }

    // In what `play` writes, each match is a play that the sheet allows for its seeded shuffles, up to its end or the
    // turn limit, and each choice is its strategy's function of its seat's view and of the seed of the seats.
    ensures plays { WrittenIsPlayed }

    // What `watch` writes is read as a log, and tells what the seat saw in the match.
    ensures views { WatchedIsRead }

    // Where a strategy searches, two of its decisions of one seat with one seed of the seats, at states that are alike
    // to that seat, have the same item, in whatever plans.
    ensures searches { AlikeSameSearches }

    // `watch` refuses a seat or a match exactly where sheet and plan are accepted and have none such.
    ensures absent { AbsentExactly }
{
    alike_decisions_have_one_item();
    alike_searches_have_one_item();
    texts_are_the_same();
    what_is_played_is_judged_legal();
    what_is_played_is_migrated();
    what_is_played_is_measured();
    what_is_written_is_played();
    what_is_watched_is_read();
    absent_exactly();
    match command_for(alloc, words, false) {
        Ok(command) => {
            let answered = answer_alone(alloc, command, source, steps);
            conclude(out, notes, answered)
        }
        Err(status) => refuse(notes, status),
    }
}

/// Runs a command. It may wait for workers, and what it promises holds if it returns. Where words name several workers,
/// these play the matches at one time, and each calls the gate before it plays one. `alike`, `same`, `legal`,
/// `migrated`, `measured`, `plays`, `views`, `searches` and `absent` are those of `run_alone`.
pub fn run<R: Threads + Wait + Sync, S: Source, O: Sink, N: Sink, G: Gate>(
    alloc: Global,
    rt: &R,
    words: &[String],
    source: &mut S,
    out: &mut O,
    notes: &mut N,
    gate: &G,
) -> Status
    // How the words end: what the ports have received then, and the status. The steps are those of some counter.
    ensures ends { (playouts : ℕ) × Ends Runs (map string_bytes words.now)
        (moment S.left S.faults O.written O.faults N.written N.faults source.old out.old notes.old)
        (moment S.left S.faults O.written O.faults N.written N.faults source.new out.new notes.new)
        0 playouts result }
    ensures alike { AlikeSamePicks }
    ensures same { TextsAreTheSame }
    ensures legal { PlayedIsChecked }
    ensures migrated { PlayedIsMigrated }
    ensures measured { PlayedIsMeasured }
    ensures plays { WrittenIsPlayed }
    ensures views { WatchedIsRead }
    ensures searches { AlikeSameSearches }
    ensures absent { AbsentExactly }
{
    alike_decisions_have_one_item();
    alike_searches_have_one_item();
    texts_are_the_same();
    what_is_played_is_judged_legal();
    what_is_played_is_migrated();
    what_is_played_is_measured();
    what_is_written_is_played();
    what_is_watched_is_read();
    absent_exactly();
    match command_for(alloc, words, true) {
        Ok(command) if command.options().workers == 1 => {
            let answered = answer_from::<S, Brand>(alloc, command, source, Blank::new(1));
            conclude(out, notes, answered)
        }
        Ok(command) => {
            let answered = answer_together(alloc, rt, command, source, gate);
            conclude(out, notes, answered)
        }
        Err(status) => refuse(notes, status),
    }
}

//! Where a house text stands behind some lines, with what these told.
ghost use Rattle.std.specs.Prelude.{◌≡◌, ◌++◌, ◌∷◌, [], IfOk, IfSome, OnOk, map};
ghost use Rattle.rc_play_spec.specs.Reading.{headed, playing, told, stopped, scoring, ranking};
ghost use Rattle.rc_play_spec.specs.Reading.{opened, with_pick, noted, take_marked, take_bytes};
ghost use Rattle.rc_rules.specs.Record.{pick_seen, record_seen, standing_seen};
ghost use Rattle.rc_text.specs.BoundSeen.{option_seen};
ghost use Rattle.rc_text.specs.Finds.{Finds};
ghost use Rattle.rc_text.specs.LineSeen.{marked_seen, IsTold};
ghost use Rattle.rc_text.specs.PlaceSeen.{open_marks, marks_of, marks_before, marks_with, place_seen, stand_seen};
ghost use Rattle.rc_text.specs.PlaceSeen.{AreFit, IsFit, StandsFit};
ghost use Rattle.std.specs.Prelude.{true, IsSome};

use crate::lines::{Line, line_of};
use rc_deck::Memory;
use rc_rules::{Bounds, Ended, MatchRecord, Pick, Standing};
use std::alloc::Global;

/// Matches, and for each of them what its choices bind: nothing in a text that doesn't name that.
#[derive(Drop)]
pub struct Matches {
    pub records: Vec<MatchRecord>,
    pub bounds: Vec<Vec<Bounds>>,
}

/// A match that is open, and what its choices bind.
#[derive(Drop)]
pub struct OpenMatch {
    pub record: MatchRecord,
    pub bounds: Vec<Bounds>,
}

/// Where a text stands behind its head, in a match or behind its shuffles, behind its end, behind a score, or behind a
/// standing. Each holds the matches before, and those that a match is open in hold that match.
#[derive(Drop)]
pub enum Progress {
    Headed,
    Playing(Matches, OpenMatch),
    Told(Matches, OpenMatch),
    Stopped(Matches, OpenMatch),
    Scoring(Matches, OpenMatch),
    Ranking(Matches, Vec<Standing>),
}

/// Where the text stands behind one more line of bytes, if that may stand there.
///
/// # Errors
///
/// No memory is left.
pub fn take_bytes(
    alloc: Global,
    named: bool,
    place: Progress,
    bytes: &[u8],
) -> Result<Option<Progress>, Memory>
    ensures found { IfOk result (λ found. Finds stand_seen found (take_bytes named (stand_seen place) bytes.now)) }
    ensures fit { named ≡ true → StandsFit place → IfOk result (λ found. IfSome found StandsFit) }
{
    match line_of(named, bytes) {
        None => Ok(None),
        Some(line) => take_line(alloc, place, line),
    }
}

/// Where the text stands behind one more line, if that may stand there.
fn take_line(alloc: Global, place: Progress, line: Line) -> Result<Option<Progress>, Memory>
    ensures found { IfOk result (λ found. Finds stand_seen found
        (take_marked (place_seen place) (marks_with place) (marked_seen line))) }
    ensures fit { IsTold line → StandsFit place → IfOk result (λ found. IfSome found StandsFit) }
{
    match place {
        Progress::Headed => Ok(behind_header(alloc, line)),
        Progress::Playing(before, played) => in_match(before, played, line),
        Progress::Told(before, played) => Ok(behind_shuffles(before, played, line)),
        Progress::Stopped(before, played) => behind_end(before, played, line),
        Progress::Scoring(before, played) => behind_score(alloc, before, played, line),
        Progress::Ranking(matches, standings) => behind_standing(matches, standings, line),
    }
}

fn behind_header(alloc: Global, line: Line) -> Option<Progress>
    ensures found { Finds stand_seen result (take_marked headed [] (marked_seen line)) }
    ensures fit { IfSome result StandsFit }
{
    match line {
        Line::Opening {
            number,
            deal,
            seats,
        } => {
            let first = open_match(alloc, number, deal, seats);
            let before = Matches {
                records: Vec::new(alloc),
                bounds: Vec::new(alloc),
            };
            Some(Progress::Playing(before, first))
        }
        _ => None,
    }
}

fn in_match(before: Matches, mut played: OpenMatch, line: Line) -> Result<Option<Progress>, Memory>
    ensures found { IfOk result (λ found. Finds stand_seen found
        (take_marked (playing (map record_seen before.records.items) (record_seen played.record))
        (marks_before before played) (marked_seen line))) }
    ensures fit { IsTold line → AreFit before → IsFit played → IfOk result (λ found. IfSome found StandsFit) }
{
    match line {
        Line::Chosen(pick, bounds) => {
            played.choose(pick, bounds)?;
            Ok(Some(Progress::Playing(before, played)))
        }
        Line::Shuffled(shuffles) => {
            played.record.shuffles = shuffles;
            Ok(Some(Progress::Told(before, played)))
        }
        Line::Ending { stop, turn } => {
            played.record.stop = stop;
            played.record.turn = turn;
            Ok(Some(Progress::Stopped(before, played)))
        }
        _ => Ok(None),
    }
}

fn behind_shuffles(before: Matches, mut played: OpenMatch, line: Line) -> Option<Progress>
    ensures found { Finds stand_seen result
        (take_marked (told (map record_seen before.records.items) (record_seen played.record))
        (marks_before before played) (marked_seen line)) }
    ensures fit { AreFit before → IsFit played → IfSome result StandsFit }
{
    match line {
        Line::Ending { stop, turn } => {
            played.record.stop = stop;
            played.record.turn = turn;
            Some(Progress::Stopped(before, played))
        }
        _ => None,
    }
}

fn behind_end(
    before: Matches,
    mut played: OpenMatch,
    line: Line,
) -> Result<Option<Progress>, Memory>
    ensures found { IfOk result (λ found. Finds stand_seen found
        (take_marked (stopped (map record_seen before.records.items) (record_seen played.record))
        (marks_before before played) (marked_seen line))) }
    ensures fit { AreFit before → IsFit played → IfOk result (λ found. IfSome found StandsFit) }
{
    match line {
        Line::Scored(score) => {
            played.record.scores.push(score)?;
            Ok(Some(Progress::Scoring(before, played)))
        }
        _ => Ok(None),
    }
}

fn behind_score(
    alloc: Global,
    mut before: Matches,
    mut played: OpenMatch,
    line: Line,
) -> Result<Option<Progress>, Memory>
    ensures found { IfOk result (λ found. Finds stand_seen found
        (take_marked (scoring (map record_seen before.records.items) (record_seen played.record))
        (marks_before before played) (marked_seen line))) }
    ensures fit { AreFit before → IsFit played → IfOk result (λ found. IfSome found StandsFit) }
{
    match line {
        Line::Scored(score) => {
            played.record.scores.push(score)?;
            Ok(Some(Progress::Scoring(before, played)))
        }
        Line::Opening {
            number,
            deal,
            seats,
        } => {
            before.close(played)?;
            let next = open_match(alloc, number, deal, seats);
            Ok(Some(Progress::Playing(before, next)))
        }
        Line::Ranked(standing) => {
            before.close(played)?;
            let mut standings = Vec::new(alloc);
            standings.push(standing)?;
            Ok(Some(Progress::Ranking(before, standings)))
        }
        _ => Ok(None),
    }
}

fn behind_standing(
    matches: Matches,
    mut standings: Vec<Standing>,
    line: Line,
) -> Result<Option<Progress>, Memory>
    ensures found { IfOk result (λ found. Finds stand_seen found
        (take_marked (ranking (map record_seen matches.records.items) (map standing_seen standings.items))
        (marks_of matches) (marked_seen line))) }
    ensures fit { AreFit matches → IfOk result (λ found. IfSome found StandsFit) }
{
    match line {
        Line::Ranked(standing) => {
            standings.push(standing)?;
            Ok(Some(Progress::Ranking(matches, standings)))
        }
        _ => Ok(None),
    }
}

impl Matches {
    /// A match more, which was open.
    fn close(&mut self, played: OpenMatch) -> Result<(), Memory>
        ensures records { OnOk result (map record_seen self.new.records.items
            ≡ map record_seen self.old.records.items ++ record_seen played.record ∷ []) }
        ensures marks { OnOk result (marks_of self.new ≡ marks_before self.old played) }
        ensures fit { OnOk result (AreFit self.old → IsFit played → AreFit self.new) }
    {
        let OpenMatch { record, bounds } = played;
        self.records.push(record)?;
        self.bounds.push(bounds)?;
        Ok(())
    }
}

impl OpenMatch {
    /// A choice more, with what its item binds where the text names that.
    pub fn choose(&mut self, pick: Pick, bounds: Option<Bounds>) -> Result<(), Memory>
        ensures record { OnOk result (record_seen self.new.record
            ≡ with_pick (record_seen self.old.record) (pick_seen pick)) }
        ensures marks { OnOk result (open_marks self.new ≡ noted (open_marks self.old) (option_seen bounds)) }
        ensures fit { OnOk result (IsSome bounds → IsFit self.old → IsFit self.new) }
    {
        self.record.picks.push(pick)?;
        if let Some(bounds) = bounds {
            self.bounds.push(bounds)?;
        }
        Ok(())
    }
}

/// A match of which only the first line is read.
fn open_match(alloc: Global, number: u32, deal: u64, seats: u64) -> OpenMatch
    ensures record { record_seen result.record ≡ opened number deal seats }
    ensures marks { open_marks result ≡ [] }
    ensures fit { IsFit result }
{
    let record = MatchRecord {
        number,
        deal,
        seats,
        picks: Vec::new(alloc),
        shuffles: 0,
        stop: Ended::Done,
        turn: 0,
        scores: Vec::new(alloc),
    };
    OpenMatch {
        record,
        bounds: Vec::new(alloc),
    }
}

//! The rows that apply to a line, by where the play stands.
ghost use Rattle.std.specs.Prelude.{◌≡◌, ◌<◌, false, true, length, map, slice_get, Some, None, ℕ};
ghost use Rattle.rc_base.specs.Numbers.{below};
ghost use Rattle.rc_play_spec.specs.Step.{Config, decide};
ghost use Rattle.rc_play_spec.specs.Scores as play;
ghost use Rattle.rc_play_spec.specs.About.{About as PureAbout};
ghost use Rattle.rc_play_spec.specs.Rows as rows;
ghost use Rattle.rc_play_spec.specs.Why.{by_standing};
ghost use Rattle.rc_rules.specs.Control.{stop_seen, stopped_of};
ghost use Rattle.rc_rules.specs.Plan.{plan_seen};
ghost use Rattle.rc_rules.specs.Record.{pick_seen, ending_seen, score_seen, standing_seen};
ghost use Rattle.rc_rules.specs.Machine.{StopsAtDecision, IsWhereItStops, Decides, menu_here};
ghost use Rattle.rc_judge.specs.Seen.{row_seen};

use crate::verdict::Why;
use arrayvec::ArrayVec;
use rc_rules::{About, Ended, Machine, MatchRecord, Pick, Plan, Score, Scores, Standing, Stop};

/// The row of a match line where match `number` of the plan comes next, if there is one.
pub(crate) fn opening_row(plan: &Plan, number: u32, played: &MatchRecord) -> Option<Why>
    ensures row { row_seen result ≡ rows.opening_row
        (plan_seen plan.now) number played.now.number played.now.deal played.now.seats }
    ensures there { result ≡ None → number < length plan.now.matches.items }
{
    let Some(deal) = plan.matches.get(number as usize) else {
        return Some(Why::Match);
    };
    if played.number == number && played.deal == deal.deal && played.seats == deal.seats {
        None
    } else {
        Some(Why::Match)
    }
}

/// The row of a choose line but for what its item is told to bind. Where none applies the item may be taken.
pub(crate) fn stopped_row<M: Machine>(machine: &M, stop: Stop, pick: &Pick) -> Option<Why>
    requires fresh { M.spent machine.now ≡ false }
    requires stands { IsWhereItStops (M.about machine.now) (stop_seen stop) (M.config machine.now) }
    ensures row { row_seen result ≡ rows.decision_row (M.about machine.now) (pick_seen pick.now) (stop_seen stop)
        (M.config machine.now) }
    ensures decision { result ≡ None → StopsAtDecision (M.about machine.now) (M.config machine.now) }
    ensures offered { result ≡ None → pick.now.item < length (menu_here (M.about machine.now) (M.config machine.now)) }
{
    match stop {
        Stop::Done => Some(Why::End),
        Stop::Limit => Some(Why::End),
        Stop::Decide { seat, site } => decision_row(machine, seat, site, pick),
    }
}

// The same at a decision of this seat at this site.
fn decision_row<M: Machine>(machine: &M, seat: u8, site: u8, pick: &Pick) -> Option<Why>
    requires fresh { M.spent machine.now ≡ false }
    requires decides { Decides (M.about machine.now) seat site (M.config machine.now) }
    ensures row { row_seen result ≡ rows.decision_row (M.about machine.now) (pick_seen pick.now) (decide seat site)
        (M.config machine.now) }
    ensures offered { result ≡ None → pick.now.item < length (menu_here (M.about machine.now) (M.config machine.now)) }
{
    if pick.seat != seat || pick.site != site {
        return Some(Why::Seat);
    }
    if usize::from(pick.size) != machine.menu_size() {
        return Some(Why::Menu);
    }
    if pick.item >= pick.size {
        return Some(Why::Item);
    }
    None
}

/// The row of a shuffles line, where so many lists were shuffled.
pub(crate) fn shuffled_row(stop: Stop, count: u32, told: u32) -> Option<Why>
    ensures { (c : Config) → row_seen result ≡ rows.shuffled_row (Some (stopped_of stop c count)) told }
{
    if !has_ended(stop) {
        Some(Why::End)
    } else if told != count {
        Some(Why::Shuffle)
    } else {
        None
    }
}

/// The row of an end line, where so many lists were shuffled and the turn count is this.
pub(crate) fn ending_row(stop: Stop, count: u32, turn: u32, played: &MatchRecord) -> Option<Why>
    ensures { (c : Config) → c.control.turn ≡ turn →
        row_seen result ≡ rows.ending_row (Some (stopped_of stop c count)) played.now.shuffles
        (ending_seen played.now.stop) played.now.turn }
{
    if !has_ended(stop) {
        Some(Why::End)
    } else if played.shuffles == 0 && count != 0 {
        Some(Why::Shuffle)
    } else if is_ending(played.stop, stop) && played.turn == turn {
        None
    } else {
        Some(Why::End)
    }
}

fn has_ended(stop: Stop) -> bool
    ensures { result ≡ rows.has_ended (stop_seen stop) }
{
    match stop {
        Stop::Decide { .. } => false,
        Stop::Done => true,
        Stop::Limit => true,
    }
}

fn is_ending(told: Ended, stop: Stop) -> bool
    ensures { result ≡ rows.is_ending (ending_seen told) (stop_seen stop) }
{
    match stop {
        Stop::Decide { .. } => false,
        Stop::Done => told == Ended::Done,
        Stop::Limit => told == Ended::Limit,
    }
}

/// The row of score line `index` of a match, from 0, by each player's score and rank points.
pub(crate) fn scored_row(
    scores: &Scores,
    points: &ArrayVec<u8, 8>,
    index: usize,
    told: &Score,
) -> Option<Why>
    ensures row { (about : PureAbout) (c : Config) (stop : Stop) (count : ℕ)
        → scores.now.items ≡ play.scores_of about c.table c.control
        → points.now.items ≡ map (play.rank_points about.sheet scores.now.items) (below about.sheet.players)
        → row_seen result ≡ rows.scored_row about (Some (stopped_of stop c count)) index (score_seen told.now) }
    ensures there { result ≡ None → index < length scores.now.items }
{
    if is_score(scores, points, index, told) {
        None
    } else {
        Some(Why::Score)
    }
}

// Whether a score line tells the score and the rank points of the player who comes at this place, if there is one.
fn is_score(scores: &Scores, points: &ArrayVec<u8, 8>, index: usize, told: &Score) -> bool
    ensures score { (about : PureAbout) (c : Config) → scores.now.items ≡ play.scores_of about c.table c.control
        → points.now.items ≡ map (play.rank_points about.sheet scores.now.items) (below about.sheet.players)
        → result ≡ rows.is_the_score (score_seen told.now) (slice_get (rows.scores_at about c) index) }
    ensures there { result ≡ true → index < length scores.now.items }
{
    if index >= scores.len() || index >= points.len() {
        return false;
    }
    tells(told, index, scores[index], points[index])
}

// Whether a score line tells this score and these rank points of this player.
fn tells(told: &Score, player: usize, score: i64, points: u8) -> bool
    ensures { result ≡ rows.is_score (score_seen told.now)
        (record { player = player; score = score; points = points }) }
{
    usize::from(told.player) == player && told.score == score && told.points == points
}

/// The row of standing line `index`, from 0, by the plan's standings, where the plan has no further match.
pub(crate) fn ranked_row(standings: &[Standing], index: usize, told: &Standing) -> Option<Why>
    ensures { row_seen result ≡ rows.unless
        (rows.is_the_standing (standing_seen told.now)
        (slice_get (map standing_seen standings.now) index)) by_standing }
{
    let Some(standing) = standings.get(index) else {
        return Some(Why::Standing);
    };
    if told.place == standing.place
        && told.strategy == standing.strategy
        && told.points == standing.points
    {
        None
    } else {
        Some(Why::Standing)
    }
}

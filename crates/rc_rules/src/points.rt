//! Rank points.
ghost use Rattle.std.specs.Prelude.{◌≡◌, ◌≤◌, length, map, pos, slice_index_or, None};
ghost use Rattle.rc_base.specs.Numbers.{below};
ghost use Rattle.rc_play_spec.specs.Scores as play;
ghost use Rattle.rc_ast.specs.Sheet.{sheet_seen, best_seen};
ghost use Rattle.rc_rules.specs.Points.{share};

use crate::menu::Scores;
use crate::teams::team_in;
use arrayvec::ArrayVec;
use rc_ast::{Best, Sheet};

/// Each player's rank points: 2 for each player of another team whose team's score is worse, and 1 for each whose
/// team's score is equal. A team's score is the sum of its members'.
pub fn rank_points(sheet: &Sheet, scores: &Scores) -> ArrayVec<u8, 8>
    requires each { length scores.now.items ≡ sheet.now.players }
    ensures { result.items ≡ map (play.rank_points (sheet_seen sheet.now) scores.now.items) (below sheet.now.players) }
{
    let mut points = ArrayVec::new();
    for player in 0..scores.len() as u8 {
        points.push(rank_points_of(sheet, scores, player));
    }
    points
}

/// The rank points of one player, by the scores of all.
pub fn rank_points_of(sheet: &Sheet, scores: &Scores, player: u8) -> u8
    requires each { length scores.now.items ≡ sheet.now.players }
    ensures { result ≡ play.rank_points (sheet_seen sheet.now) scores.now.items player }
{
    let team = team_in(sheet, player);
    let score = team_score(sheet, scores, team);
    let mut points = 0;
    for other in 0..scores.len() as u8 {
        points += points_against(sheet, scores, team, score, team_in(sheet, other));
    }
    points
}

// What a player of this team, which has this score, gets for a player of the other one.
fn points_against(sheet: &Sheet, scores: &Scores, team: usize, score: i128, other: usize) -> u8
    requires { score ≡ play.team_score (sheet_seen sheet.now) scores.now.items team }
    ensures points { result ≡ play.points_against (sheet_seen sheet.now) scores.now.items team other }
    ensures few { result ≤ 2 }
{
    if team == other {
        return 0;
    }
    let others = team_score(sheet, scores, other);
    if is_worse(sheet.best, others, score) {
        2
    } else if others == score {
        1
    } else {
        0
    }
}

fn is_worse(best: Best, score: i128, than: i128) -> bool
    ensures { result ≡ play.is_worse (best_seen best) score than }
{
    match best {
        Best::Max => score < than,
        Best::Min => score > than,
    }
}

// The sum of the scores of a team's players. Without teams each player is one.
fn team_score(sheet: &Sheet, scores: &Scores, team: usize) -> i128
    ensures { result ≡ play.team_score (sheet_seen sheet.now) scores.now.items team }
{
    match &sheet.teams {
        Some(_) => sum_of(sheet, scores, team),
        None => score_alone(sheet, scores, team),
    }
}

// The score of a player who is a team, and 0 where there is no such player.
fn score_alone(sheet: &Sheet, scores: &Scores, team: usize) -> i128
    requires { (sheet_seen sheet.now).teams ≡ None }
    ensures { result ≡ play.team_score (sheet_seen sheet.now) scores.now.items team }
{
    if team < sheet.players as usize {
        i128::from(score_at(scores, team))
    } else {
        0
    }
}

// The sum over all players, of whom those of the team have a share.
fn sum_of(sheet: &Sheet, scores: &Scores, team: usize) -> i128
    ensures { result ≡ play.team_score (sheet_seen sheet.now) scores.now.items team }
{
    let mut sum = 0i128;
    for player in 0..sheet.players {
        sum += i128::from(share_of(sheet, scores, team, player));
    }
    sum
}

// A player's score, where the player is in the team, and else 0.
fn share_of(sheet: &Sheet, scores: &Scores, team: usize, player: u8) -> i64
    ensures { result ≡ share (sheet_seen sheet.now) scores.now.items team player }
{
    if team_in(sheet, player) != team {
        return 0;
    }
    score_at(scores, player as usize)
}

// A player's score, or 0 where there is none.
fn score_at(scores: &Scores, player: usize) -> i64
    ensures { result ≡ slice_index_or scores.now.items player (pos 0) }
{
    match scores.get(player) {
        Some(score) => *score,
        None => 0,
    }
}

//! The teams of players, found once for a search, and the rank points that scores give by them.
ghost use Rattle.std.specs.Prelude.{◌≡◌, ◌≤◌, length, slice_index_or, pos};
ghost use Rattle.rc_ast.specs.Sheet.{sheet_seen, best_seen};
ghost use Rattle.rc_play_spec.specs.Scores as play;
ghost use Rattle.rc_play_spec.specs.Shape.{team_in as team_of};
ghost use Rattle.rc_rules.specs.Points.{share};
ghost use Rattle.rc_play_spec.specs.SearchValue.{is_mate as is_mate_in};
ghost use Rattle.rc_search.specs.Sides.{AreSides};

use arrayvec::ArrayVec;
use rc_ast::{Best, Sheet};
use rc_rules::{Scores, team_in};

/// The team of each player.
pub(crate) type Sides = ArrayVec<usize, 8>;

/// The team of each player of a sheet.
pub(crate) fn sides_of(sheet: &Sheet) -> Sides
    requires { sheet.now.players ≤ 8 }
    ensures { AreSides (sheet_seen sheet.now) result.items }
{
    let mut sides = Sides::new();
    for player in 0..sheet.players {
        sides.push(team_in(sheet, player));
    }
    sides
}

// The team of a player, whoever that is.
#[inline(always)]
fn side_of(sheet: &Sheet, sides: &Sides, player: u8) -> usize
    requires { AreSides (sheet_seen sheet.now) sides.now.items }
    ensures { result ≡ team_of (sheet_seen sheet.now).teams player }
{
    if (player as usize) < sides.len() {
        return sides[player as usize];
    }
    team_in(sheet, player)
}

/// Whether two players are of one team.
pub(crate) fn is_mate(sheet: &Sheet, sides: &Sides, player: u8, other: u8) -> bool
    requires { AreSides (sheet_seen sheet.now) sides.now.items }
    ensures { result ≡ is_mate_in (sheet_seen sheet.now) player other }
{
    side_of(sheet, sides, player) == side_of(sheet, sides, other)
}

/// The rank points of a player, by the scores of all.
pub(crate) fn points_by(sheet: &Sheet, sides: &Sides, scores: &Scores, player: u8) -> u8
    requires sides { AreSides (sheet_seen sheet.now) sides.now.items }
    requires each { length scores.now.items ≡ sheet.now.players }
    ensures { result ≡ play.rank_points (sheet_seen sheet.now) scores.now.items player }
{
    let team = side_of(sheet, sides, player);
    let score = score_of_side(sheet, sides, scores, team);
    let mut last = Against {
        side: team,
        points: 0,
    };
    let mut points = 0;
    for other in 0..scores.len() as u8 {
        let side = side_of(sheet, sides, other);
        points += points_known(sheet, sides, scores, team, score, side, &mut last);
    }
    points
}

// What a player of a team gets for a player of this side.
#[derive(Drop)]
struct Against {
    side: usize,
    points: u8,
}

// What a player of this team, which has this score, gets for a player of another one. It is the last one that was
// found, if that is of the same team, and else it is found.
#[inline(always)]
fn points_known(
    sheet: &Sheet,
    sides: &Sides,
    scores: &Scores,
    team: usize,
    score: i128,
    other: usize,
    last: &mut Against,
) -> u8
    requires sides { AreSides (sheet_seen sheet.now) sides.now.items }
    requires score { score ≡ play.team_score (sheet_seen sheet.now) scores.now.items team }
    requires last { last.old.points ≡ play.points_against (sheet_seen sheet.now) scores.now.items team last.old.side }
    requires few { last.old.points ≤ 2 }
    ensures points { result ≡ play.points_against (sheet_seen sheet.now) scores.now.items team other }
    ensures few { result ≤ 2 }
    ensures last { last.new.points ≡ play.points_against (sheet_seen sheet.now) scores.now.items team last.new.side }
    ensures small { last.new.points ≤ 2 }
{
    if team == other {
        return 0;
    }
    if last.side != other {
        last.points = points_against(sheet, sides, scores, team, score, other);
        last.side = other;
    }
    last.points
}

// What a player of this team, which has this score, gets for a player of the other one.
fn points_against(
    sheet: &Sheet,
    sides: &Sides,
    scores: &Scores,
    team: usize,
    score: i128,
    other: usize,
) -> u8
    requires sides { AreSides (sheet_seen sheet.now) sides.now.items }
    requires score { score ≡ play.team_score (sheet_seen sheet.now) scores.now.items team }
    ensures points { result ≡ play.points_against (sheet_seen sheet.now) scores.now.items team other }
    ensures few { result ≤ 2 }
{
    if team == other {
        return 0;
    }
    let others = score_of_side(sheet, sides, scores, other);
    if is_worse(sheet.best, others, score) {
        2
    } else if others == score {
        1
    } else {
        0
    }
}

fn is_worse(best: Best, score: i128, than: i128) -> bool
    ensures { result ≡ play.is_worse (best_seen best) score than }
{
    match best {
        Best::Max => score < than,
        Best::Min => score > than,
    }
}

// The sum of the scores of a team's players.
fn score_of_side(sheet: &Sheet, sides: &Sides, scores: &Scores, team: usize) -> i128
    requires { AreSides (sheet_seen sheet.now) sides.now.items }
    ensures { result ≡ play.team_score (sheet_seen sheet.now) scores.now.items team }
{
    let mut sum = 0i128;
    for player in 0..sheet.players {
        sum += i128::from(share_of(sheet, sides, scores, team, player));
    }
    sum
}

// A player's score, where the player is in the team, and else 0.
#[inline(always)]
fn share_of(sheet: &Sheet, sides: &Sides, scores: &Scores, team: usize, player: u8) -> i64
    requires { AreSides (sheet_seen sheet.now) sides.now.items }
    ensures { result ≡ share (sheet_seen sheet.now) scores.now.items team player }
{
    if side_of(sheet, sides, player) != team {
        return 0;
    }
    score_at(scores, player as usize)
}

// A player's score, or 0 where there is none.
#[inline(always)]
fn score_at(scores: &Scores, player: usize) -> i64
    ensures { result ≡ slice_index_or scores.now.items player (pos 0) }
{
    match scores.get(player) {
        Some(score) => *score,
        None => 0,
    }
}

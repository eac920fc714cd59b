//! The teams of players.
ghost use Rattle.std.specs.Prelude.{◌≡◌, map};
ghost use Rattle.rc_play_spec.specs.Shape as shape;
ghost use Rattle.rc_ast.specs.Sheet.{sheet_seen, teams_seen};

use rc_ast::{Sheet, Teams};

/// The team of a player: the first one that has the player, or how many teams there are, where none has. Without teams
/// each player is one.
pub fn team_in(sheet: &Sheet, player: u8) -> usize
    ensures { result ≡ shape.team_in (sheet_seen sheet.now).teams player }
{
    match &sheet.teams {
        Some(teams) => team_among(teams, player),
        None => player as usize,
    }
}

fn team_among(teams: &Teams, player: u8) -> usize
    ensures { result ≡ shape.team_among (teams_seen teams.now) player }
{
    let mut before = 0;
    for team in &teams.list {
        if team.contains(&player) {
            return before;
        }
        before += 1;
    }
    before
}

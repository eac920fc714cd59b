//! Players and teams, as a setup says them.
ghost use Rattle.std.specs.Prelude.{◌≡◌, map};
ghost use Rattle.rc_form.specs.Form.{tree_of, trees_of, packed};
ghost use Rattle.rc_ast.specs.Sheet.{teams_seen};
ghost use Rattle.rc_sheet.specs.ReadSetup as reading;
ghost use Rattle.rc_sheet.specs.Gives.{Gives};

use crate::fail::Unread;
use crate::names::rule_at;
use rc_ast::Teams;
use rc_base::limits::MOST_PLAYERS;
use rc_check::{Rule, Symbol};
use rc_form::{Form, integer};
use std::alloc::Global;

/// The largest number that a player may have.
const LAST_PLAYER: u8 = MOST_PLAYERS - 1;

/// A number from one to another.
#[tactic(auto, unfolding(crate::specs::ReadSetup::count_at))]
pub fn count_at(least: u8, most: u8, form: &Form) -> Result<u8, Unread>
    ensures { Gives (λ count. count) result (reading.count_at least most (tree_of form.now)) }
{
    let Form::Atom { word, .. } = form else {
        return Err(Unread::Meaningless);
    };
    let Some(number) = integer(word.bytes()) else {
        return Err(Unread::Meaningless);
    };
    if i64::from(least) <= number && number <= i64::from(most) {
        Ok(number as u8)
    } else {
        Err(Unread::Meaningless)
    }
}

/// Teams.
pub fn teams_at(alloc: Global, forms: &[Form]) -> Result<Teams, Unread>
    ensures { Gives teams_seen result (reading.teams_at (packed (trees_of forms.now))) }
{
    let mut list = Vec::new(alloc);
    for form in forms {
        list.push(team_at(alloc, form)?)?;
    }
    Ok(Teams { list })
}

/// The players of a team.
#[tactic(auto, unfolding(crate::specs::ReadSetup::team_at))]
fn team_at(alloc: Global, form: &Form) -> Result<Vec<u8>, Unread>
    ensures { Gives (λ team. team.items) result (reading.team_at (tree_of form.now)) }
{
    let Form::List { items, .. } = form else {
        return Err(Unread::Meaningless);
    };
    let parts = items.as_slice();
    match rule_at(Symbol::Team, parts)? {
        Rule::Team => members_at(alloc, parts),
        _ => Err(Unread::Meaningless),
    }
}

/// The numbers of players.
fn members_at(alloc: Global, forms: &[Form]) -> Result<Vec<u8>, Unread>
    ensures { Gives (λ team. team.items) result (reading.members_at (packed (trees_of forms.now))) }
{
    let mut members = Vec::new(alloc);
    for form in forms {
        members.push(count_at(0, LAST_PLAYER, form)?)?;
    }
    Ok(members)
}

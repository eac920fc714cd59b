//! Owners, as they are written.
ghost use Rattle.std.specs.Prelude.{◌≡◌, IsTrue, length};
ghost use Rattle.rc_form.specs.Form.{tree_of, trees_of, packed};
ghost use Rattle.rc_ast.specs.Names.{who_seen};
ghost use Rattle.rc_check.specs.Faults.{fits};
ghost use Rattle.rc_sheet.specs.ReadNames as reading;
ghost use Rattle.rc_sheet.specs.Gives.{Gives};

use crate::fail::Unread;
use crate::names::rule_at;
use crate::scope::Scope;
use rc_ast::{Sort, Who};
use rc_check::{Keyword, Rule, Symbol, is_form_word};
use rc_form::Form;

/// `game` or an owner.
pub fn holder_at(scope: &Scope, form: &Form) -> Result<Who, Unread>
    ensures { Gives who_seen result (reading.holder_at scope.now (tree_of form.now)) }
{
    if is_form_word(Keyword::Game, form) {
        return Ok(Who::Game);
    }
    owner_at(scope, form)
}

/// An owner: `(current team)`, `(team of PLAYER)` or a player.
#[tactic(auto, unfolding(crate::specs::ReadNames::owner_at))]
pub fn owner_at(scope: &Scope, form: &Form) -> Result<Who, Unread>
    ensures { Gives who_seen result (reading.owner_at scope.now (tree_of form.now)) }
{
    match form {
        Form::Atom { word, .. } => Ok(Who::Var(scope.variable(Sort::Player, word.bytes())?)),
        Form::List { items, .. } => {
            let parts = items.as_slice();
            owner_rule(scope, rule_at(Symbol::Owner, parts)?, parts)
        },
    }
}

/// The owner that a list of this form is.
pub fn owner_rule(scope: &Scope, rule: Rule, parts: &[Form]) -> Result<Who, Unread>
    requires { IsTrue (fits (length parts.now) rule) }
    ensures { Gives who_seen result (reading.owner_rule scope.now rule (packed (trees_of parts.now))) }
{
    match rule {
        Rule::CurrentPlayer => Ok(Who::CurrentPlayer),
        Rule::CurrentTeam => Ok(Who::CurrentTeam),
        Rule::TeamOf => team_parts(scope, parts),
        _ => Err(Unread::Meaningless),
    }
}

/// The team of a player.
fn team_parts(scope: &Scope, parts: &[Form]) -> Result<Who, Unread>
    requires { length parts.now ≡ 3 }
    ensures { Gives who_seen result (reading.team_parts scope.now (packed (trees_of parts.now))) }
{
    match player_at(scope, &parts[2])? {
        Who::Var(var) => Ok(Who::TeamOfVar(var)),
        _ => Ok(Who::TeamOfCurrent),
    }
}

/// `(current player)` or a variable.
#[tactic(auto, unfolding(crate::specs::ReadNames::player_at))]
fn player_at(scope: &Scope, form: &Form) -> Result<Who, Unread>
    ensures { Gives who_seen result (reading.player_at scope.now (tree_of form.now)) }
{
    match form {
        Form::Atom { word, .. } => Ok(Who::Var(scope.variable(Sort::Player, word.bytes())?)),
        Form::List { items, .. } => match rule_at(Symbol::Player, items.as_slice())? {
            Rule::CurrentPlayer => Ok(Who::CurrentPlayer),
            _ => Err(Unread::Meaningless),
        },
    }
}

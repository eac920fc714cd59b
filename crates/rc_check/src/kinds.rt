//! What is wrong with a part, behind what stood before it.
ghost use Rattle.std.specs.Prelude.{◌≡◌, ◌||◌, ℕ, List, false, IfNone};
ghost use Rattle.rc_form.specs.Form.{trees_of, packed};
ghost use Rattle.rc_check.specs.SecondFaults as faults;
ghost use Rattle.rc_check.specs.SecondParts as parts_spec;
ghost use Rattle.rc_check.specs.Seen.{standing_seen};
ghost use Rattle.rc_check.specs.Summary as spec;

use crate::around::Around;
use crate::names::WordList;
use crate::owned::class_at;
use crate::parts::{is_binder, misses_player, part_at, word_in};
use crate::sides::{is_misused, is_other_side, is_unbound};
use crate::standing::Setting;
use crate::summary::Summary;
use crate::whole::Whole;
use crate::{Rule, SheetKind};
use rc_base::Class;
use rc_base::limits::{MOST_REPEATS, MOST_VARIABLES};
use rc_form::Form;

/// What is wrong with an atom.
pub fn atom_kind<'a>(
    whole: &Whole<'a>,
    seen: &Summary<'a>,
    at: &Setting<'_, '_, 'a>,
    word: &'a [u8],
) -> Option<SheetKind>
    ensures { (above : List (List ℕ)) (from : ℕ) → result
        ≡ spec.kind_by whole.now seen.now (parts_spec.atom (standing_seen at.now above) word.now from) }
{
    if seen.is_member_again(at.place, word) {
        return Some(SheetKind::Twice);
    }
    if is_unknown_atom(whole, seen, at, word) {
        return Some(SheetKind::Unknown);
    }
    if is_wrong_atom(at, word) {
        return Some(SheetKind::WrongKind);
    }
    if seen.is_value_over(at.role, word) {
        return Some(SheetKind::TooMany);
    }
    None
}

/// A variable that isn't in scope, a name that the setup doesn't give, or a member of a team who is none of the
/// players.
fn is_unknown_atom<'a>(
    whole: &Whole<'a>,
    seen: &Summary<'a>,
    at: &Setting<'_, '_, 'a>,
    word: &'a [u8],
) -> bool
    ensures { (above : List (List ℕ)) → result
        ≡ spec.is_unknown_atom whole.now seen.now (standing_seen at.now above) word.now }
{
    if is_unbound(at, word) || whole.lacks(at.role, word) {
        return true;
    }
    seen.is_stranger(whole, at.place, word)
}

/// A variable of another sort than its place takes, or a second side of another sort than the first.
fn is_wrong_atom(at: &Setting<'_, '_, '_>, word: &[u8]) -> bool
    ensures { (above : List (List ℕ)) → result
        ≡ (faults.is_misused (standing_seen at.now above) word.now || faults.is_other_side
        (standing_seen at.now above) at.now.role) }
{
    is_misused(at, word) || is_other_side(at)
}

/// What is wrong with a form, but for its parts. These attributes may stand before it in a face.
pub fn form_kind<'a>(
    whole: &Whole<'a>,
    seen: &Summary<'a>,
    at: &Setting<'_, '_, 'a>,
    above: &WordList<'a>,
    rule: Rule,
    parts: &[Form<'a>],
) -> Option<SheetKind>
    ensures kind { (from : ℕ) → result
        ≡ spec.kind_by whole.now seen.now
        (parts_spec.form (standing_seen at.now above.now) rule (packed (trees_of parts.now)) from) }
    ensures shallow { IfNone result (faults.is_deep at.now.around.now rule ≡ false) }
{
    if is_form_again(seen, at, above, rule, parts) {
        return Some(SheetKind::Twice);
    }
    if is_unknown_form(whole, seen, at.around, rule, parts) {
        return Some(SheetKind::Unknown);
    }
    if seen.is_wrong_mention(at, rule, parts) || is_other_side(at) {
        return Some(SheetKind::WrongKind);
    }
    if seen.is_form_over(whole, rule, parts) || is_too_deep(at.around, rule) {
        return Some(SheetKind::TooMany);
    }
    if rule == Rule::Setup && !whole.has_deck() {
        return Some(SheetKind::NoCards);
    }
    None
}

/// A second line for the players or the teams, a point map's name again, an attribute again in a face, or a variable
/// again.
fn is_form_again<'a>(
    seen: &Summary<'a>,
    at: &Setting<'_, '_, 'a>,
    above: &WordList<'a>,
    rule: Rule,
    parts: &[Form<'a>],
) -> bool
    ensures { result ≡ spec.is_form_again seen.now (standing_seen at.now above.now) rule (packed (trees_of parts.now)) }
{
    match rule {
        Rule::CreatePlayers => seen.has_players(),
        Rule::CreateTeams => seen.has_teams(),
        Rule::PutPoints => seen.has_map(word_in(2, parts)),
        Rule::Group => above.contains(word_in(0, parts)),
        _ => is_binder(rule) && at.around.binds(word_in(2, parts)),
    }
}

/// A line of teams that leaves a player out, or a form that wants a stage around it.
fn is_unknown_form<'a>(
    whole: &Whole<'a>,
    seen: &Summary<'a>,
    around: &Around<'a>,
    rule: Rule,
    parts: &[Form<'a>],
) -> bool
    ensures { (at : parts_spec.Standing) → at.around ≡ around.now
        → result ≡ spec.is_unknown_form whole.now seen.now at rule (packed (trees_of parts.now)) }
{
    match rule {
        Rule::CreateTeams => !seen.has_teams() && misses_player(whole.players(), parts),
        Rule::CurrentPlayer | Rule::Choice | Rule::Known => !around.player_stage(),
        Rule::CurrentTeam => !around.team_stage(),
        Rule::Next => !is_in_stage(around, class_at(part_at(2, parts))),
        Rule::Reverse => !around.player_stage() && !around.team_stage(),
        _ => false,
    }
}

/// Whether a stage of this class is around.
fn is_in_stage(around: &Around<'_>, class: Class) -> bool
    ensures { result ≡ faults.is_in_stage around.now class }
{
    match class {
        Class::Game => false,
        Class::Player => around.player_stage(),
        Class::Team => around.team_stage(),
    }
}

/// A repeat inside two others, or a binder that would be the fifth around its body.
fn is_too_deep(around: &Around<'_>, rule: Rule) -> bool
    ensures { result ≡ faults.is_deep around.now rule }
{
    match rule {
        Rule::Repeat => around.repeats() >= MOST_REPEATS,
        _ => is_binder(rule) && around.binders() >= MOST_VARIABLES,
    }
}

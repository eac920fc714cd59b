//! Variables at their places, and sides of equations.
ghost use Rattle.std.specs.Prelude.{◌≡◌, ℕ, List, Some, option_map, option_and_then};
ghost use Rattle.std.specs.List.{list_any};
ghost use Rattle.rc_form.specs.Form.{tree_of};
ghost use Rattle.rc_sheet_spec.specs.Sheet.{same_sort};
ghost use Rattle.rc_check.specs.SecondFaults as faults;
ghost use Rattle.rc_check.specs.Settled as settled;
ghost use Rattle.rc_check.specs.SecondNames.{some_of};
ghost use Rattle.rc_check.specs.Seen.{part_seen, standing_seen};

use crate::around::Around;
use crate::parts::part_at;
use crate::role::{Role, SideSort};
use crate::standing::Setting;
use crate::{Rule, Symbol, is_variable, rule_of};
use rc_base::Sort;
use rc_form::Form;

/// Whether a variable that a place takes isn't in scope.
pub fn is_unbound(at: &Setting<'_, '_, '_>, word: &[u8]) -> bool
    ensures { (above : List (List ℕ)) → result ≡ faults.is_unbound (standing_seen at.now above) word.now }
{
    is_variable(word) && takes_variables(at.place) && !at.around.binds(word)
}

/// Whether a place takes variables, and the variable has another sort than those that it takes.
pub fn is_misused(at: &Setting<'_, '_, '_>, word: &[u8]) -> bool
    ensures { (above : List (List ℕ)) → result ≡ faults.is_misused (standing_seen at.now above) word.now }
{
    is_variable(word)
        && takes_variables(at.place)
        && match at.around.sort_of(word) {
            Some(sort) => !takes_sort(at.place, sort),
            None => false,
        }
}

/// Whether a part at this place and of this role is an atom that is at no fault and leaves nothing behind: the place
/// takes no variable and no member of a team, and the role names nothing.
#[inline(always)]
pub fn is_quiet(part: &Form, place: Symbol, role: Role) -> bool
    ensures { result ≡ settled.is_quiet (tree_of part.now) place role }
{
    match part {
        Form::Atom { .. } => names_nothing(role) && !is_member(place) && !takes_variables(place),
        Form::List { .. } => false,
    }
}

/// Whether the place is that of a member of a team.
fn is_member(place: Symbol) -> bool
    ensures { result ≡ settled.is_member place }
{
    match place {
        Symbol::Member => true,
        _ => false,
    }
}

/// Whether an atom of this role names nothing that the setup gives, and is no second side.
fn names_nothing(role: Role) -> bool
    ensures { result ≡ settled.names_nothing role }
{
    match role {
        Role::No | Role::DeckLocation | Role::CardLocation | Role::ReferenceLocation => true,
        _ => false,
    }
}

/// Whether a place takes variables.
fn takes_variables(place: Symbol) -> bool
    ensures { result ≡ some_of (faults.sorts_at place) }
{
    match place {
        Symbol::Holder | Symbol::Owner | Symbol::Player | Symbol::Card => true,
        Symbol::Collection | Symbol::Domain | Symbol::Members | Symbol::Side => true,
        _ => false,
    }
}

/// Whether a place takes variables of this sort.
fn takes_sort(place: Symbol, sort: Sort) -> bool
    ensures { result ≡ list_any (same_sort sort) (faults.sorts_at place) }
{
    match place {
        Symbol::Holder | Symbol::Owner | Symbol::Player => sort == Sort::Player,
        Symbol::Card => sort == Sort::Card,
        Symbol::Collection | Symbol::Domain | Symbol::Members => sort == Sort::Group,
        Symbol::Side => sort != Sort::Group,
        _ => false,
    }
}

/// Whether a part is the second side of an equation, and of another sort than the first.
pub fn is_other_side(at: &Setting<'_, '_, '_>) -> bool
    ensures { (above : List (List ℕ)) → result ≡ faults.is_other_side (standing_seen at.now above) at.now.role }
{
    if at.role != Role::SecondSide {
        return false;
    }
    let first = side_of(at.around, part_at(1, at.beside));
    let second = side_of(at.around, part_at(2, at.beside));
    differ(first, second)
}

/// Whether the sorts of two sides are both known, and differ.
fn differ(first: Option<SideSort>, second: Option<SideSort>) -> bool
    ensures { result ≡ faults.differ first second }
{
    let (Some(first), Some(second)) = (first, second) else {
        return false;
    };
    first != second
}

/// What a side is, where it is known.
fn side_of(around: &Around<'_>, part: Option<&Form>) -> Option<SideSort>
    ensures { result ≡ faults.side_of around.now.scope (part_seen part.entry) }
{
    match part {
        Some(Form::Atom { word, .. }) if is_variable(word.bytes()) => {
            side_of_sort(around.sort_of(word.bytes()))
        }
        Some(Form::Atom { .. }) => Some(SideSort::Number),
        Some(Form::List { items, .. }) => side_of_form(rule_of(Symbol::Side, items.as_slice())?),
        None => None,
    }
}

/// What a variable of this sort is as a side.
fn side_of_sort(sort: Option<Sort>) -> Option<SideSort>
    ensures { result ≡ option_and_then faults.side_of_sort sort }
{
    match sort {
        Some(Sort::Player) => Some(SideSort::Player),
        Some(Sort::Card) => Some(SideSort::Card),
        _ => None,
    }
}

/// What a list of this form is as a side.
fn side_of_form(rule: Rule) -> Option<SideSort>
    ensures { result ≡ faults.side_of_form (Some rule) }
{
    match rule {
        Rule::TopCard | Rule::BottomCard | Rule::MaxCard | Rule::MinCard => Some(SideSort::Card),
        Rule::AttributeOf => Some(SideSort::Value),
        Rule::CurrentPlayer => Some(SideSort::Player),
        Rule::CurrentTeam | Rule::TeamOf => Some(SideSort::Team),
        _ => Some(SideSort::Number),
    }
}

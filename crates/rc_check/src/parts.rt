//! Parts of a list, and what they spell.
ghost use Rattle.std.specs.Prelude.{◌≡◌};
ghost use Rattle.rc_sheet_spec.specs.WellFormed.{is_among};
ghost use Rattle.rc_form.specs.Form.{tree_of, trees_of, packed};
ghost use Rattle.rc_check.specs.SecondParts as spec;
ghost use Rattle.rc_check.specs.SecondNames as names;
ghost use Rattle.rc_check.specs.Seen.{part_seen};
ghost use Rattle.rc_check.specs.Summary.{misses_player};

use crate::Rule;
use rc_form::{Form, integer};

/// The part at this index, where there is one.
pub fn part_at<'s, 'a>(index: usize, parts: &'s [Form<'a>]) -> Option<&'s Form<'a>>
    ensures { part_seen result ≡ spec.part_at index (packed (trees_of parts.now)) }
{
    parts.get(index)
}

/// The bytes of the part at this index, where it is an atom, or else none.
pub fn word_in<'a>(index: usize, parts: &[Form<'a>]) -> &'a [u8]
    ensures { result.now ≡ spec.word_in index (packed (trees_of parts.now)) }
{
    match part_at(index, parts) {
        Some(Form::Atom { word, .. }) => word.bytes(),
        _ => &[],
    }
}

/// Whether the form binds a variable.
pub fn is_binder(rule: Rule) -> bool
    ensures { result ≡ spec.is_binder rule }
{
    match rule {
        Rule::Filter | Rule::AnyOf | Rule::Each | Rule::ForAll | Rule::ForAny => true,
        _ => false,
    }
}

/// The number that an atom spells where a player, or how many players there are, is written.
pub fn number_by(bytes: &[u8]) -> u64
    ensures { result ≡ names.number_by bytes.now }
{
    match integer(bytes) {
        Some(number) => number.unsigned_abs(),
        None => 0,
    }
}

/// The number that a part spells.
pub fn number_at(part: Option<&Form>) -> u64
    ensures { result ≡ names.number_at (part_seen part.entry) }
{
    match part {
        Some(Form::Atom { word, .. }) => number_by(word.bytes()),
        _ => 0,
    }
}

/// Whether some of so many players stands in none of the teams of a line.
#[tactic(auto, using(crate::proofs::PartLemmas::all_from, crate::proofs::PartLemmas::all_past))]
pub fn misses_player(players: u64, line: &[Form]) -> bool
    ensures { result ≡ misses_player players (packed (trees_of line.now)) }
{
    for player in 0..players {
        if !is_in_line(player, line) {
            return true;
        }
    }
    false
}

/// Whether a player stands in a team of a line.
#[tactic(auto, using(crate::proofs::PartLemmas::among_both))]
fn is_in_line(player: u64, line: &[Form]) -> bool
    ensures { result ≡ is_among player (names.team_players (packed (trees_of line.now))) }
{
    for team in line {
        if let Form::List { items, .. } = team {
            if is_in_team(player, items.as_slice()) {
                return true;
            }
        }
    }
    false
}

fn is_in_team(player: u64, team: &[Form]) -> bool
    ensures { result ≡ is_among player (names.numbers_in (packed (trees_of team.now))) }
{
    for member in team {
        if player == number_at(Some(member)) {
            return true;
        }
    }
    false
}

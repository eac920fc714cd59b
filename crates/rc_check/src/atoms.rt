//! Atoms at the places of a sheet.
ghost use Rattle.std.specs.Prelude.{◌≡◌, Some};
ghost use Rattle.rc_base.specs.Literal as literal;
ghost use Rattle.rc_check.specs.Faults as spec;

use crate::fault::SheetKind;
use crate::grammar::Symbol;
use crate::keyword::Keyword;
use rc_base::is_same;
use rc_base::limits::LARGEST_NUMBER;
use rc_form::integer;

/// What is wrong with an atom at a place.
pub fn atom_kind(place: Symbol, word: &[u8]) -> Option<SheetKind>
    ensures { result ≡ spec.atom_kind place word.now }
{
    match place {
        Symbol::Word(keyword) => unless(is_word(keyword, word), SheetKind::Shape),
        Symbol::Kind => unless(is_kind(word), SheetKind::Shape),
        Symbol::Best => unless(
            is_word(Keyword::Max, word) || is_word(Keyword::Min, word),
            SheetKind::Shape,
        ),
        Symbol::Name | Symbol::Branch => unless(!is_variable(word), SheetKind::Shape),
        Symbol::Variable | Symbol::Owner | Symbol::Player | Symbol::Card | Symbol::Collection => {
            unless(is_variable(word), SheetKind::Shape)
        }
        Symbol::Domain | Symbol::Members => unless(
            is_word(Keyword::Player, word) || is_variable(word),
            SheetKind::Shape,
        ),
        Symbol::Holder => unless(
            is_word(Keyword::Game, word) || is_variable(word),
            SheetKind::Shape,
        ),
        Symbol::PlayerCount => unless(is_within(1, 8, word), SheetKind::Number),
        Symbol::Member => unless(is_within(0, 7, word), SheetKind::Number),
        Symbol::Points | Symbol::Integer => unless(is_number(word), SheetKind::Number),
        Symbol::Side => unless(is_variable(word) || is_number(word), SheetKind::Number),
        _ => Some(SheetKind::Shape),
    }
}

/// Whether the word is this keyword.
#[inline(always)]
pub fn is_word(keyword: Keyword, word: &[u8]) -> bool
    ensures { result ≡ spec.is_word keyword word.now }
{
    is_same(word, keyword.text())
}

/// Whether the word begins with `'`.
pub fn is_variable(word: &[u8]) -> bool
    ensures { result ≡ spec.is_variable word.now }
{
    word.first() == Some(&b'\'')
}

/// Whether the word is a kind of location.
fn is_kind(word: &[u8]) -> bool
    ensures { result ≡ spec.is_kind word.now }
{
    is_word(Keyword::Vloc, word)
        || is_word(Keyword::Iloc, word)
        || is_word(Keyword::Hloc, word)
        || is_word(Keyword::Mem, word)
}

/// Whether the word spells a number in this range.
fn is_within(least: i64, most: i64, word: &[u8]) -> bool
    ensures { result ≡ spec.is_within least most (literal.integer word.now) }
{
    match integer(word) {
        Some(number) => least <= number && number <= most,
        None => false,
    }
}

fn is_number(word: &[u8]) -> bool
    ensures { result ≡ spec.is_number word.now }
{
    is_within(-LARGEST_NUMBER, LARGEST_NUMBER, word)
}

/// The kind of what a test refuses.
fn unless(holds: bool, kind: SheetKind) -> Option<SheetKind>
    ensures { result ≡ spec.unless holds kind }
{
    if holds { None } else { Some(kind) }
}

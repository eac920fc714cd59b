//! Which form a list is to be.
ghost use Rattle.std.specs.Prelude.{◌≡◌, ◌<◌, filter};
ghost use Rattle.rc_form.specs.Form.{tree_of, trees_of, packed};
ghost use Rattle.rc_check.specs.Grammar.{forms_of};
ghost use Rattle.rc_check.specs.Faults as spec;
ghost use Rattle.rc_check.specs.Faults.{has_second_word};
ghost use Rattle.rc_check.specs.Head.{tree_by, begin_with_word};
ghost use Rattle.rc_check.specs.declared.grammar.Rule.{Rule};

use crate::atoms::{atom_kind, is_word};
use crate::grammar::{Rule, Symbol};
use crate::head::{Head, head_of, plain_form, wants_second};
use crate::keyword::Keyword;
use rc_form::Form;

impl Rule {
    /// The word behind the head, where both are fixed.
    #[inline(always)]
    fn second_word(self) -> Option<Keyword>
        ensures { result ≡ spec.second_word self }
    {
        match self.front() {
            [Symbol::Word(_), Symbol::Word(second), ..] => Some(*second),
            _ => None,
        }
    }

    /// How many parts stand behind those of which there may be more.
    fn back(self) -> usize
        ensures { result ≡ spec.back_of self }
    {
        if self == Rule::Game { 1 } else { 0 }
    }

    /// Whether a list of so many parts has the number of this form's.
    pub fn fits(self, count: usize) -> bool
        ensures { result ≡ spec.fits count self }
    {
        match self.more() {
            Some(_) => self.front().len() + self.back() < count,
            None => count == self.front().len(),
        }
    }

    /// The place of a part, where the form has so many.
    #[inline(always)]
    pub fn place_at(self, count: usize, index: usize) -> Option<Symbol>
        requires { index < count }
        ensures { result ≡ spec.place_at self count index }
    {
        match self.front().get(index) {
            Some(place) => Some(*place),
            None if self == Rule::Game && index + 1 == count => Some(Symbol::Scoring),
            None => self.more(),
        }
    }
}

impl Symbol {
    /// Those of its forms that begin with two fixed words.
    fn two_word_forms(self) -> &'static [Rule]
        ensures { result.now ≡ filter has_second_word (forms_of self) }
    {
        match self {
            Symbol::Line => &[
                Rule::CreatePlayers,
                Rule::CreateTeams,
                Rule::CreateDeck,
                Rule::PutPoints,
            ],
            Symbol::Item => &[Rule::PlayerStage, Rule::TeamStage],
            Symbol::Effect => &[Rule::MoveAll, Rule::Next, Rule::Reverse],
            Symbol::Holder | Symbol::Owner | Symbol::Side => {
                &[Rule::CurrentPlayer, Rule::CurrentTeam, Rule::TeamOf]
            }
            Symbol::Player => &[Rule::CurrentPlayer],
            Symbol::Word(_)
            | Symbol::Kind
            | Symbol::Best
            | Symbol::Name
            | Symbol::Variable
            | Symbol::PlayerCount
            | Symbol::Member
            | Symbol::Points
            | Symbol::Sheet
            | Symbol::Setup
            | Symbol::Team
            | Symbol::Deck
            | Symbol::Group
            | Symbol::Branches
            | Symbol::Branch
            | Symbol::Entries
            | Symbol::Entry
            | Symbol::Values
            | Symbol::Scoring
            | Symbol::End
            | Symbol::Alternative
            | Symbol::Domain
            | Symbol::Spot
            | Symbol::Location
            | Symbol::Counter
            | Symbol::Card
            | Symbol::Collection
            | Symbol::Members
            | Symbol::Integer
            | Symbol::Test => &[],
        }
    }
}

/// The form that a list of these parts is to be, where it may be one.
#[tactic(auto, using(crate::proofs::Heads::plain_same))]
pub fn rule_of(place: Symbol, parts: &[Form]) -> Option<Rule>
    ensures { result ≡ spec.rule_of place (packed (trees_of parts.now)) }
{
    let (first, others) = parts.split_first()?;
    let head = head_of(first);
    match told_form(place, head, first, others) {
        Some(rule) => Some(rule),
        None => plain_form(place, head),
    }
}

/// The form that the word behind the first part tells. It is looked for where a word stands there that may tell one
/// alone.
#[inline(always)]
fn told_form(place: Symbol, head: Head, first: &Form, others: &[Form]) -> Option<Rule>
    requires head { (rule : Rule) → spec.begins (tree_of first.now) rule ≡ spec.begins (tree_by head) rule }
    ensures { result ≡ spec.told_rule place (tree_of first.now) (packed (trees_of others.now)) }
{
    if !wants_second(head) {
        return None;
    }
    if !begin_with_word(others) {
        return None;
    }
    told_rule(place, first, others)
}

/// Whether the first of these parts is an atom.
#[inline(always)]
fn begin_with_word(parts: &[Form]) -> bool
    ensures { result ≡ begin_with_word (packed (trees_of parts.now)) }
{
    match parts.first() {
        Some(Form::Atom { .. }) => true,
        _ => false,
    }
}

/// The form that the word behind the head tells. Few lists ask for it, so it stands apart from what all ask.
#[inline(never)]
fn told_rule(place: Symbol, head: &Form, others: &[Form]) -> Option<Rule>
    ensures { result ≡ spec.told_rule place (tree_of head.now) (packed (trees_of others.now)) }
{
    for rule in place.two_word_forms() {
        if begins(head, *rule) && is_told(rule.second_word(), others) {
            return Some(*rule);
        }
    }
    None
}

/// Whether a list of this form may begin with this part.
#[inline(always)]
fn begins(head: &Form, rule: Rule) -> bool
    ensures { result ≡ spec.begins (tree_of head.now) rule }
{
    match rule.front().first() {
        Some(place) => may_begin(*place, head),
        None => true,
    }
}

/// Whether a list may begin with this part, where this is the place of its first part. Fixed words and holders alone
/// tell a form; any other part is looked at with those behind it.
#[inline(always)]
fn may_begin(place: Symbol, head: &Form) -> bool
    ensures { result ≡ spec.may_begin place (tree_of head.now) }
{
    match (place, head) {
        (Symbol::Word(keyword), _) => is_form_word(keyword, head),
        (Symbol::Holder, Form::Atom { word, .. }) => atom_kind(place, word.bytes()).is_none(),
        _ => true,
    }
}

/// Whether the form is this word.
#[inline(always)]
pub fn is_form_word(keyword: Keyword, form: &Form) -> bool
    ensures { result ≡ spec.is_form_word keyword (tree_of form.now) }
{
    match form {
        Form::Atom { word, .. } => is_word(keyword, word.bytes()),
        Form::List { .. } => false,
    }
}

/// Whether the part behind the head is this word.
pub fn is_told(second: Option<Keyword>, others: &[Form]) -> bool
    ensures { result ≡ spec.is_told second (packed (trees_of others.now)) }
{
    match (second, others.first()) {
        (Some(keyword), Some(form)) => is_form_word(keyword, form),
        _ => false,
    }
}

/// Whether a list that begins so may have so many parts at this place.
pub fn some_form_fits(place: Symbol, head: &Form, count: usize) -> bool
    ensures { result ≡ spec.some_form_fits place (tree_of head.now) count }
{
    place
        .forms()
        .iter()
        .any(|rule| begins(head, *rule) && rule.fits(count))
}

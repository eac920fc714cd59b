//! How a list begins, and the form of a place that is told by that.
ghost use Rattle.std.specs.Prelude.{◌≡◌, ℕ};
ghost use Rattle.rc_base.specs.Tree.{word as word_tree};
ghost use Rattle.rc_form.specs.Form.{tree_of};
ghost use Rattle.rc_check.specs.Faults as spec;
ghost use Rattle.rc_check.specs.Head.{tree_by, wants_second};
ghost use Rattle.rc_check.specs.declared.grammar.Rule.{Rule};

use crate::atoms::is_variable;
use crate::grammar::{Rule, Symbol};
use crate::keyword::Keyword;
use crate::spelling::keyword_of;
use rc_form::Form;

/// What a list begins with, as far as it tells which forms the list may have.
#[derive(Clone, Copy, PartialEq, Eq, Debug)]
pub enum Head {
    /// A keyword.
    Word(Keyword),
    /// An atom that begins with `'`.
    Variable,
    /// Another atom.
    Name,
    /// A list.
    List,
}

/// What a list begins with whose first part this is.
#[tactic(auto, using(crate::proofs::Heads::list_begins))]
pub fn head_of(part: &Form) -> Head
    ensures { (rule : Rule) → spec.begins (tree_of part.now) rule ≡ spec.begins (tree_by result) rule }
{
    match part {
        Form::Atom { word, .. } => head_word(word.bytes()),
        Form::List { .. } => Head::List,
    }
}

/// What a list begins with whose first part is this atom.
fn head_word(word: &[u8]) -> Head
    ensures { (rule : Rule) (from to : ℕ)
        → spec.begins (word_tree word.now from to) rule ≡ spec.begins (tree_by result) rule }
{
    if is_variable(word) {
        return Head::Variable;
    }
    match keyword_of(word) {
        Some(keyword) => Head::Word(keyword),
        None => Head::Name,
    }
}

/// Whether a form that begins so may be told by the word behind its head.
pub fn wants_second(head: Head) -> bool
    ensures { result ≡ wants_second head }
{
    match head {
        Head::Word(
            Keyword::Create
            | Keyword::Put
            | Keyword::Stage
            | Keyword::Move
            | Keyword::Cycle
            | Keyword::Current
            | Keyword::Team,
        ) => true,
        _ => false,
    }
}

/// The form of a place that begins so and that no word behind its head tells.
#[tactic(auto, using(crate::proofs::Heads::no_line, crate::proofs::Heads::no_holder, crate::proofs::Heads::no_owner, crate::proofs::Heads::no_player))]
pub fn plain_form(place: Symbol, head: Head) -> Option<Rule>
    ensures { result ≡ spec.plain_rule place (tree_by head) }
{
    match place {
        Symbol::Team => Some(Rule::Team),
        Symbol::Group => Some(Rule::Group),
        Symbol::Branches => Some(Rule::Branches),
        Symbol::Branch => Some(Rule::Branch),
        Symbol::Entries => Some(Rule::Entries),
        Symbol::Entry => Some(Rule::Entry),
        Symbol::Values => Some(Rule::Values),
        Symbol::Sheet => sheet_form(head),
        Symbol::Setup => setup_form(head),
        Symbol::Deck => deck_form(head),
        Symbol::Scoring => scoring_form(head),
        Symbol::Item => item_form(head),
        Symbol::End => end_form(head),
        Symbol::Alternative => alternative_form(head),
        Symbol::Domain => domain_form(head),
        Symbol::Effect => effect_form(head),
        Symbol::Spot => spot_form(head),
        Symbol::Location => location_form(head),
        Symbol::Counter => counter_form(head),
        Symbol::Card => card_form(head),
        Symbol::Collection | Symbol::Members => collection_form(head),
        Symbol::Integer => integer_form(head),
        Symbol::Test => test_form(head),
        Symbol::Side => side_form(head),
        // a second word tells each of their forms
        Symbol::Line | Symbol::Holder | Symbol::Owner | Symbol::Player => None,
        Symbol::Word(_)
        | Symbol::Kind
        | Symbol::Best
        | Symbol::Name
        | Symbol::Variable
        | Symbol::PlayerCount
        | Symbol::Member
        | Symbol::Points => None,
    }
}

/// The form of a sheet that begins so.
fn sheet_form(head: Head) -> Option<Rule>
    ensures { result ≡ spec.plain_rule Symbol.Sheet (tree_by head) }
{
    match head {
        Head::Word(Keyword::Game) => Some(Rule::Game),
        _ => None,
    }
}

/// That of a setup.
fn setup_form(head: Head) -> Option<Rule>
    ensures { result ≡ spec.plain_rule Symbol.Setup (tree_by head) }
{
    match head {
        Head::Word(Keyword::Setup) => Some(Rule::Setup),
        _ => None,
    }
}

/// That of a deck.
fn deck_form(head: Head) -> Option<Rule>
    ensures { result ≡ spec.plain_rule Symbol.Deck (tree_by head) }
{
    match head {
        Head::Word(Keyword::Deck) => Some(Rule::Deck),
        _ => None,
    }
}

/// That of a scoring.
fn scoring_form(head: Head) -> Option<Rule>
    ensures { result ≡ spec.plain_rule Symbol.Scoring (tree_by head) }
{
    match head {
        Head::Word(Keyword::Scoring) => Some(Rule::Scoring),
        _ => None,
    }
}

/// That of an item.
fn item_form(head: Head) -> Option<Rule>
    ensures { result ≡ spec.plain_rule Symbol.Item (tree_by head) }
{
    match head {
        Head::Word(Keyword::Do) => Some(Rule::Do),
        Head::Word(Keyword::Choice) => Some(Rule::Choice),
        _ => None,
    }
}

/// That of a stage's end.
fn end_form(head: Head) -> Option<Rule>
    ensures { result ≡ spec.plain_rule Symbol.End (tree_by head) }
{
    match head {
        Head::Word(Keyword::End) => Some(Rule::End),
        _ => None,
    }
}

/// That of an alternative.
fn alternative_form(head: Head) -> Option<Rule>
    ensures { result ≡ spec.plain_rule Symbol.Alternative (tree_by head) }
{
    match head {
        Head::Word(Keyword::Do) => Some(Rule::Do),
        Head::Word(Keyword::If) => Some(Rule::If),
        Head::Word(Keyword::Any) => Some(Rule::AnyOf),
        _ => None,
    }
}

/// That of what an alternative's variable goes over.
fn domain_form(head: Head) -> Option<Rule>
    ensures { result ≡ spec.plain_rule Symbol.Domain (tree_by head) }
{
    match head {
        Head::Word(Keyword::Game) | Head::Variable | Head::List => Some(Rule::Location),
        Head::Word(Keyword::Filter) => Some(Rule::Filter),
        Head::Word(Keyword::Union) => Some(Rule::Union),
        Head::Word(Keyword::Known) => Some(Rule::Known),
        Head::Word(Keyword::Partition) => Some(Rule::Partition),
        _ => None,
    }
}

/// That of an effect.
fn effect_form(head: Head) -> Option<Rule>
    ensures { result ≡ spec.plain_rule Symbol.Effect (tree_by head) }
{
    match head {
        Head::Word(Keyword::Move) => Some(Rule::Move),
        Head::Word(Keyword::Remember) => Some(Rule::Remember),
        Head::Word(Keyword::Forget) => Some(Rule::Forget),
        Head::Word(Keyword::Shuffle) => Some(Rule::Shuffle),
        Head::Word(Keyword::Set) => Some(Rule::Set),
        Head::Word(Keyword::Inc) => Some(Rule::Increase),
        Head::Word(Keyword::Dec) => Some(Rule::Decrease),
        Head::Word(Keyword::If) => Some(Rule::If),
        Head::Word(Keyword::Repeat) => Some(Rule::Repeat),
        Head::Word(Keyword::All) => Some(Rule::Each),
        Head::Word(Keyword::Peek) => Some(Rule::Peek),
        _ => None,
    }
}

/// That of a spot.
fn spot_form(head: Head) -> Option<Rule>
    ensures { result ≡ spec.plain_rule Symbol.Spot (tree_by head) }
{
    match head {
        Head::Word(Keyword::Top) => Some(Rule::TopOf),
        Head::Word(Keyword::Bottom) => Some(Rule::BottomOf),
        _ => None,
    }
}

/// That of a location.
fn location_form(head: Head) -> Option<Rule>
    ensures { result ≡ spec.plain_rule Symbol.Location (tree_by head) }
{
    match head {
        Head::Word(Keyword::Game) | Head::Variable | Head::List => Some(Rule::Location),
        _ => None,
    }
}

/// That of a stored number.
fn counter_form(head: Head) -> Option<Rule>
    ensures { result ≡ spec.plain_rule Symbol.Counter (tree_by head) }
{
    match head {
        Head::Word(Keyword::Game) | Head::Variable | Head::List => Some(Rule::Counter),
        _ => None,
    }
}

/// That of a card.
fn card_form(head: Head) -> Option<Rule>
    ensures { result ≡ spec.plain_rule Symbol.Card (tree_by head) }
{
    match head {
        Head::Word(Keyword::Top) => Some(Rule::TopCard),
        Head::Word(Keyword::Bottom) => Some(Rule::BottomCard),
        Head::Word(Keyword::Max) => Some(Rule::MaxCard),
        Head::Word(Keyword::Min) => Some(Rule::MinCard),
        _ => None,
    }
}

/// That of cards, or of what a loop goes over.
fn collection_form(head: Head) -> Option<Rule>
    ensures { result ≡ spec.plain_rule Symbol.Collection (tree_by head) }
{
    match head {
        Head::Word(Keyword::Game) | Head::Variable | Head::List => Some(Rule::Location),
        Head::Word(Keyword::Filter) => Some(Rule::Filter),
        Head::Word(Keyword::Union) => Some(Rule::Union),
        Head::Word(Keyword::Known) => Some(Rule::Known),
        _ => None,
    }
}

/// That of a number.
fn integer_form(head: Head) -> Option<Rule>
    ensures { result ≡ spec.plain_rule Symbol.Integer (tree_by head) }
{
    match head {
        Head::Word(Keyword::Game) | Head::Variable | Head::List => Some(Rule::Counter),
        Head::Word(Keyword::Size) => Some(Rule::Size),
        Head::Word(Keyword::Sum) => Some(Rule::Sum),
        Head::Word(Keyword::Points) => Some(Rule::PointsOf),
        Head::Word(Keyword::Plus) => Some(Rule::Plus),
        Head::Word(Keyword::Minus) => Some(Rule::Minus),
        Head::Word(Keyword::Times) => Some(Rule::Times),
        _ => None,
    }
}

/// That of a test.
fn test_form(head: Head) -> Option<Rule>
    ensures { result ≡ spec.plain_rule Symbol.Test (tree_by head) }
{
    match head {
        Head::Word(Keyword::Equal) => Some(Rule::Equal),
        Head::Word(Keyword::NotEqual) => Some(Rule::NotEqual),
        Head::Word(Keyword::Less) => Some(Rule::Less),
        Head::Word(Keyword::LessOrEqual) => Some(Rule::LessOrEqual),
        Head::Word(Keyword::More) => Some(Rule::More),
        Head::Word(Keyword::MoreOrEqual) => Some(Rule::MoreOrEqual),
        Head::Word(Keyword::Is) => Some(Rule::Is),
        Head::Word(Keyword::And) => Some(Rule::And),
        Head::Word(Keyword::Or) => Some(Rule::Or),
        Head::Word(Keyword::Not) => Some(Rule::Not),
        Head::Word(Keyword::All) => Some(Rule::ForAll),
        Head::Word(Keyword::Any) => Some(Rule::ForAny),
        _ => None,
    }
}

/// That of a side.
fn side_form(head: Head) -> Option<Rule>
    ensures { result ≡ spec.plain_rule Symbol.Side (tree_by head) }
{
    match head {
        Head::Word(Keyword::Game) | Head::Variable | Head::List => Some(Rule::Counter),
        Head::Word(Keyword::Size) => Some(Rule::Size),
        Head::Word(Keyword::Sum) => Some(Rule::Sum),
        Head::Word(Keyword::Points) => Some(Rule::PointsOf),
        Head::Word(Keyword::Plus) => Some(Rule::Plus),
        Head::Word(Keyword::Minus) => Some(Rule::Minus),
        Head::Word(Keyword::Times) => Some(Rule::Times),
        Head::Word(Keyword::Top) => Some(Rule::TopCard),
        Head::Word(Keyword::Bottom) => Some(Rule::BottomCard),
        Head::Word(Keyword::Max) => Some(Rule::MaxCard),
        Head::Word(Keyword::Min) => Some(Rule::MinCard),
        Head::Word(Keyword::Attr) => Some(Rule::AttributeOf),
        _ => None,
    }
}

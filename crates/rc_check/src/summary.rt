//! What the parts before a place of the text leave behind.
ghost use Rattle.std.specs.Prelude.{◌≡◌, ℕ, List, [], length, Err, OnOk, OnErr};
ghost use Rattle.rc_sheet_spec.specs.WellFormed.{is_among};
ghost use Rattle.rc_check.specs.SecondNames.{is_named};
ghost use Rattle.rc_form.specs.Form.{trees_of, packed};
ghost use Rattle.rc_check.specs.Seen.{standing_seen, mention_seen};
ghost use Rattle.rc_check.specs.Settled.{is_settled, is_plain};
ghost use Rattle.rc_check.specs.Summary as spec;

use crate::faces::faces_of;
use crate::fail::SheetFail;
use crate::names::DifferentNames;
use crate::owned::{Owned, add_to_count, goes_over, is_misplaced, mention_of};
use crate::parts::{number_by, part_at, word_in};
use crate::role::Role;
use crate::standing::Setting;
use crate::whole::Whole;
use crate::{Rule, Symbol};
use rc_base::limits;
use rc_form::Form;
use std::alloc::Global;
use std::marker::Model;

/// The most cards of a form.
const MOST_CARDS: u64 = limits::MOST_CARDS as u64;

/// The most locations, and the most stored numbers, of all owners.
const MOST_OWNED: u64 = limits::MOST_OWNED as u64;

/// The most attributes, values and point maps.
const MOST_NAMES: u64 = limits::MOST_NAMES as u64;

/// The most stages.
const MOST_STAGES: u64 = limits::MOST_STAGES as u64;

/// The most choices.
const MOST_CHOICES: u64 = limits::MOST_SITES as u64;

/// Whether a line of players stood, and a line of teams; whether just one line of teams did; the players in teams; the
/// different point maps, attributes and values; locations and numbers; and how many cards, stages and choices there
/// are, counted no further than one above their limits.
#[derive(Drop)]
pub struct Summary<'a> {
    has_players: bool,
    has_teams: bool,
    in_first_teams: bool,
    members: Vec<u64>,
    maps: DifferentNames<'a>,
    attributes: DifferentNames<'a>,
    values: DifferentNames<'a>,
    locations: Owned<'a>,
    numbers: Owned<'a>,
    cards: u64,
    stages: u64,
    choices: u64,
}

impl<'a> Model for Summary<'a> {
    ghost use Rattle.rc_check.specs.Summary.{Summary};

    ghost Value = { Summary };

    ghost use Rattle.rc_check.specs.Views.{summary_seen};

    ghost view = { summary_seen };
}

impl<'a> Summary<'a> {
    /// Nothing.
    pub fn new(alloc: Global) -> Summary<'a>
        ensures { result ≡ spec.nothing_seen }
    {
        Summary {
            has_players: false,
            has_teams: false,
            in_first_teams: false,
            members: Vec::new(alloc),
            maps: DifferentNames::new(alloc),
            attributes: DifferentNames::new(alloc),
            values: DifferentNames::new(alloc),
            locations: Owned::new(alloc),
            numbers: Owned::new(alloc),
            cards: 0,
            stages: 0,
            choices: 0,
        }
    }

    /// Takes an atom.
    pub fn see_atom(&mut self, at: &Setting<'_, '_, 'a>, word: &'a [u8]) -> Result<(), SheetFail>
        ensures after { OnOk result (self.new ≡ spec.see_atom self.old (standing_seen at.now []) word.now) }
        ensures memory { OnErr result (result ≡ Err SheetFail.Memory) }
    {
        if at.place == Symbol::Member {
            self.members.push(number_by(word))?;
        }
        if at.role == Role::GivenValue {
            self.values.insert(word)?;
        }
        Ok(())
    }

    /// Takes a form, but for its parts.
    pub fn see_form(
        &mut self,
        whole: &Whole<'a>,
        rule: Rule,
        parts: &[Form<'a>],
    ) -> Result<(), SheetFail>
        ensures after { OnOk result (self.new ≡ spec.see_form whole.now self.old rule (packed (trees_of parts.now))) }
        ensures memory { OnErr result (result ≡ Err SheetFail.Memory) }
    {
        match rule {
            Rule::CreatePlayers => self.has_players = true,
            Rule::CreateTeams => {
                self.in_first_teams = !self.has_teams;
                self.has_teams = true;
            }
            Rule::CreateDeck => {
                let faces = faces_of(part_at(3, parts));
                self.cards = add_to_count(MOST_CARDS, self.cards, faces.into());
            }
            Rule::Group | Rule::Entry => self.attributes.insert(word_in(0, parts))?,
            Rule::PutPoints => self.maps.insert(word_in(2, parts))?,
            Rule::Location => self.locations.insert(whole, MOST_OWNED, mention_of(parts))?,
            Rule::Counter => self.numbers.insert(whole, MOST_OWNED, mention_of(parts))?,
            Rule::PlayerStage | Rule::TeamStage => {
                self.stages = add_to_count(MOST_STAGES, self.stages, 1);
            }
            Rule::Choice => self.choices = add_to_count(MOST_CHOICES, self.choices, 1),
            _ => {}
        }
        Ok(())
    }

    /// Whether a line of players stood.
    pub fn has_players(&self) -> bool
        ensures { result ≡ self.now.has_players }
    {
        self.has_players
    }

    /// Whether a line of teams stood.
    pub fn has_teams(&self) -> bool
        ensures { result ≡ self.now.has_teams }
    {
        self.has_teams
    }

    /// Whether an atom is a player who stands in the teams again.
    pub fn is_member_again(&self, place: Symbol, word: &[u8]) -> bool
        ensures { result ≡ spec.is_member_again self.now place word.now }
    {
        place == Symbol::Member && self.in_first_teams && self.has_member(number_by(word))
    }

    fn has_member(&self, number: u64) -> bool
        ensures { result ≡ is_among number self.now.members }
    {
        self.members.iter().any(|member| number == *member)
    }

    /// Whether an atom is a member of a team who is none of the players.
    pub fn is_stranger(&self, whole: &Whole<'a>, place: Symbol, word: &[u8]) -> bool
        ensures { result ≡ spec.is_stranger whole.now self.now place word.now }
    {
        place == Symbol::Member && self.in_first_teams && whole.players() <= number_by(word)
    }

    /// Whether a point map of this name stood.
    pub fn has_map(&self, word: &'a [u8]) -> bool
        ensures { result ≡ is_named word.now self.now.maps }
    {
        self.maps.contains(word)
    }

    /// Whether the name of a location or of a number stood with another kind or class, or its place doesn't take the
    /// location.
    pub fn is_wrong_mention(&self, at: &Setting<'_, '_, 'a>, rule: Rule, parts: &[Form<'a>]) -> bool
        ensures { (above : List (List ℕ)) → result
            ≡ spec.is_wrong_mention self.now (standing_seen at.now above) rule (packed (trees_of parts.now)) }
    {
        match rule {
            Rule::Location => {
                let mention = mention_of(parts);
                self.locations.differs(&mention) || is_misplaced(at.role, &mention)
            }
            Rule::Counter => self.numbers.differs(&mention_of(parts)),
            _ => false,
        }
    }

    /// Whether a form of this role is at no fault, whatever is around it, and leaves nothing behind: none of the tests
    /// is about it, or it mentions a location or a number as the first mention of that name does.
    pub fn settles(&self, role: Role, rule: Rule, parts: &[Form<'a>]) -> bool
        ensures { result ≡ is_settled self.now role rule (packed (trees_of parts.now)) }
    {
        if role == Role::SecondSide {
            return false;
        }
        match rule {
            Rule::Location => {
                let mention = mention_of(parts);
                self.locations.repeats(&mention) && !is_misplaced(role, &mention)
            }
            Rule::Counter => self.numbers.repeats(&mention_of(parts)),
            _ => is_plain(rule),
        }
    }

    /// Whether a value that the setup gives is one too many.
    pub fn is_value_over(&self, role: Role, word: &'a [u8]) -> bool
        ensures { result ≡ spec.is_value_over self.now role word.now }
    {
        role == Role::GivenValue && is_name_over(&self.values, word)
    }

    /// Whether a form makes one too many of what it counts for.
    pub fn is_form_over(&self, whole: &Whole<'a>, rule: Rule, parts: &[Form<'a>]) -> bool
        ensures { result ≡ spec.is_form_over whole.now self.now rule (packed (trees_of parts.now)) }
    {
        match rule {
            Rule::CreateDeck => {
                goes_over(MOST_CARDS, self.cards, faces_of(part_at(3, parts)).into())
            }
            Rule::Location => self
                .locations
                .goes_over(whole, MOST_OWNED, &mention_of(parts)),
            Rule::Counter => self
                .numbers
                .goes_over(whole, MOST_OWNED, &mention_of(parts)),
            Rule::Group | Rule::Entry => is_name_over(&self.attributes, word_in(0, parts)),
            Rule::PutPoints => is_name_over(&self.maps, word_in(2, parts)),
            Rule::PlayerStage | Rule::TeamStage => goes_over(MOST_STAGES, self.stages, 1),
            Rule::Choice => goes_over(MOST_CHOICES, self.choices, 1),
            _ => false,
        }
    }
}

/// Whether none of the tests is about this form, and it leaves nothing behind.
fn is_plain(rule: Rule) -> bool
    ensures { result ≡ is_plain rule }
{
    match rule {
        Rule::Setup
        | Rule::CreatePlayers
        | Rule::CreateTeams
        | Rule::CreateDeck
        | Rule::PutPoints
        | Rule::Group
        | Rule::Entry
        | Rule::PlayerStage
        | Rule::TeamStage
        | Rule::Choice
        | Rule::AnyOf
        | Rule::Repeat
        | Rule::Each
        | Rule::Next
        | Rule::Reverse
        | Rule::Location
        | Rule::Counter
        | Rule::CurrentPlayer
        | Rule::CurrentTeam
        | Rule::Filter
        | Rule::Known
        | Rule::ForAll
        | Rule::ForAny => false,
        _ => true,
    }
}

/// Whether a word is one too many among these.
fn is_name_over<'a>(names: &DifferentNames<'a>, word: &'a [u8]) -> bool
    ensures { result ≡ spec.goes_over MOST_NAMES (length names.now) (spec.new_words word.now names.now) }
{
    let more = if names.contains(word) { 0 } else { 1 };
    goes_over(MOST_NAMES, names.len() as u64, more)
}

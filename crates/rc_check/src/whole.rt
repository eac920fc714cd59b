//! What is known of the whole form before its parts are looked at one by one.
ghost use Rattle.std.specs.Prelude.{◌≡◌, ℕ, Err, IfOk, OnOk, OnErr};
ghost use Rattle.rc_base.specs.Tree.{list};
ghost use Rattle.rc_form.specs.Form.{tree_of, trees_of, packed};
ghost use Rattle.rc_check.specs.Giving as giving;
ghost use Rattle.rc_check.specs.SecondParts as parts_spec;
ghost use Rattle.rc_check.specs.SecondParts.{Standing};
ghost use Rattle.rc_check.specs.Summary as spec;

use crate::fail::SheetFail;
use crate::names::DifferentNames;
use crate::parts::{number_at, part_at, word_in};
use crate::role::Role;
use crate::standing::role_in;
use crate::{Rule, Symbol, rule_of};
use rc_form::Form;
use std::alloc::Global;
use std::marker::Model;

/// What is known of the whole form: how many players its first line of players says, and how many teams its first line
/// of teams; the different attributes, values and point maps that its setup gives; and whether a line makes a deck.
#[derive(Drop)]
pub struct Whole<'a> {
    players: Option<u64>,
    teams: Option<u64>,
    attributes: DifferentNames<'a>,
    values: DifferentNames<'a>,
    maps: DifferentNames<'a>,
    has_deck: bool,
}

impl<'a> Model for Whole<'a> {
    ghost use Rattle.rc_check.specs.Summary.{Whole};

    ghost Value = { Whole };

    ghost use Rattle.rc_check.specs.Views.{whole_seen};

    ghost view = { whole_seen };
}

impl<'a> Whole<'a> {
    /// What is known of a form.
    pub fn of(alloc: Global, form: &Form<'a>) -> Result<Whole<'a>, SheetFail>
        ensures known { IfOk result (λ whole. whole ≡ spec.whole_of (parts_spec.parts_of (tree_of form.now))) }
        ensures memory { OnErr result (result ≡ Err SheetFail.Memory) }
    {
        let mut whole = Whole {
            players: None,
            teams: None,
            attributes: DifferentNames::new(alloc),
            values: DifferentNames::new(alloc),
            maps: DifferentNames::new(alloc),
            has_deck: false,
        };
        whole.learn(Symbol::Sheet, Role::No, form)?;
        Ok(whole)
    }

    /// How many players there are.
    pub fn players(&self) -> u64
        ensures { result ≡ spec.players_of self.now }
    {
        self.players.unwrap_or(0)
    }

    /// How many teams there are. Without a line of teams each player is a team.
    pub fn teams(&self) -> u64
        ensures { result ≡ spec.teams_of self.now }
    {
        match self.teams {
            Some(teams) => teams,
            None => self.players(),
        }
    }

    /// Whether a line makes a deck.
    pub fn has_deck(&self) -> bool
        ensures { result ≡ self.now.has_deck }
    {
        self.has_deck
    }

    /// Whether an expression uses an attribute, a value or a point map that the setup doesn't give.
    pub fn lacks(&self, role: Role, word: &'a [u8]) -> bool
        ensures { result ≡ spec.is_not_given self.now role word.now }
    {
        match role {
            Role::UsedAttribute => !self.attributes.contains(word),
            Role::UsedValue => !self.values.contains(word),
            Role::UsedMap => !self.maps.contains(word),
            _ => false,
        }
    }

    /// Learns of a part and of those in it.
    #[cycle(learning)]
    fn learn(&mut self, place: Symbol, role: Role, form: &Form<'a>) -> Result<(), SheetFail>
        ensures known { (at : Standing) → at.place ≡ place → at.role ≡ role
            → OnOk result (self.new ≡ spec.know_all self.old (parts_spec.parts_at (Some at) (tree_of form.now))) }
        ensures memory { OnErr result (result ≡ Err SheetFail.Memory) }
    {
        match form {
            Form::Atom { word, .. } => self.learn_atom(role, word.bytes()),
            Form::List { items, .. } => self.learn_list(place, role, items.as_slice()),
        }
    }

    /// Learns of a list and of its parts.
    #[cycle(learning)]
    fn learn_list(&mut self, place: Symbol, role: Role, parts: &[Form<'a>]) -> Result<(), SheetFail>
        ensures known { (at : Standing) (from to : ℕ) → at.place ≡ place → at.role ≡ role
            → OnOk result (self.new
            ≡ spec.know_all self.old (parts_spec.parts_at (Some at) (list (packed (trees_of parts.now)) from to))) }
        ensures memory { OnErr result (result ≡ Err SheetFail.Memory) }
    {
        // Most of a sheet stands behind its setup.
        if gives_nothing(place) && !is_given(role) {
            return Ok(());
        }
        let Some(rule) = rule_of(place, parts) else {
            return Ok(());
        };
        self.learn_form(rule, parts)?;
        self.learn_parts(role, rule, parts)
    }

    /// Learns of the parts of a form.
    #[cycle(learning)]
    fn learn_parts(&mut self, role: Role, rule: Rule, parts: &[Form<'a>]) -> Result<(), SheetFail>
        ensures known { (at : Standing) → at.role ≡ role
            → OnOk result (self.new ≡ spec.know_all self.old
            (parts_spec.parts_in at rule (packed (trees_of parts.now)) 0 (packed (trees_of parts.now)))) }
        ensures memory { OnErr result (result ≡ Err SheetFail.Memory) }
    {
        for (index, part) in parts.iter().enumerate() {
            if let Some(place) = rule.place_at(parts.len(), index) {
                self.learn(place, role_in(role, rule, index), part)?;
            }
        }
        Ok(())
    }

    /// Learns of an atom of this role.
    fn learn_atom(&mut self, role: Role, word: &'a [u8]) -> Result<(), SheetFail>
        ensures known { OnOk result (self.new
            ≡ record self.old { values = spec.with_value role word.now self.old.values }) }
        ensures memory { OnErr result (result ≡ Err SheetFail.Memory) }
    {
        if role == Role::GivenValue {
            self.values.insert(word)?;
        }
        Ok(())
    }

    /// Learns of a form, but for its parts.
    #[tactic(auto, using(rc_form::proofs::FormLemmas::count_packed))]
    fn learn_form(&mut self, rule: Rule, parts: &[Form<'a>]) -> Result<(), SheetFail>
        ensures known { OnOk result (self.new ≡ spec.know_form self.old rule (packed (trees_of parts.now))) }
        ensures memory { OnErr result (result ≡ Err SheetFail.Memory) }
    {
        match rule {
            Rule::CreatePlayers => {
                let players = number_at(part_at(2, parts));
                self.players = Some(self.players.unwrap_or(players));
                Ok(())
            }
            Rule::CreateTeams => {
                let teams = parts.len().saturating_sub(2) as u64;
                self.teams = Some(self.teams.unwrap_or(teams));
                Ok(())
            }
            Rule::CreateDeck => {
                self.has_deck = true;
                Ok(())
            }
            Rule::Group | Rule::Entry => self.attributes.insert(word_in(0, parts)),
            Rule::PutPoints => self.maps.insert(word_in(2, parts)),
            _ => Ok(()),
        }
    }
}

/// Whether neither a form at this place gives anything, nor one that stands in it.
fn gives_nothing(place: Symbol) -> bool
    ensures { result ≡ giving.gives_nothing place }
{
    match place {
        Symbol::Sheet
        | Symbol::Setup
        | Symbol::Line
        | Symbol::Team
        | Symbol::Deck
        | Symbol::Group
        | Symbol::Branches
        | Symbol::Branch
        | Symbol::Entries
        | Symbol::Entry
        | Symbol::Values => false,
        _ => true,
    }
}

/// Whether an atom of this role is a value that the setup gives.
fn is_given(role: Role) -> bool
    ensures { result ≡ giving.is_given role }
{
    match role {
        Role::GivenValue => true,
        _ => false,
    }
}

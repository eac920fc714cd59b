//! Locations and stored numbers, by their names and owners.
ghost use Rattle.std.specs.Prelude.{◌≡◌, ◌<◌, ◌+◌, ◌^◌, map, option_map, Err, OnOk, OnErr};
ghost use Rattle.rc_form.specs.Form.{tree_of, trees_of, packed};
ghost use Rattle.rc_sheet_spec.specs.WellFormed as model;
ghost use Rattle.rc_check.specs.Classes as classes;
ghost use Rattle.rc_check.specs.SecondFaults as faults;
ghost use Rattle.rc_check.specs.SecondNames as names;
ghost use Rattle.rc_check.specs.Settled as settled;
ghost use Rattle.rc_check.specs.Summary as spec;
ghost use Rattle.rc_check.specs.Seen.{part_seen, mention_seen};

use crate::fail::SheetFail;
use crate::parts::{part_at, word_in};
use crate::role::Role;
use crate::whole::Whole;
use crate::{Keyword, Rule, Symbol, is_word, rule_of};
use rc_base::{Class, is_same};
use rc_form::Form;
use std::alloc::Global;
use std::marker::Model;

/// A mention of a location or of a stored number: its name, the word of its kind, and the class of its owner as it is
/// written.
#[derive(Clone, Copy)]
pub struct Mention<'a> {
    pub name: &'a [u8],
    pub kind: &'a [u8],
    pub class: Class,
}

/// The mention that a list of these parts is.
#[inline(always)]
pub fn mention_of<'a>(parts: &[Form<'a>]) -> Mention<'a>
    ensures { mention_seen result ≡ names.mention_of (packed (trees_of parts.now)) }
{
    Mention {
        name: word_in(2, parts),
        kind: word_in(1, parts),
        class: class_at(part_at(0, parts)),
    }
}

/// The class of an owner as it is written.
pub fn class_at(part: Option<&Form>) -> Class
    ensures { result ≡ classes.class_at (part_seen part.entry) }
{
    match part {
        Some(Form::Atom { word, .. }) if is_word(Keyword::Game, word.bytes()) => Class::Game,
        Some(Form::Atom { .. }) => Class::Player,
        Some(Form::List { items, .. })
            if rule_of(Symbol::Owner, items.as_slice()) == Some(Rule::CurrentPlayer) => {
            Class::Player
        }
        _ => Class::Team,
    }
}

/// Whether a place doesn't take a location: a deck's is the game's, and cards and references have locations of their
/// own.
pub fn is_misplaced(role: Role, mention: &Mention<'_>) -> bool
    ensures { result ≡ faults.is_misplaced role (mention_seen mention.now) }
{
    match role {
        Role::DeckLocation => mention.class != Class::Game || is_word(Keyword::Mem, mention.kind),
        Role::CardLocation => is_word(Keyword::Mem, mention.kind),
        Role::ReferenceLocation => !is_word(Keyword::Mem, mention.kind),
        _ => false,
    }
}

/// The first mention of each name, and how many locations, or numbers, there are of all owners, counted no further than
/// one above the limit.
#[derive(Drop)]
pub struct Owned<'a> {
    firsts: Vec<Mention<'a>>,
    total: u64,
}

impl<'a> Model for Owned<'a> {
    ghost use Rattle.rc_check.specs.Summary.{Owned};

    ghost Value = { Owned };

    ghost use Rattle.rc_check.specs.Views.{owned_seen};

    ghost view = { owned_seen };
}

impl<'a> Owned<'a> {
    /// Nothing.
    pub fn new(alloc: Global) -> Owned<'a>
        ensures { result ≡ spec.nothing_owned }
    {
        Owned {
            firsts: Vec::new(alloc),
            total: 0,
        }
    }

    /// Whether the name stood earlier with another kind or class.
    pub fn differs(&self, mention: &Mention<'a>) -> bool
        ensures { result ≡ faults.is_other_mention self.now.firsts (mention_seen mention.now) }
    {
        match first_among(&self.firsts, mention.name) {
            Some(first) => first.kind != mention.kind || first.class != mention.class,
            None => false,
        }
    }

    /// Whether the name stood earlier, and first with the same kind and class.
    pub fn repeats(&self, mention: &Mention<'a>) -> bool
        ensures { result ≡ settled.is_repeated self.now (mention_seen mention.now) }
    {
        match first_among(&self.firsts, mention.name) {
            Some(first) => is_same(mention.kind, first.kind) && mention.class == first.class,
            None => false,
        }
    }

    /// Whether the name stood earlier.
    fn is_mentioned(&self, mention: &Mention<'a>) -> bool
        ensures { result ≡ spec.is_mentioned (mention_seen mention.now) self.now }
    {
        first_among(&self.firsts, mention.name).is_some()
    }

    /// Whether there are too many with a mention.
    pub fn goes_over(&self, whole: &Whole<'a>, most: u64, mention: &Mention<'a>) -> bool
        requires { most < 2 ^ 32 }
        ensures { result ≡ spec.goes_over most self.now.total
            (spec.new_owned whole.now (mention_seen mention.now) self.now) }
    {
        if self.is_mentioned(mention) {
            return goes_over(most, self.total, 0);
        }
        goes_over(most, self.total, owners_of(whole, mention.class))
    }

    /// Takes a mention.
    pub fn insert(
        &mut self,
        whole: &Whole<'a>,
        most: u64,
        mention: Mention<'a>,
    ) -> Result<(), SheetFail>
        requires { most < 2 ^ 32 }
        ensures after { OnOk result (self.new
            ≡ spec.with_mention whole.now most (mention_seen mention.entry) self.old) }
        ensures memory { OnErr result (result ≡ Err SheetFail.Memory) }
    {
        if self.is_mentioned(&mention) {
            return Ok(());
        }
        self.firsts.push(mention)?;
        self.total = add_to_count(most, self.total, owners_of(whole, mention.class));
        Ok(())
    }
}

/// The first mention of a name among these.
fn first_among<'a>(mentions: &[Mention<'a>], name: &[u8]) -> Option<Mention<'a>>
    ensures { option_map mention_seen result ≡ names.first_mention name.now (map mention_seen mentions.now) }
{
    for mention in mentions {
        if is_same(name, mention.name) {
            return Some(*mention);
        }
    }
    None
}

/// How many owners there are of a class.
fn owners_of(whole: &Whole<'_>, class: Class) -> u64
    ensures { result ≡ model.owner_count_by (spec.players_of whole.now) (spec.teams_of whole.now) class }
{
    match class {
        Class::Game => 1,
        Class::Player => whole.players(),
        Class::Team => whole.teams(),
    }
}

/// Whether a count that is within its limit passes it with so many more.
pub fn goes_over(most: u64, count: u64, more: u64) -> bool
    requires { most < 2 ^ 32 }
    ensures { result ≡ spec.goes_over most count more }
{
    count <= most && most < count.saturating_add(more)
}

/// A count and so many more. It stops one above its limit.
pub fn add_to_count(most: u64, count: u64, more: u64) -> u64
    requires { most < 2 ^ 32 }
    ensures { result ≡ spec.counted most count more }
{
    count.saturating_add(more).min(most + 1)
}

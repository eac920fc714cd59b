//! What is around a place of a form.
ghost use Rattle.std.specs.Prelude.{◌≡◌, ◌<◌, ℕ, false, Err, OnErr, IfOk, map, option_map, is_some, slice_index_or};
ghost use Rattle.rc_form.specs.Form.{tree_of, trees_of, packed};
ghost use Rattle.rc_check.specs.Classes as classes;
ghost use Rattle.rc_check.specs.SecondFaults as faults;
ghost use Rattle.rc_check.specs.SecondParts as parts_spec;
ghost use Rattle.rc_check.specs.Seen.{part_seen, variable_seen, inner_seen};

use crate::fail::SheetFail;
use crate::parts::{part_at, word_in};
use crate::{Keyword, Rule, Symbol, is_word, rule_of};
use rc_base::{Sort, is_same};
use rc_form::Form;
use std::alloc::Global;
use std::marker::Model;

/// A variable that is bound around a place.
#[derive(Clone, Copy)]
pub struct BoundVariable<'a> {
    pub word: &'a [u8],
    pub sort: Sort,
}

/// What is around a place: the variables in scope, from outside to inside, how many binders, whether player stages and
/// team stages, and how many repeats.
#[derive(Drop)]
pub struct Around<'a> {
    scope: Vec<BoundVariable<'a>>,
    binders: u32,
    player_stage: bool,
    team_stage: bool,
    repeats: u32,
}

impl<'a> Model for Around<'a> {
    ghost use Rattle.rc_sheet_spec.specs.WellFormed.{Around};

    ghost Value = { Around };

    ghost use Rattle.rc_check.specs.Views.{around_seen};

    ghost view = { around_seen };
}

/// What is around the parts of a form: what is around the form itself, another thing, or that other thing behind the
/// part at an index alone.
#[derive(Drop)]
pub enum Inner<'a> {
    Same,
    All(Around<'a>),
    Behind(usize, Around<'a>),
}

impl<'a> Around<'a> {
    ghost use Rattle.rc_base.specs.Limits.{most_variables, most_repeats};
    ghost use Rattle.rc_sheet_spec.specs.Sheet.{player_class, team_class};
    ghost use Rattle.rc_sheet_spec.specs.WellFormed as model;

    /// Nothing.
    pub fn outside(alloc: Global) -> Around<'a>
        ensures { result ≡ model.outside }
    {
        Around {
            scope: Vec::new(alloc),
            binders: 0,
            player_stage: false,
            team_stage: false,
            repeats: 0,
        }
    }

    /// What is around the score: the player who is scored is `'SELF`.
    fn of_score(alloc: Global) -> Result<Around<'a>, SheetFail>
        ensures around { IfOk result (λ around. around ≡ model.scored) }
        ensures memory { OnErr result (result ≡ Err SheetFail.Memory) }
    {
        let mut around = Around::outside(alloc);
        around.scope.push(BoundVariable {
            word: b"'SELF",
            sort: Sort::Player,
        })?;
        Ok(around)
    }

    /// The same.
    fn copy(&self, alloc: Global) -> Result<Around<'a>, SheetFail>
        ensures around { IfOk result (λ around. around ≡ self.now) }
        ensures memory { OnErr result (result ≡ Err SheetFail.Memory) }
    {
        Ok(Around {
            scope: Vec::from_slice(alloc, &self.scope)?,
            binders: self.binders,
            player_stage: self.player_stage,
            team_stage: self.team_stage,
            repeats: self.repeats,
        })
    }

    /// What is around the parts of a player stage.
    fn in_player_stage(&self, alloc: Global) -> Result<Around<'a>, SheetFail>
        ensures around { IfOk result (λ around. around ≡ model.in_stage player_class self.now) }
        ensures memory { OnErr result (result ≡ Err SheetFail.Memory) }
    {
        let mut around = self.copy(alloc)?;
        around.player_stage = true;
        Ok(around)
    }

    /// What is around the parts of a team stage.
    fn in_team_stage(&self, alloc: Global) -> Result<Around<'a>, SheetFail>
        ensures around { IfOk result (λ around. around ≡ model.in_stage team_class self.now) }
        ensures memory { OnErr result (result ≡ Err SheetFail.Memory) }
    {
        let mut around = self.copy(alloc)?;
        around.team_stage = true;
        Ok(around)
    }

    /// What is around the effects of a repeat.
    fn in_repeat(&self, alloc: Global) -> Result<Around<'a>, SheetFail>
        requires { self.now.repeats < most_repeats }
        ensures around { IfOk result (λ around. around ≡ model.in_repeat self.now) }
        ensures memory { OnErr result (result ≡ Err SheetFail.Memory) }
    {
        let mut around = self.copy(alloc)?;
        around.repeats += 1;
        Ok(around)
    }

    /// What is around the body of a binder.
    fn bound_in(&self, alloc: Global, word: &'a [u8], sort: Sort) -> Result<Around<'a>, SheetFail>
        requires { self.now.binders < most_variables }
        ensures around { IfOk result (λ around. around ≡ classes.bound_in self.now word.now sort) }
        ensures memory { OnErr result (result ≡ Err SheetFail.Memory) }
    {
        let mut around = self.copy(alloc)?;
        around.scope.push(BoundVariable { word, sort })?;
        around.binders += 1;
        Ok(around)
    }

    /// What is around the parts of a form that isn't too deep.
    pub fn inner(
        &self,
        alloc: Global,
        rule: Rule,
        parts: &[Form<'a>],
    ) -> Result<Inner<'a>, SheetFail>
        requires { faults.is_deep self.now rule ≡ false }
        ensures around { (index : ℕ) → IfOk result (λ inner.
            inner_seen self.now inner index ≡ parts_spec.around_in self.now rule (packed (trees_of parts.now)) index) }
        ensures memory { OnErr result (result ≡ Err SheetFail.Memory) }
    {
        match rule {
            Rule::Scoring => Ok(Inner::All(Around::of_score(alloc)?)),
            Rule::PlayerStage => Ok(Inner::All(self.in_player_stage(alloc)?)),
            Rule::TeamStage => Ok(Inner::All(self.in_team_stage(alloc)?)),
            Rule::Repeat => Ok(Inner::Behind(1, self.in_repeat(alloc)?)),
            Rule::Filter | Rule::AnyOf | Rule::Each | Rule::ForAll | Rule::ForAny => {
                let sort = sort_over(part_at(1, parts));
                let body = self.bound_in(alloc, word_in(2, parts), sort)?;
                Ok(Inner::Behind(2, body))
            }
            _ => Ok(Inner::Same),
        }
    }

    /// Whether a player stage is around.
    pub fn player_stage(&self) -> bool
        ensures { result ≡ self.now.player_stage }
    {
        self.player_stage
    }

    /// Whether a team stage is around.
    pub fn team_stage(&self) -> bool
        ensures { result ≡ self.now.team_stage }
    {
        self.team_stage
    }

    /// How many binders are around.
    pub fn binders(&self) -> u32
        ensures { result ≡ self.now.binders }
    {
        self.binders
    }

    /// How many repeats are around.
    pub fn repeats(&self) -> u32
        ensures { result ≡ self.now.repeats }
    {
        self.repeats
    }

    /// What the variable with this word stands for, where it is in scope.
    pub fn sort_of(&self, word: &[u8]) -> Option<Sort>
        ensures { result
            ≡ option_map (λ variable. variable.sort) (faults.variable_in self.now.scope word.now) }
    {
        sort_among(&self.scope, word)
    }

    /// Whether a variable with this word is in scope.
    pub fn binds(&self, word: &[u8]) -> bool
        ensures { result ≡ is_some (faults.variable_in self.now.scope word.now) }
    {
        self.sort_of(word).is_some()
    }
}

impl<'a> Inner<'a> {
    /// What is around the part at this index, where this is around the form.
    pub fn at<'s>(&'s self, outer: &'s Around<'a>, index: usize) -> &'s Around<'a>
        ensures { result.now ≡ inner_seen outer.now self.now index }
    {
        match self {
            Inner::Same => outer,
            Inner::All(around) => around,
            Inner::Behind(last, around) => if *last < index { around } else { outer },
        }
    }
}

/// What the first variable with this word stands for.
fn sort_among(scope: &[BoundVariable<'_>], word: &[u8]) -> Option<Sort>
    ensures { result
        ≡ option_map (λ variable. variable.sort) (faults.variable_in (map variable_seen scope.now) word.now) }
{
    for variable in scope {
        if is_same(word, variable.word) {
            return Some(variable.sort);
        }
    }
    None
}

/// What a variable stands for that runs over this part.
fn sort_over(part: Option<&Form>) -> Sort
    ensures { result ≡ parts_spec.sort_over (part_seen part.entry) }
{
    match part {
        Some(Form::Atom { word, .. }) if is_word(Keyword::Player, word.bytes()) => Sort::Player,
        Some(Form::List { items, .. })
            if rule_of(Symbol::Domain, items.as_slice()) == Some(Rule::Partition) => { Sort::Group }
        _ => Sort::Card,
    }
}

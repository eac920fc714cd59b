//! The variables that are bound around a place of a form.
ghost use Rattle.std.specs.Prelude.{◌≡◌, ◌<◌, ◌≤◌, IfSome, length, position, bytes_eq};
ghost use Rattle.rc_sheet.specs.ReadNames as reading;
ghost use Rattle.rc_sheet.specs.Gives.{Gives};

use crate::fail::Unread;
use rc_ast::{Sort, Word};
use rc_check::is_variable;
use std::alloc::Global;
use std::marker::Model;

/// A variable that is bound around a place.
#[derive(Clone, Copy, PartialEq, Eq, Debug)]
pub struct ScopedVariable {
    pub word: Word,
    pub sort: Sort,
}

/// The variables that are bound around a place, from outside to inside: `'SELF` and four more at most.
#[derive(Drop)]
pub struct Scope {
    variables: Vec<ScopedVariable>,
}

impl Model for Scope {
    ghost use Rattle.rc_sheet_spec.specs.Naming.{Scope};

    ghost Value = { Scope };

    ghost use Rattle.rc_sheet.specs.Reader.{scope_seen, IsScope};

    ghost view = { scope_seen };

    ghost invariant = { IsScope };
}

impl Scope {
    ghost use Rattle.std.specs.Prelude.{[], ◌∷◌, ◌++◌, Err, OnErr, IfOk, slice_get, option_map};
    ghost use Rattle.rc_sheet_spec.specs.Naming.{self_scope};
    ghost use Rattle.rc_sheet.specs.declared.fail.Unread.TheVariants.{Memory};

    /// No variable.
    pub fn empty(alloc: Global) -> Scope
        ensures { result ≡ [] }
    {
        Scope {
            variables: Vec::new(alloc),
        }
    }

    /// What is bound around the score: the player who is scored is `'SELF`.
    pub fn of_score(alloc: Global) -> Result<Scope, Unread>
        ensures scope { IfOk result (λ scope. scope ≡ self_scope) }
        ensures memory { OnErr result (result ≡ Err Memory) }
    {
        let mut variables = Vec::new(alloc);
        variables.push(ScopedVariable {
            word: Word::of(b"'SELF"),
            sort: Sort::Player,
        })?;
        Ok(Scope { variables })
    }

    /// The scope with one more variable.
    pub fn with(&self, alloc: Global, word: &Word, sort: Sort) -> Result<Scope, Unread>
        requires room { length self.now ≤ 4 }
        ensures scope { IfOk result (λ scope. scope ≡ self.now ++ record { word = word.now; sort = sort } ∷ []) }
        ensures memory { OnErr result (result ≡ Err Memory) }
    {
        let mut variables = Vec::from_slice(alloc, &self.variables)?;
        variables.push(ScopedVariable { word: *word, sort })?;
        Ok(Scope { variables })
    }

    /// How many variables there are.
    pub fn len(&self) -> usize
        ensures { result ≡ length self.now }
    {
        self.variables.len()
    }

    /// The place of the first variable with this word.
    #[tactic(auto, using(crate::proofs::Places::position_map))]
    pub fn place_of(&self, word: &[u8]) -> Option<u8>
        ensures place { result ≡ reading.place_in self.now word.now }
        ensures within { IfSome result (λ place. place < length self.now) }
    {
        let place = place_among(&self.variables, word)?;
        Some(place as u8)
    }

    /// What the variable in this place stands for.
    pub fn sort_at(&self, place: u8) -> Option<Sort>
        ensures { result ≡ option_map (λ variable. variable.sort) (slice_get self.now place) }
    {
        Some(self.variables.get(usize::from(place))?.sort)
    }

    /// The place of a variable, where it has this sort.
    #[tactic(auto, unfolding(crate::specs::ReadNames::variable_in))]
    pub fn variable(&self, sort: Sort, word: &[u8]) -> Result<u8, Unread>
        ensures { Gives (λ place. place) result (reading.variable_in self.now sort word.now) }
    {
        if !is_variable(word) {
            return Err(Unread::Meaningless);
        }
        let Some(place) = self.place_of(word) else {
            return Err(Unread::Meaningless);
        };
        if !self.has_sort(place, sort) {
            return Err(Unread::Meaningless);
        }
        Ok(place)
    }

    /// Whether the variable in this place has this sort.
    fn has_sort(&self, place: u8, sort: Sort) -> bool
        ensures { result ≡ reading.has_sort sort (slice_get self.now place) }
    {
        match self.variables.get(usize::from(place)) {
            Some(variable) => variable.sort == sort,
            None => false,
        }
    }
}

/// The place of a variable among these.
fn place_among(variables: &[ScopedVariable], word: &[u8]) -> Option<usize>
    ensures place { result ≡ position (λ variable. bytes_eq word.now variable.word) variables.now }
    ensures within { IfSome result (λ place. place < length variables.now) }
{
    variables
        .iter()
        .position(|variable| word == variable.word.bytes())
}

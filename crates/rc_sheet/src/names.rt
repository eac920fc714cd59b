//! Names, whose numbers are known, and the forms of lists.
ghost use Rattle.std.specs.Prelude.{◌≡◌, ◌<◌, ◌≤◌, IsTrue, IfOk, IfSome, length, position, bytes_eq};
ghost use Rattle.rc_base.specs.Limits.{most_attrs};
ghost use Rattle.rc_form.specs.Form.{tree_of, trees_of, packed};
ghost use Rattle.rc_check.specs.Faults.{fits};
ghost use Rattle.rc_sheet_spec.specs.Naming as model;
ghost use Rattle.rc_sheet.specs.ReadNames as reading;
ghost use Rattle.rc_sheet.specs.ReadParts.{face_at};
ghost use Rattle.rc_sheet.specs.Gives.{Gives};

use crate::fail::Unread;
use crate::made::both_read;
use crate::reader::Reader;
use crate::scope::Scope;
use rc_ast::{Sort, Word};
use rc_base::is_same;
use rc_base::limits::MOST_VARIABLES;
use rc_check::{Keyword, Rule, Symbol, is_form_word, is_variable, rule_of};
use rc_form::Form;
use std::alloc::Global;

/// The form that a list has at a place, which has as many parts.
#[tactic(auto, using(rc_form::proofs::FormLemmas::count_packed))]
pub fn rule_at(place: Symbol, parts: &[Form]) -> Result<Rule, Unread>
    ensures given { Gives (λ rule. rule) result (reading.rule_at place (packed (trees_of parts.now))) }
    ensures sized { IfOk result (λ rule. IsTrue (fits (length parts.now) rule)) }
{
    match rule_of(place, parts) {
        Some(rule) if rule.fits(parts.len()) => Ok(rule),
        _ => Err(Unread::Meaningless),
    }
}

/// The place of a word among these.
fn place_of(words: &[Word], word: &[u8]) -> Option<usize>
    ensures place { result ≡ position (bytes_eq word.now) words.now }
    ensures within { IfSome result (λ place. place < length words.now) }
{
    words.iter().position(|other| is_same(word, other.bytes()))
}

/// The number of a plain word among these, where it is one.
#[tactic(auto, unfolding(crate::specs::ReadNames::name_at))]
pub fn number_in(words: &[Word], form: &Form) -> Option<u16>
    requires few { length words.now ≤ most_attrs }
    ensures { result ≡ reading.name_at words.now (tree_of form.now) }
{
    let Form::Atom { word, .. } = form else {
        return None;
    };
    if is_variable(word.bytes()) {
        return None;
    }
    let place = place_of(words, word.bytes())?;
    Some(place as u16)
}

/// The number of a plain word among these.
pub fn name_at(words: &[Word], form: &Form) -> Result<u16, Unread>
    requires few { length words.now ≤ most_attrs }
    ensures { Gives (λ number. number) result (reading.name_at words.now (tree_of form.now)) }
{
    match number_in(words, form) {
        Some(number) => Ok(number),
        None => Err(Unread::Meaningless),
    }
}

impl Reader {
    /// The number of an attribute.
    pub(crate) fn attr(&self, form: &Form) -> Result<u16, Unread>
        ensures { Gives (λ number. number) result (reading.name_at self.now.names.attrs (tree_of form.now)) }
    {
        name_at(&self.names.attrs, form)
    }

    /// The number of a value.
    pub(crate) fn value(&self, form: &Form) -> Result<u16, Unread>
        ensures { Gives (λ number. number) result (reading.name_at self.now.names.values (tree_of form.now)) }
    {
        name_at(&self.names.values, form)
    }

    /// The numbers of an attribute and of a value.
    pub(crate) fn face(&self, attr: &Form, value: &Form) -> Result<(u16, u16), Unread>
        ensures { Gives (λ two. (two.0, two.1)) result (face_at self.now (tree_of attr.now) (tree_of value.now)) }
    {
        let attr = self.attr(attr);
        let value = self.value(value);
        both_read(attr, value)
    }

    /// The number of a point map behind the word `using`.
    #[tactic(auto, unfolding(crate::specs::ReadNames::map_at))]
    pub(crate) fn map(&self, word: &Form, name: &Form) -> Result<u16, Unread>
        ensures { Gives (λ number. number) result (reading.map_at self.now (tree_of word.now) (tree_of name.now)) }
    {
        if !is_form_word(Keyword::Using, word) {
            return Err(Unread::Meaningless);
        }
        name_at(&self.names.maps, name)
    }

    /// The number of a binder's variable, and the scope behind the binder.
    #[tactic(auto, unfolding(crate::specs::ReadNames::binder_at))]
    pub(crate) fn bind(
        &self,
        alloc: Global,
        scope: &Scope,
        form: &Form,
        sort: Sort,
    ) -> Result<(u32, Scope), Unread>
        ensures given { Gives (λ bound. bound.0) result
            (reading.binder_at self.now.names.vars scope.now (tree_of form.now)) }
        ensures inner { IfOk result (λ bound. bound.1 ≡ model.bind self.now scope.now bound.0 sort) }
    {
        let Form::Atom { word, .. } = form else {
            return Err(Unread::Meaningless);
        };
        if !is_variable(word.bytes()) || scope.len() > MOST_VARIABLES as usize {
            return Err(Unread::Meaningless);
        }
        let Some(number) = self.variable(word) else {
            return Err(Unread::Meaningless);
        };
        let inner = scope.with(alloc, &self.names.vars[number as usize], sort)?;
        Ok((number, inner))
    }
}

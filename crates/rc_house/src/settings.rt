//! The options in a list of words, in any order.
ghost use Rattle.std.specs.Prelude.{ℕ, ◌≡◌, ◌↔◌, List, None, map, string_bytes, if◌then◌else◌};
ghost use Rattle.std.specs.Prelude.{IsTrue, IfSome, IsSomeAnd};
ghost use Rattle.rc_house.specs.Words.{AreOptions, IsFirst, is_same, text_of};
ghost use Rattle.rc_house.specs.declared.option.OptionName.{OptionName};

use crate::option::{OptionName, behind_option};

/// The texts of options, as far as they are named.
#[derive(Clone, Copy)]
pub(crate) struct Texts<'a> {
    pub(crate) workers: Option<&'a str>,
    pub(crate) cache: Option<&'a str>,
    pub(crate) format: Option<&'a str>,
}

impl<'a> Texts<'a> {
    /// Whether no option is named.
    pub(crate) fn is_empty(self) -> bool
        ensures { IsTrue result
            ↔ ((self.entry.workers ≡ None) × (self.entry.cache ≡ None) × (self.entry.format ≡ None)) }
    {
        self.workers.is_none() && self.cache.is_none() && self.format.is_none()
    }

    /// The texts of the other options.
    pub(crate) fn without(self, name: OptionName) -> Texts<'a>
        ensures { (other : _) → text_of result other ≡ if is_same name other then None else text_of self.entry other }
    {
        match name {
            OptionName::Workers => Texts {
                workers: None,
                ..self
            },
            OptionName::Cache => Texts {
                cache: None,
                ..self
            },
            OptionName::Format => Texts {
                format: None,
                ..self
            },
        }
    }
}

/// The option that the words begin with, with its text, and the words behind it.
fn first_option<'a>(words: &'a [String], texts: Texts<'_>) -> Option<(OptionName, &'a [String])>
    ensures some { IfSome result (λ first. IsFirst first.0 (text_of texts.entry first.0) (map string_bytes words.now)
        (map string_bytes first.1.now)) }
    ensures only { (name : OptionName) (back : List (List ℕ))
        → IsFirst name (text_of texts.entry name) (map string_bytes words.now) back
        → IsSomeAnd result (λ first. (first.0 ≡ name) × (map string_bytes first.1.now ≡ back)) }
{
    if let Some(rest) = behind_option(words, OptionName::Workers, texts.workers) {
        return Some((OptionName::Workers, rest));
    }
    if let Some(rest) = behind_option(words, OptionName::Cache, texts.cache) {
        return Some((OptionName::Cache, rest));
    }
    match behind_option(words, OptionName::Format, texts.format) {
        Some(rest) => Some((OptionName::Format, rest)),
        None => None,
    }
}

/// Whether the words give the options these texts, in any order, and say nothing else.
pub(crate) fn are_options(words: &[String], texts: Texts<'_>) -> bool
    ensures { IsTrue result ↔ AreOptions (text_of texts.entry) (map string_bytes words.now) }
{
    let mut rest = words;
    let mut left = texts;
    while !rest.is_empty() {
        match first_option(rest, left) {
            Some((name, behind)) => {
                rest = behind;
                left = left.without(name);
            }
            None => return false,
        }
    }
    left.is_empty()
}

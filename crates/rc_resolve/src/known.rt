//! The names that are known so far.
ghost use Rattle.std.specs.Prelude.{◌≡◌, [], length, IsTrue, bytes_eq, OnOk, option_map, option_to_list};
ghost use Rattle.std.specs.List.{list_any};
ghost use Rattle.std.specs.Map.{keys_of};
ghost use Rattle.rc_form.specs.Form.{tree_of, trees_of, packed};
ghost use Rattle.rc_sheet_spec.specs.FormMentions.{word_of};
ghost use Rattle.rc_resolve.specs.Mentions.{loc_mention};
ghost use Rattle.rc_resolve.specs.Known.{with_first, with_words, with_all, own, none, in_deck_of, maps_alone, locs_alone, nums_alone, variables, loc_seen, num_seen};

use crate::uses::{Located, attr_in, loc_in, map_in, num_in, value_in, word_of};
use rc_ast::Class;
use rc_base::{Firsts, OrderedWord};
use rc_form::{Form, Word};
use std::alloc::{AllocError, Global};
use std::marker::Model;

/// How many entries are looked at before the index of all.
const MOST_EARLY: usize = 8;

/// The different names of each kind that were mentioned so far, in the order of their first mention, and what the first
/// mention of a location or of a stored number says.
#[derive(Drop)]
pub struct Known {
    pub(crate) attrs: Firsts<OrderedWord, ()>,
    pub(crate) values: Firsts<OrderedWord, ()>,
    pub(crate) maps: Firsts<OrderedWord, ()>,
    pub(crate) locs: Firsts<OrderedWord, Located>,
    pub(crate) nums: Firsts<OrderedWord, Class>,
    pub(crate) vars: Firsts<OrderedWord, ()>,
}

impl Model for Known {
    ghost use Rattle.rc_resolve.specs.Mentions.{Mentions};

    ghost Value = { Mentions };

    ghost use Rattle.rc_resolve.specs.Known.{known_seen};

    ghost view = { known_seen };
}

impl Known {
    /// No names. It takes no memory.
    pub fn new(alloc: Global) -> Known
        ensures { result ≡ none }
    {
        Known {
            attrs: Firsts::new(alloc),
            values: Firsts::new(alloc),
            maps: Firsts::new(alloc),
            locs: Firsts::new(alloc),
            nums: Firsts::new(alloc),
            vars: Firsts::new(alloc),
        }
    }

    /// Adds the attribute that the form is, where it is an atom.
    pub fn add_attr(&mut self, form: &Form) -> Result<(), AllocError>
        ensures { OnOk result (self.new ≡ with_all self.old (in_deck_of (word_of (tree_of form.now)) [])) }
    {
        add_word(&mut self.attrs, word_of(form))
    }

    /// Adds the value that the form is, where it is an atom.
    pub fn add_value(&mut self, form: &Form) -> Result<(), AllocError>
        ensures { OnOk result (self.new ≡ with_all self.old (in_deck_of [] (word_of (tree_of form.now)))) }
    {
        add_word(&mut self.values, word_of(form))
    }

    /// Adds a point map, where there is one.
    pub fn add_map(&mut self, map: Option<Word>) -> Result<(), AllocError>
        ensures { OnOk result (self.new ≡ with_all self.old (maps_alone (option_to_list map))) }
    {
        add_word(&mut self.maps, map)
    }

    /// Adds the variable that the form is, where it is an atom.
    pub fn add_variable(&mut self, form: &Form) -> Result<(), AllocError>
        ensures { OnOk result (self.new ≡ with_all self.old (variables (word_of (tree_of form.now)))) }
    {
        add_word(&mut self.vars, word_of(form))
    }

    /// Adds the names that a list of these parts mentions itself, but for variables. Lists of three parts and of four
    /// alone mention any.
    pub fn add_own(&mut self, parts: &[Form]) -> Result<(), AllocError>
        ensures { OnOk result (self.new ≡ with_all self.old (own (packed (trees_of parts.now)))) }
    {
        match parts {
            [_, _, _] => self.add_own_of_three(parts),
            [_, _, _, _] => self.add_own_of_four(parts),
            _ => Ok(()),
        }
    }

    /// Adds those of a list of three parts: an attribute, and a location or a stored number.
    #[tactic(auto, using(crate::proofs::Own::no_value_of_three, crate::proofs::Own::no_map_of_three))]
    fn add_own_of_three(&mut self, parts: &[Form]) -> Result<(), AllocError>
        requires { length parts.now ≡ 3 }
        ensures { OnOk result (self.new ≡ with_all self.old (own (packed (trees_of parts.now)))) }
    {
        add_word(&mut self.attrs, attr_in(parts))?;
        self.add_location(loc_in(parts))?;
        self.add_number(num_in(parts))
    }

    /// Adds those of a list of four parts: an attribute with its value, and a point map.
    #[tactic(auto, using(crate::proofs::Own::no_location_of_four, crate::proofs::Own::no_number_of_four))]
    fn add_own_of_four(&mut self, parts: &[Form]) -> Result<(), AllocError>
        requires { length parts.now ≡ 4 }
        ensures { OnOk result (self.new ≡ with_all self.old (own (packed (trees_of parts.now)))) }
    {
        add_word(&mut self.attrs, attr_in(parts))?;
        add_word(&mut self.values, value_in(parts))?;
        add_word(&mut self.maps, map_in(parts))
    }

    /// Adds the location that a list of these parts mentions itself.
    pub fn add_own_location(&mut self, parts: &[Form]) -> Result<(), AllocError>
        ensures { OnOk result (self.new ≡ with_all self.old (locs_alone (loc_mention (packed (trees_of parts.now))))) }
    {
        self.add_location(loc_in(parts))
    }

    /// Adds a mention of a location, where there is one.
    #[inline(always)]
    fn add_location(&mut self, found: Option<(Word, Located)>) -> Result<(), AllocError>
        ensures { OnOk result (self.new ≡ with_all self.old (locs_alone (option_to_list (option_map loc_seen found)))) }
    {
        match found {
            Some(entry) => add_entry(&mut self.locs, entry.0, entry.1),
            None => Ok(()),
        }
    }

    /// Adds a mention of a stored number, where there is one.
    #[inline(always)]
    fn add_number(&mut self, found: Option<(Word, Class)>) -> Result<(), AllocError>
        ensures { OnOk result (self.new ≡ with_all self.old (nums_alone (option_to_list (option_map num_seen found)))) }
    {
        match found {
            Some(entry) => add_entry(&mut self.nums, entry.0, entry.1),
            None => Ok(()),
        }
    }
}

/// Adds a word, unless it is known.
#[inline(always)]
fn add_word(words: &mut Firsts<OrderedWord, ()>, word: Option<Word>) -> Result<(), AllocError>
    ensures { OnOk result (keys_of words.new ≡ with_words (keys_of words.old) (option_to_list word)) }
{
    match word {
        Some(word) => add_entry(words, word, ()),
        None => Ok(()),
    }
}

/// Adds a word with what its mention says, unless the word is known.
fn add_entry<V: Copy>(
    entries: &mut Firsts<OrderedWord, V>,
    word: Word,
    said: V,
) -> Result<(), AllocError>
    ensures { OnOk result (entries.new ≡ with_first (λ e. e.0) entries.old (word, said)) }
{
    let word = OrderedWord::of(word);
    if is_early(entries.entries(), &word) {
        return Ok(());
    }
    entries.insert(word, said)
}

/// Whether a word is one of the first entries. Most mentions are of few names, which are found so in less time than in
/// the index of all.
fn is_early<V>(entries: &[(OrderedWord, V)], word: &OrderedWord) -> bool
    ensures { IsTrue result → IsTrue (list_any (λ entry. bytes_eq word.now entry.0) entries.now) }
{
    let count = entries.len().min(MOST_EARLY);
    entries[..count].iter().any(|entry| *word == entry.0)
}

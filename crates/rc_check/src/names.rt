//! Words of a form, as they come.
ghost use Rattle.std.specs.Prelude.{◌≡◌, ◌∷◌, ◌++◌, [], OnOk, OnErr, Err, length, take};
ghost use Rattle.rc_form.specs.Form.{tree_of, trees_of, packed};
ghost use Rattle.rc_check.specs.SecondNames.{is_named};
ghost use Rattle.rc_check.specs.SecondParts.{attributes_of, attributes_below, attributes_among};
ghost use Rattle.rc_check.specs.Groups.{attributes_in};
ghost use Rattle.rc_base.specs.Words.{with_word};
ghost use Rattle.rc_check.specs.Seen.{words_seen};

use crate::fail::SheetFail;
use rc_base::Firsts;
use rc_form::Form;
use std::alloc::Global;
use std::marker::Model;

/// Words of a form, in order. Contracts see the list of them.
#[derive(Drop)]
pub struct WordList<'a> {
    words: Vec<&'a [u8]>,
}

impl<'a> Model for WordList<'a> {
    ghost use Rattle.std.specs.Prelude.{ℕ, List};

    ghost Value = { List (List ℕ) };

    ghost use Rattle.rc_check.specs.Seen.{words_seen};

    ghost view = { λ names. words_seen names.words.items };
}

impl<'a> WordList<'a> {
    /// No words.
    pub fn new(alloc: Global) -> WordList<'a>
        ensures { result ≡ [] }
    {
        WordList {
            words: Vec::new(alloc),
        }
    }

    /// How many there are.
    pub fn len(&self) -> usize
        ensures { result ≡ length self.now }
    {
        self.words.len()
    }

    /// Whether this is one of them.
    pub fn contains(&self, word: &[u8]) -> bool
        ensures { result ≡ is_named word.now self.now }
    {
        contains_word(&self.words, word)
    }

    /// Takes one more.
    pub fn push(&mut self, word: &'a [u8]) -> Result<(), SheetFail>
        ensures after { OnOk result (self.new ≡ self.old ++ word.now ∷ []) }
        ensures memory { OnErr result (result ≡ Err SheetFail.Memory) }
    {
        self.words.push(word)?;
        Ok(())
    }

    /// Takes the attribute of a group, and those of the groups in its branches.
    #[cycle(attributes)]
    #[tactic(auto, using(crate::proofs::Words::attach))]
    pub fn push_attributes(&mut self, group: &Form<'a>) -> Result<(), SheetFail>
        ensures after { OnOk result (self.new ≡ self.old ++ attributes_of (tree_of group.now)) }
        ensures memory { OnErr result (result ≡ Err SheetFail.Memory) }
    {
        let Form::List { items, .. } = group else {
            return Ok(());
        };
        let [attribute, branches] = items.as_slice() else {
            return Ok(());
        };
        let Form::Atom { word, .. } = attribute else {
            return Ok(());
        };
        let Form::List { items, .. } = branches else {
            return Ok(());
        };
        self.push(word.bytes())?;
        self.push_inner_attributes(items.as_slice())
    }

    /// Takes the attributes of the groups in these branches.
    #[cycle(attributes)]
    #[tactic(auto, using(crate::proofs::Words::attach, crate::proofs::GroupLemmas::below_more))]
    fn push_inner_attributes(&mut self, branches: &[Form<'a>]) -> Result<(), SheetFail>
        ensures after { OnOk result (self.new ≡ self.old ++ attributes_below (packed (trees_of branches.now))) }
        ensures memory { OnErr result (result ≡ Err SheetFail.Memory) }
    {
        for branch in branches {
            self.push_branch_attributes(branch)?;
        }
        Ok(())
    }

    /// Takes the attributes of the groups in this branch.
    #[cycle(attributes)]
    fn push_branch_attributes(&mut self, branch: &Form<'a>) -> Result<(), SheetFail>
        ensures after { OnOk result (self.new ≡ self.old ++ attributes_in (tree_of branch.now)) }
        ensures memory { OnErr result (result ≡ Err SheetFail.Memory) }
    {
        match branch {
            Form::Atom { .. } => Ok(()),
            Form::List { items, .. } => self.push_all_attributes(items.as_slice()),
        }
    }

    /// Takes the attributes of the groups among these.
    #[cycle(attributes)]
    fn push_all_attributes(&mut self, groups: &[Form<'a>]) -> Result<(), SheetFail>
        ensures after { OnOk result (self.new ≡ self.old ++ attributes_among (packed (trees_of groups.now))) }
        ensures memory { OnErr result (result ≡ Err SheetFail.Memory) }
    {
        for group in groups {
            self.push_attributes(group)?;
        }
        Ok(())
    }

    /// Keeps so many of the first.
    #[tactic(auto, using(crate::proofs::Words::take_words))]
    pub fn truncate(&mut self, count: usize)
        ensures { self.new ≡ take count self.old }
    {
        self.words.truncate(count);
    }
}

fn contains_word(words: &[&[u8]], word: &[u8]) -> bool
    ensures { result ≡ is_named word.now (words_seen words.now) }
{
    for other in words {
        if word == *other {
            return true;
        }
    }
    false
}

/// Different words of a form, in the order in which they came first. Contracts see the list of them.
pub struct DifferentNames<'a> {
    words: Firsts<&'a [u8], ()>,
}

impl Drop for DifferentNames<'_> {
    // a derived drop is proved again wherever such names are dropped, and this one once
    fn drop(self) {
        let DifferentNames { words: _words } = self;
    }
}

impl<'a> Model for DifferentNames<'a> {
    ghost use Rattle.std.specs.Prelude.{ℕ, List};

    ghost Value = { List (List ℕ) };

    ghost use Rattle.rc_check.specs.Seen.{entries_seen};

    ghost view = { λ names. entries_seen names.words };
}

impl<'a> DifferentNames<'a> {
    /// No words.
    pub fn new(alloc: Global) -> DifferentNames<'a>
        ensures { result ≡ [] }
    {
        DifferentNames {
            words: Firsts::new(alloc),
        }
    }

    /// How many there are.
    pub fn len(&self) -> usize
        ensures { result ≡ length self.now }
    {
        self.words.len()
    }

    /// Whether this is one of them.
    pub fn contains(&self, word: &'a [u8]) -> bool
        ensures { result ≡ is_named word.now self.now }
    {
        self.words.contains(word)
    }

    /// Takes a word, where it is a new one.
    pub fn insert(&mut self, word: &'a [u8]) -> Result<(), SheetFail>
        ensures after { OnOk result (self.new ≡ with_word self.old word.now) }
        ensures memory { OnErr result (result ≡ Err SheetFail.Memory) }
    {
        self.words.insert(word, ())?;
        Ok(())
    }
}

//! What a text spells: atoms, and lists of forms in parentheses.
ghost use Rattle.std.specs.Prelude.{◌≡◌};
ghost use Rattle.rc_form.specs.Form.{tree_of, trees_of, trees_in, atom_tree, list_tree};

use crate::word::WordRef;

/// Where a form stands: the offset of its first byte, and the offset behind its last byte.
#[derive(Clone, Copy, PartialEq, Eq, Debug)]
pub struct Span {
    pub from: u32,
    pub to: u32,
}

/// An atom, or a list of forms, of a text. Contracts see it as a tree, by `tree_of`.
#[derive(Drop)]
#[cycle(forms)]
pub enum Form<'t> {
    Atom { word: WordRef<'t>, span: Span },
    List { items: Parts<'t>, span: Span },
}

/// The parts of a list, in the memory of an arena, which gives up all of them at once.
#[derive(Drop)]
#[cycle(forms)]
pub struct Parts<'t> {
    forms: &'t [Form<'t>],
}

impl<'t> Parts<'t> {
    /// The parts, one behind the other.
    pub fn as_slice(&self) -> &'t [Form<'t>]
        ensures value { result.now ≡ self.now.forms.now }
        ensures trees { trees_of result.now ≡ trees_in self.now }
    {
        self.forms
    }
}

pub(crate) fn atom_form<'t>(word: WordRef<'t>, span: Span) -> Form<'t>
    ensures { tree_of result ≡ atom_tree word.entry span }
{
    Form::Atom { word, span }
}

pub(crate) fn list_form<'t>(forms: &'t [Form<'t>], span: Span) -> Form<'t>
    ensures { tree_of result ≡ list_tree (trees_of forms.now) span }
{
    Form::List {
        items: Parts { forms },
        span,
    }
}

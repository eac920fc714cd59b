//! Takes tokens one by one, and keeps the lists that are complete and those that are still open.
ghost use Rattle.std.specs.Prelude.{◌≡◌, ◌<◌, ◌≤◌, List, [], ◌∷◌, ◌+◌, length, slice_index, IsTrue, OnOk, IfOk, IfErr};
ghost use Rattle.rc_base.specs.Token.{Token, opening, closing, is_part};
ghost use Rattle.rc_base.specs.Limits.{longest_text};

use crate::fault::{FormFail, FormKind};
use crate::form::{Form, Span, atom_form, list_form};
use crate::lexer::{atom_end, may_stand_in_atom};
use crate::word::WordRef;
use bumpalo::Bump;
use bumpalo::collections::into_bump_slice;
use rc_base::limits::{MOST_BYTES, MOST_OPEN};
use std::alloc::AllocError;

/// A list whose `)` hasn't come yet: where its `(` stands, and how many of the reader's forms stand before its parts.
#[derive(Clone, Copy)]
pub struct OpenList {
    from: u32,
    start: usize,
}

/// What is read so far: the complete lists, and behind them the parts of the open lists, those of the innermost last.
/// The innermost open list is the last.
///
/// A list takes its parts with it when it closes, into the arena: most lists are short, and a text may have very many
/// of them.
#[derive(Drop)]
pub struct FormReader<'t> {
    want: usize,
    forms: Vec<Form<'t>, &'t Bump>,
    open_lists: Vec<OpenList, &'t Bump>,
}

impl<'t> FormReader<'t> {
    ghost use Rattle.rc_form.specs.Read.{read};
    ghost use Rattle.rc_form.specs.Reader.{reads, reads_with, is_reading, IsInOrder, FaultIs};
    ghost use Rattle.rc_form.specs.Form.{tree_of, trees_of};
    ghost use Rattle.rc_form.specs.Lexer.{tokens_at, begins_token};

    /// A reader that has read nothing, and wants this number of lists.
    pub fn new(arena: &'t Bump, want: usize) -> FormReader<'t>
        ensures reads { (ts : List Token) → reads result ts ≡ read want [] [] ts }
        ensures in_order { IsInOrder result }
    {
        FormReader {
            want,
            forms: Vec::new(arena),
            open_lists: Vec::new(arena),
        }
    }

    /// Whether it wants more tokens.
    pub fn is_reading(&self) -> bool
        ensures { result ≡ is_reading self.now }
    {
        !self.open_lists.is_empty() || self.forms.len() < self.want
    }

    /// Takes a `(`, and returns the offset behind it.
    fn open(&mut self, at: u32) -> Result<usize, FormFail>
        requires reading { IsTrue (is_reading self.old) }
        requires in_order { IsInOrder self.old }
        ensures in_order { OnOk result (IsInOrder self.new) }
        ensures behind { IfOk result (λ to. to ≡ at + 1) }
        ensures took { (ts : List Token) → OnOk result (reads self.old (opening at ∷ ts) ≡ reads self.new ts) }
        ensures fault { (ts : List Token) → IfErr result (FaultIs (reads self.old (opening at ∷ ts))) }
    {
        if self.open_lists.len() >= MOST_OPEN {
            return Err(FormFail::at(FormKind::TooDeep, at));
        }
        let list = OpenList {
            from: at,
            start: self.forms.len(),
        };
        if self.open_lists.push(list).is_err() {
            return Err(FormFail::Memory);
        }
        Ok(at as usize + 1)
    }

    /// Puts a form into the innermost open list, or where none is open behind the complete lists.
    #[inline(always)]
    fn put(&mut self, form: Form<'t>) -> Result<(), AllocError>
        requires { IsInOrder self.old }
        ensures took { (ts : List Token) → OnOk result (reads_with self.old (tree_of form.entry) ts
            ≡ reads self.new ts) }
        ensures in_order { OnOk result (IsInOrder self.new) }
    {
        self.forms.push(form)?;
        Ok(())
    }

    /// Takes a `)`, and returns the offset behind it.
    fn close(&mut self, at: u32) -> Result<usize, FormFail>
        requires reading { IsTrue (is_reading self.old) }
        requires in_order { IsInOrder self.old }
        requires small { at < longest_text }
        ensures in_order { OnOk result (IsInOrder self.new) }
        ensures behind { IfOk result (λ to. to ≡ at + 1) }
        ensures took { (ts : List Token) → OnOk result (reads self.old (closing at ∷ ts) ≡ reads self.new ts) }
        ensures fault { (ts : List Token) → IfErr result (FaultIs (reads self.old (closing at ∷ ts))) }
    {
        let Some(inner) = self.open_lists.pop() else {
            return Err(FormFail::at(FormKind::Stray, at));
        };
        let Ok(items) = self.forms.split_off(inner.start) else {
            return Err(FormFail::Memory);
        };
        let span = Span {
            from: inner.from,
            to: at + 1,
        };
        match self.put(list_form(into_bump_slice(items), span)) {
            Ok(()) => Ok(at as usize + 1),
            Err(_) => Err(FormFail::Memory),
        }
    }

    /// Takes the atom that begins at this offset, and returns the offset behind it.
    fn atom(&mut self, text: &'t [u8], from: usize) -> Result<usize, FormFail>
        requires reading { IsTrue (is_reading self.old) }
        requires small { length text.now ≤ longest_text }
        requires inside { from < length text.now }
        requires part { IsTrue (is_part (slice_index text.now from)) }
        requires in_order { IsInOrder self.old }
        ensures in_order { OnOk result (IsInOrder self.new) }
        ensures forward { IfOk result (λ to. (from < to) × (to ≤ length text.now)) }
        ensures took { IfOk result (λ to. reads self.old (tokens_at text.now from)
            ≡ reads self.new (tokens_at text.now to)) }
        ensures fault { IfErr result (FaultIs (reads self.old (tokens_at text.now from))) }
    {
        let to = atom_end(text, from);
        if self.open_lists.is_empty() {
            return Err(FormFail::at(FormKind::Stray, from as u32));
        }
        if to - from > MOST_BYTES {
            return Err(FormFail::at(FormKind::AtomLong, from as u32));
        }
        let span = Span {
            from: from as u32,
            to: to as u32,
        };
        let word = WordRef::of(&text[from..to]);
        match self.put(atom_form(word, span)) {
            Ok(()) => Ok(to),
            Err(_) => Err(FormFail::Memory),
        }
    }

    /// Takes the token that begins at this offset, and returns the offset behind it.
    pub fn take(&mut self, text: &'t [u8], at: usize) -> Result<usize, FormFail>
        requires reading { IsTrue (is_reading self.old) }
        requires small { length text.now ≤ longest_text }
        requires inside { at < length text.now }
        requires begins { IsTrue (begins_token (slice_index text.now at)) }
        requires in_order { IsInOrder self.old }
        ensures in_order { OnOk result (IsInOrder self.new) }
        ensures forward { IfOk result (λ to. (at < to) × (to ≤ length text.now)) }
        ensures took { IfOk result (λ to. reads self.old (tokens_at text.now at)
            ≡ reads self.new (tokens_at text.now to)) }
        ensures fault { IfErr result (FaultIs (reads self.old (tokens_at text.now at))) }
    {
        let byte = text[at];
        if may_stand_in_atom(byte) {
            return self.atom(text, at);
        }
        if byte == b'(' {
            return self.open(at as u32);
        }
        if byte == b')' {
            return self.close(at as u32);
        }
        Err(FormFail::at(FormKind::BadByte, at as u32))
    }

    /// The complete lists, where no more are wanted or no token is left.
    pub fn finish(self) -> Result<Vec<Form<'t>, &'t Bump>, FormFail>
        ensures complete { (ts : List Token) → (IsTrue (is_reading self.entry) → ts ≡ [])
            → IfOk result (λ list. reads self.entry ts ≡ Ok (trees_of list.items, ts)) }
        ensures fault { (ts : List Token) → (IsTrue (is_reading self.entry) → ts ≡ [])
            → IfErr result (FaultIs (reads self.entry ts)) }
    {
        match self.open_lists.last() {
            Some(inner) => Err(FormFail::at(FormKind::Unclosed, inner.from)),
            None => Ok(self.forms),
        }
    }
}

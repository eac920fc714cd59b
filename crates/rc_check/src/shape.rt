//! The first round of faults: parts that are no form of their place, and atoms that are no numbers of their place.
ghost use Rattle.std.specs.Prelude.{◌≡◌, ℕ, [], OnOk, IfErr};
ghost use Rattle.rc_base.specs.Placed.{IsPlaced};
ghost use Rattle.rc_base.specs.Tree.{list};
ghost use Rattle.rc_form.specs.Form.{tree_of, trees_of, packed};
ghost use Rattle.rc_check.specs.Faults as spec;
ghost use Rattle.rc_check.specs.FirstOf.{IsFirstOf};

use crate::atoms::atom_kind;
use crate::choice::{is_form_word, is_told, rule_of, some_form_fits};
use crate::fault::SheetFault;
use crate::grammar::{Rule, Symbol};
use crate::keyword::Keyword;
use rc_form::{Form, Span};

/// Looks at the shape of a form that is to be a sheet. The error is the fault with the smallest offset: a part that is
/// no form of its place, or an atom that is no number in the range of its place.
///
/// The offsets of the form's parts rise in the order of the text, as those of all forms do that are read.
pub fn check_shape(form: &Form) -> Result<(), SheetFault>
    requires placed { (size : ℕ) × IsPlaced size (tree_of form.now) }
    // The faults are listed in the order of the text; this is the first of them.
    ensures first { spec.fault_of result ≡ spec.first_fault (tree_of form.now) }

    ensures fine { OnOk result (spec.faults Symbol.Sheet (tree_of form.now) ≡ []) }
    ensures least { IfErr result (λ fault. IsFirstOf (spec.faults Symbol.Sheet (tree_of form.now)) fault) }
{
    check_form(Symbol::Sheet, form)
}

/// The first fault of a form at a place, in the order of the text.
#[inline(always)]
#[cycle(shapes)]
fn check_form(place: Symbol, form: &Form) -> Result<(), SheetFault>
    ensures { spec.fault_of result ≡ spec.first (spec.faults place (tree_of form.now)) }
{
    match form {
        Form::Atom { word, span } => match atom_kind(place, word.bytes()) {
            Some(kind) => Err(SheetFault {
                kind,
                at: span.from,
            }),
            None => Ok(()),
        },
        Form::List { items, span } => check_list(place, items.as_slice(), *span),
    }
}

/// The first fault of a list at a place. It is called for lists alone: most parts are atoms, which are looked at in the
/// loop.
#[inline(never)]
#[cycle(shapes)]
fn check_list(place: Symbol, parts: &[Form], span: Span) -> Result<(), SheetFault>
    ensures { spec.fault_of result ≡ spec.first
        (spec.faults place (list (packed (trees_of parts.now)) span.from span.to)) }
{
    match rule_of(place, parts) {
        Some(rule) => check_rule(rule, parts, span.from),
        None => Err(SheetFault::shape(fault_place(place, parts, span.from))),
    }
}

/// The first fault of a list that is to be this form.
#[cycle(shapes)]
#[tactic(auto, using(rc_form::proofs::FormLemmas::count_packed))]
fn check_rule(rule: Rule, parts: &[Form], from: u32) -> Result<(), SheetFault>
    ensures { spec.fault_of result ≡ spec.first
        (spec.rule_faults from (packed (trees_of parts.now))
        (spec.part_faults rule (packed (trees_of parts.now))) rule) }
{
    if !rule.fits(parts.len()) {
        return Err(SheetFault::shape(from));
    }
    if lacks_players(rule, parts) {
        return Err(SheetFault::shape(from));
    }
    check_parts(rule, parts)
}

/// The first fault of the parts of a form.
#[cycle(shapes)]
fn check_parts(rule: Rule, parts: &[Form]) -> Result<(), SheetFault>
    ensures { spec.fault_of result ≡ spec.first (spec.part_faults rule (packed (trees_of parts.now))) }
{
    for (index, part) in parts.iter().enumerate() {
        check_part(rule.place_at(parts.len(), index), part)?;
    }
    Ok(())
}

/// The first fault of a part, where there is a place for it.
#[inline(always)]
#[cycle(shapes)]
fn check_part(place: Option<Symbol>, part: &Form) -> Result<(), SheetFault>
    ensures { spec.fault_of result ≡ spec.first (spec.faults_at place (tree_of part.now)) }
{
    match place {
        Some(place) => check_form(place, part),
        None => Ok(()),
    }
}

/// Whether the form is a setup in which no line begins with `create players`.
fn lacks_players(rule: Rule, parts: &[Form]) -> bool
    ensures { result ≡ spec.lacks_players rule (packed (trees_of parts.now)) }
{
    rule == Rule::Setup && !some_names_players(parts)
}

fn some_names_players(lines: &[Form]) -> bool
    ensures { result ≡ spec.some_names_players (packed (trees_of lines.now)) }
{
    for line in lines {
        if names_players(line) {
            return true;
        }
    }
    false
}

/// Whether the form is a line that begins with `create players`.
fn names_players(line: &Form) -> bool
    ensures { result ≡ spec.names_players (tree_of line.now) }
{
    let Form::List { items, .. } = line else {
        return false;
    };
    let Some((head, others)) = items.as_slice().split_first() else {
        return false;
    };
    is_form_word(Keyword::Create, head) && is_told(Some(Keyword::Players), others)
}

/// Where a list is at fault that is to be no form: at the part behind its head, where a fixed word is missing there and
/// a form with that head has as many parts; else the list itself.
#[tactic(auto, using(rc_form::proofs::FormLemmas::count_packed))]
fn fault_place(place: Symbol, parts: &[Form], from: u32) -> u32
    ensures { result ≡ spec.fault_place place from (packed (trees_of parts.now)) }
{
    match parts.split_first() {
        Some((head, others)) if some_form_fits(place, head, parts.len()) => {
            first_start(from, others)
        }
        _ => from,
    }
}

/// Where the first of these forms begins, or else here.
fn first_start(here: u32, forms: &[Form]) -> u32
    ensures { result ≡ spec.first_start here (packed (trees_of forms.now)) }
{
    match forms.first() {
        Some(form) => start_of(form),
        None => here,
    }
}

/// Where a form begins.
pub fn start_of(form: &Form) -> u32
    ensures { result ≡ spec.start_of (tree_of form.now) }
{
    match form {
        Form::Atom { span, .. } | Form::List { span, .. } => span.from,
    }
}

//! Words and numbers at their places.
ghost use Rattle.std.specs.Prelude.{◌≡◌, IfSome, IfNone};
ghost use Rattle.rc_form.specs.Form.{tree_of, trees_of, packed};
ghost use Rattle.rc_base.specs.Tree.{start_of};
ghost use Rattle.rc_play_spec.specs.Faults as place;
ghost use Rattle.rc_plan.specs.Reads.{Reads, IsNumberBetween, IsBehind, IsNotHeaded};

use crate::fail::PlanFail;
use rc_base::limits::LARGEST_SEED;
use rc_form::{Form, natural};
use rc_play_spec::PlanKind;

/// Where a form begins.
pub fn start_of(form: &Form) -> u32
    ensures { result ≡ start_of (tree_of form.now) }
{
    match form {
        Form::Atom { span, .. } | Form::List { span, .. } => span.from,
    }
}

/// Whether the form is this word.
pub fn is_word(form: &Form, text: &[u8]) -> bool
    ensures { result ≡ place.is_word text.now (tree_of form.now) }
{
    match form {
        Form::Atom { word, .. } => word.bytes() == text,
        Form::List { .. } => false,
    }
}

/// The parts of a list behind this word, where the form is a list that begins with it.
pub fn parts_behind<'s, 'a>(form: &'s Form<'a>, text: &[u8]) -> Option<&'s [Form<'a>]>
    ensures found { IfSome result (λ parts. IsBehind text.now (packed (trees_of parts.now)) (tree_of form.now)) }
    ensures none { IfNone result (IsNotHeaded text.now (tree_of form.now)) }
{
    let Form::List { items, .. } = form else {
        return None;
    };
    let (head, parts) = items.as_slice().split_first()?;
    if is_word(head, text) {
        Some(parts)
    } else {
        None
    }
}

/// The number at a place for the numbers between these.
pub fn read_number(form: &Form, least: u64, most: u64) -> Result<u64, PlanFail>
    ensures { Reads result (λ n. IsNumberBetween least most n (tree_of form.now))
        (place.number_between least most (tree_of form.now)) }
{
    match form {
        Form::Atom { word, span } => match natural(word.bytes()) {
            Some(n) if least <= n && n <= most => Ok(n),
            _ => Err(PlanFail::of(PlanKind::Number, span.from)),
        },
        Form::List { span, .. } => Err(PlanFail::shape(span.from)),
    }
}

/// The number at a place for any.
pub fn read_any(form: &Form) -> Result<u64, PlanFail>
    ensures { Reads result (λ n. IsNumberBetween 0 999999999999999999 n (tree_of form.now))
        (place.any_number (tree_of form.now)) }
{
    read_number(form, 0, LARGEST_SEED)
}

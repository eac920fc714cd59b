//! A form of a small text, and how it is printed.
ghost use Rattle.rc_form.specs.Form.{IsPrintable, tree_of};

use crate::expect::expect_same;
use bumpalo::Bump;
use rc_form::{Form, Span, print_form, read_forms};
use std::alloc::AllocError;
use std::process::Abort;
use std::test::Fail;

/// Where the form and all its parts stand, each before its own parts.
fn push_spans(out: &mut Vec<Span>, form: &Form) -> Result<(), AllocError> {
    match form {
        Form::Atom { span, .. } => out.push(*span)?,
        Form::List { items, span } => {
            out.push(*span)?;
            for item in items.as_slice() {
                push_spans(out, item)?;
            }
        }
    }
    Ok(())
}

/// Where the forms of the text below stand.
const SPANS: [Span; 6] = [
    Span { from: 5, to: 21 },
    Span { from: 6, to: 7 },
    Span { from: 8, to: 14 },
    Span { from: 9, to: 11 },
    Span { from: 12, to: 13 },
    Span { from: 18, to: 20 },
];

/// Fails unless the form and its parts stand there.
fn expect_spans(rt: &(impl AllocGlobal + Abort), form: &Form) -> Result<(), Fail> {
    let mut spans = Vec::new(rt.alloc());
    push_spans(&mut spans, form)?;
    expect_same(rt, spans.as_slice(), SPANS.as_slice());
    Ok(())
}

/// Fails unless this is printed of the form.
fn expect_printed(rt: &(impl AllocGlobal + Abort), form: &Form, expected: &[u8]) -> Result<(), Fail>
    requires { IsPrintable (tree_of form.now) }
{
    match print_form(rt.alloc(), form) {
        Ok(printed) => expect_same(rt, printed.as_slice(), expected),
        Err(_) => return Err("there is memory".into()),
    }
    Ok(())
}

/// One list is wanted, and the next token behind it is a `)`.
#[test]
fn a_form_has_the_offsets_of_its_bytes_and_is_printed(rt: HostRuntime) -> Result<(), Fail> {
    let arena = Bump::new(rt.alloc());
    let forms = read_forms(&arena, b" ;(\r\n(a\t('b,c);)\r\n())\n ; )\n)z", 1)?;
    let [form] = forms.list.as_slice() else {
        return Err("there is one list".into());
    };
    expect_same(&rt, forms.rest, 27);
    expect_spans(&rt, form)?;
    expect_printed(&rt, form, b"(a ('b c) ())")
}

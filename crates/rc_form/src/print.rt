//! Prints forms.
ghost use Rattle.std.specs.Prelude.{◌≡◌, ◌++◌, OnOk, IfOk};
ghost use Rattle.rc_base.specs.Tree.{Tree, printed, printed_parts};
ghost use Rattle.rc_form.specs.Form.{tree_of, trees_of, packed, IsPrintable};
ghost use Rattle.rc_form.specs.SameForm.{SameForm, SpellsAgain, IsOfAtoms, AreOfAtoms};

use crate::form::Form;
use std::alloc::{AllocError, Global};

/// Memory ran out.
#[derive(Clone, Copy, PartialEq, Eq, Debug)]
pub struct FormMemory;

/// The bytes of a list, with one space between parts and none elsewhere.
///
/// At most 64 lists may be open at one place, the form itself among them: so deep goes the recursion.
pub fn print_form(alloc: Global, form: &Form) -> Result<Vec<u8>, FormMemory>
    requires { IsPrintable (tree_of form.now) }
    ensures bytes { IfOk result (λ bytes. bytes.items ≡ printed (tree_of form.now)) }

    // Reading the bytes gives the form again, but for offsets.
    ensures again { IfOk result (λ bytes. SpellsAgain (tree_of form.now) bytes.items) }
{
    let mut out = Vec::new(alloc);
    match push_form(&mut out, form) {
        Ok(()) => Ok(out),
        Err(_) => Err(FormMemory),
    }
}

/// What is printed says all of a form but its offsets. The function does nothing: its contract is the law.
pub fn printed_form_reads_back()
    ensures again { (tree : Tree) → IsPrintable tree → IsOfAtoms tree → SpellsAgain tree (printed tree) }
    ensures same { (tree other : Tree) → IsPrintable tree → IsOfAtoms tree → IsPrintable other → IsOfAtoms other
        → printed tree ≡ printed other → SameForm tree other }
{}

#[cycle(printing)]
fn push_form(out: &mut Vec<u8>, form: &Form) -> Result<(), AllocError>
    ensures bytes { OnOk result (out.new.items ≡ out.old.items ++ printed (tree_of form.now)) }
    ensures of_atoms { OnOk result (IsOfAtoms (tree_of form.now)) }
{
    match form {
        Form::Atom { word, .. } => out.extend_from_slice(word.bytes()),
        Form::List { items, .. } => {
            out.push(b'(')?;
            push_parts(out, items.as_slice())?;
            out.push(b')')?;
            Ok(())
        }
    }
}

#[cycle(printing)]
fn push_parts(out: &mut Vec<u8>, forms: &[Form]) -> Result<(), AllocError>
    ensures bytes { OnOk result (out.new.items ≡ out.old.items ++ printed_parts (packed (trees_of forms.now))) }
    ensures of_atoms { OnOk result (AreOfAtoms (packed (trees_of forms.now))) }
{
    let Some((first, others)) = forms.split_first() else {
        return Ok(());
    };
    push_form(out, first)?;
    for form in others {
        out.push(b' ')?;
        push_form(out, form)?;
    }
    Ok(())
}

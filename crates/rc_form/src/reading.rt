//! Reads a stated number of lists from a text.
ghost use Rattle.std.specs.Prelude.{◌≡◌, ℕ, ◌≤◌, List, [], length, flat_map, Ok, Err, IfOk, IfErr, All};
ghost use Rattle.rc_base.specs.Token.{tokens};
ghost use Rattle.rc_form.specs.Form.{tree_of, trees_of, IsPrintable};
ghost use Rattle.rc_form.specs.FormFault.{IsFormFault, IsSpelledOrFaulty, IfFormFault};
ghost use Rattle.rc_form.specs.Lexer.{tokens_at};
ghost use Rattle.rc_form.specs.Read.{read};
ghost use Rattle.rc_form.specs.Reader.{FaultIs};
ghost use Rattle.rc_form.specs.SameForm.{IsOfAtoms};
ghost use Rattle.rc_base.specs.Placed.{IsPlaced};
ghost use Rattle.rc_base.specs.Spelled.{Spelled, IsTopList, next_offset};
ghost use Rattle.rc_base.specs.Tree.{Tree, spelling};
ghost use Rattle.rc_base.specs.Limits.{longest_text};

use crate::fault::{FormFail, FormKind};
use crate::form::Form;
use crate::lexer::token_start;
use crate::reader::FormReader;
use bumpalo::Bump;

/// The lists that a text begins with, and the offset of what follows them.
#[derive(Drop)]
pub struct Forms<'t> {
    pub list: Vec<Form<'t>, &'t Bump>,
    pub rest: usize,
}

/// Reads up to `want` lists from the front of a text: fewer where the text ends before.
///
/// White space is space, tab, CR, LF and comma; a comment runs from `;` to the next LF. An atom has at most 64 bytes,
/// and at most 64 lists are open at one place. The text has at most 33,554,432 bytes. The parts of lists lie in the
/// arena. Where memory runs out, nothing is said of the text.
pub fn read_forms<'t>(arena: &'t Bump, text: &'t [u8], want: usize) -> Result<Forms<'t>, FormFail>
    requires { length text.now ≤ longest_text }
    ensures spelled { IfOk result (λ f. Spelled text.now want (trees_of f.list.items) f.rest) }
    ensures within { IfOk result (λ f. f.rest ≤ length text.now) }

    ensures lists { IfOk result (λ f. All (λ form. IsTopList (tree_of form)) f.list.items) }
    ensures printable { IfOk result (λ f. All (λ form. IsPrintable (tree_of form)) f.list.items) }
    ensures of_atoms { IfOk result (λ f. All (λ form. IsOfAtoms (tree_of form)) f.list.items) }
    ensures placed { IfOk result (λ f. All (λ form. IsPlaced (length text.now) (tree_of form)) f.list.items) }

    // No other lists and rest are spelled.
    ensures only { IfOk result (λ f. (others : List Tree) (end : ℕ) → Spelled text.now want others end
        → (others ≡ trees_of f.list.items) × (end ≡ f.rest)) }

    // Where the rest is the text's end, the lists are all of it.
    ensures all { IfOk result (λ f. f.rest ≡ length text.now
        → tokens text.now ≡ flat_map spelling (trees_of f.list.items)) }

    ensures fault { IfErr result (λ fail. IfFormFault fail (λ f. IsFormFault text.now want f.kind f.at)) }
    ensures only_fault { IfErr result (λ fail. IfFormFault fail (λ f. (kind : FormKind) (at : ℕ)
        → IsFormFault text.now want kind at → (kind ≡ f.kind) × (at ≡ f.at))) }

    // A text that spells the wanted lists has no fault.
    ensures sound { (forms : List Tree) (rest : ℕ) (kind : FormKind) (at : ℕ)
        → Spelled text.now want forms rest → IsFormFault text.now want kind at → ⊥ }
{
    read_lists(arena, text, want)
}

/// Each text spells the wanted lists or has a first fault. The function does nothing: its contract is the law.
pub fn texts_are_spelled_or_faulty()
    ensures { (text : List ℕ) (want : ℕ) → IsSpelledOrFaulty text want }
{}

/// The wanted lists, or the first fault of the text.
fn read_lists<'t>(arena: &'t Bump, text: &'t [u8], want: usize) -> Result<Forms<'t>, FormFail>
    requires { length text.now ≤ longest_text }
    ensures reads { IfOk result (λ f. read want [] [] (tokens text.now)
        ≡ Ok (trees_of f.list.items, tokens_at text.now f.rest)) }
    ensures rest { IfOk result (λ f. f.rest ≡ next_offset (tokens_at text.now f.rest) (length text.now)) }
    ensures within { IfOk result (λ f. f.rest ≤ length text.now) }
    ensures fault { IfErr result (FaultIs (read want [] [] (tokens text.now))) }
{
    let mut reader = FormReader::new(arena, want);
    let mut at = token_start(text, 0);
    while at < text.len() && reader.is_reading() {
        match reader.take(text, at) {
            Ok(to) => at = token_start(text, to),
            Err(fail) => return Err(fail),
        }
    }
    match reader.finish() {
        Ok(list) => Ok(Forms { list, rest: at }),
        Err(fail) => Err(fail),
    }
}

//! The parts of a sheet's form, and of the lines of its setup.
ghost use Rattle.std.specs.Prelude.{◌≡◌, option_map, option_to_list};
ghost use Rattle.rc_form.specs.Form.{tree_of, trees_of, packed};
ghost use Rattle.rc_sheet_spec.specs.FormMentions as form_mentions;
ghost use Rattle.rc_resolve.specs.Known.{parts_in, behind_head, begins_by, third_part};

use crate::uses::word_of;
use rc_check::{Keyword, is_form_word};
use rc_form::{Form, Word};

/// The parts of a list; an atom has none.
pub fn parts_of<'s, 'a>(form: &'s Form<'a>) -> &'s [Form<'a>]
    ensures { packed (trees_of result.now) ≡ parts_in (tree_of form.now) }
{
    match form {
        Form::Atom { .. } => &[],
        Form::List { items, .. } => items.as_slice(),
    }
}

/// The lines of the setup of `(game (setup LINE+) ..)`.
pub fn setup_lines<'s, 'a>(form: &'s Form<'a>) -> &'s [Form<'a>]
    ensures { packed (trees_of result.now) ≡ form_mentions.setup_lines (tree_of form.now) }
{
    let [_, setup, ..] = parts_of(form) else {
        return &[];
    };
    behind_head(setup)
}

/// What follows the setup in `(game SETUP ..)`.
pub fn body<'s, 'a>(form: &'s Form<'a>) -> &'s [Form<'a>]
    ensures { packed (trees_of result.now) ≡ form_mentions.body (tree_of form.now) }
{
    match parts_of(form) {
        [_, _, rest @ ..] => rest,
        _ => &[],
    }
}

/// The parts behind the head of a list.
fn behind_head<'s, 'a>(form: &'s Form<'a>) -> &'s [Form<'a>]
    ensures { packed (trees_of result.now) ≡ behind_head (tree_of form.now) }
{
    match parts_of(form) {
        [_, rest @ ..] => rest,
        _ => &[],
    }
}

/// Whether the form is a list that begins with these two words.
pub fn begins_with(first: Keyword, second: Keyword, form: &Form) -> bool
    ensures { result ≡ begins_by first second (tree_of form.now) }
{
    match parts_of(form) {
        [head, told, ..] => is_form_word(first, head) && is_form_word(second, told),
        _ => false,
    }
}

/// The location of `(create deck LOC ..)`.
pub fn deck_location<'s, 'a>(line: &'s Form<'a>) -> Option<&'s Form<'a>>
    ensures { option_map (λ form. tree_of form.now) result ≡ third_part (tree_of line.now) }
{
    match parts_of(line) {
        [_, _, location, ..] => Some(location),
        _ => None,
    }
}

/// The groups of `(create deck LOC (deck GROUP+))`.
pub fn deck_groups<'s, 'a>(line: &'s Form<'a>) -> &'s [Form<'a>]
    ensures { packed (trees_of result.now) ≡ form_mentions.deck_groups (tree_of line.now) }
{
    match parts_of(line) {
        [_, _, _, deck] => behind_head(deck),
        _ => &[],
    }
}

/// The point map of `(put points MAP ..)`.
pub fn points_map(line: &Form) -> Option<Word>
    ensures { option_to_list result ≡ form_mentions.points_map (tree_of line.now) }
{
    match parts_of(line) {
        [_, _, map, ..] => word_of(map),
        _ => None,
    }
}

/// The entries of `(put points MAP (ENTRY+))`.
pub fn points_entries<'s, 'a>(line: &'s Form<'a>) -> &'s [Form<'a>]
    ensures { packed (trees_of result.now) ≡ form_mentions.points_entries (tree_of line.now) }
{
    match parts_of(line) {
        [_, _, _, entries] => parts_of(entries),
        _ => &[],
    }
}

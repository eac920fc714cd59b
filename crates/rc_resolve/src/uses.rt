//! What a list says of the names that it mentions itself.
ghost use Rattle.std.specs.Prelude.{◌≡◌, is_some, IfSome, option_map, option_to_list};
ghost use Rattle.rc_form.specs.Form.{tree_of, trees_of, packed};
ghost use Rattle.rc_sheet_spec.specs.FormMentions as form_mentions;
ghost use Rattle.rc_sheet_spec.specs.Naming.{kind_word};
ghost use Rattle.rc_check.specs.Classes.{class_at};
ghost use Rattle.rc_check.specs.SecondParts.{bytes_of};
ghost use Rattle.rc_resolve.specs.Mentions.{loc_mention, num_mention};
ghost use Rattle.rc_resolve.specs.Known.{loc_seen, num_seen};

use rc_ast::{Class, LocKind};
use rc_check::{Keyword, Rule, Symbol, is_form_word, rule_of};
use rc_form::{Form, Word};

/// What a mention says of a location.
#[derive(Clone, Copy, PartialEq, Eq, Debug)]
pub struct Located {
    pub kind: LocKind,
    pub class: Class,
}

/// The word of an atom.
pub fn word_of(form: &Form) -> Option<Word>
    ensures { option_to_list result ≡ form_mentions.word_of (tree_of form.now) }
{
    match form {
        Form::Atom { word, .. } => Some(word.to_word()),
        Form::List { .. } => None,
    }
}

/// Whether a list with this head and a collection behind it measures by a point map.
fn is_measure(head: &Form) -> bool
    ensures { result ≡ form_mentions.is_measure (tree_of head.now) }
{
    is_form_word(Keyword::Max, head)
        || is_form_word(Keyword::Min, head)
        || is_form_word(Keyword::Sum, head)
        || is_form_word(Keyword::Points, head)
}

/// Whether a list with this head binds its third part.
pub fn is_binder(head: &Form) -> bool
    ensures { result ≡ form_mentions.is_binder (tree_of head.now) }
{
    is_form_word(Keyword::Filter, head)
        || is_form_word(Keyword::All, head)
        || is_form_word(Keyword::Any, head)
}

/// The attribute that a list of these parts mentions.
pub fn attr_in(parts: &[Form]) -> Option<Word>
    ensures { option_to_list result ≡ form_mentions.attr_word (packed (trees_of parts.now)) }
{
    match parts {
        [head, _, attr] => {
            if is_form_word(Keyword::Attr, head) || is_form_word(Keyword::Partition, head) {
                word_of(attr)
            } else {
                None
            }
        }
        [head, _, attr, _] => {
            if is_form_word(Keyword::Is, head) {
                word_of(attr)
            } else {
                None
            }
        }
        _ => None,
    }
}

/// The value that a list of these parts mentions.
pub fn value_in(parts: &[Form]) -> Option<Word>
    ensures { option_to_list result ≡ form_mentions.value_word (packed (trees_of parts.now)) }
{
    let [head, _, _, value] = parts else {
        return None;
    };
    if is_form_word(Keyword::Is, head) {
        word_of(value)
    } else {
        None
    }
}

/// The point map that a list of these parts mentions.
pub fn map_in(parts: &[Form]) -> Option<Word>
    ensures { option_to_list result ≡ form_mentions.map_word (packed (trees_of parts.now)) }
{
    let [head, _, _, map] = parts else {
        return None;
    };
    if is_measure(head) { word_of(map) } else { None }
}

/// Whose a location or a stored number with this holder is.
fn class_of(holder: &Form) -> Class
    ensures { result ≡ class_at (tree_of holder.now) }
{
    match holder {
        Form::Atom { .. } => {
            if is_form_word(Keyword::Game, holder) {
                Class::Game
            } else {
                Class::Player
            }
        }
        Form::List { items, .. } => {
            if rule_of(Symbol::Owner, items.as_slice()) == Some(Rule::CurrentPlayer) {
                Class::Player
            } else {
                Class::Team
            }
        }
    }
}

/// The kind of locations whose word the form is.
fn kind_of(form: &Form) -> Option<LocKind>
    ensures known { is_some result ≡ form_mentions.is_kind (tree_of form.now) }
    ensures word { IfSome result (λ kind. kind_word kind ≡ bytes_of (tree_of form.now)) }
{
    if is_form_word(Keyword::Vloc, form) {
        Some(LocKind::Vloc)
    } else if is_form_word(Keyword::Iloc, form) {
        Some(LocKind::Iloc)
    } else if is_form_word(Keyword::Hloc, form) {
        Some(LocKind::Hloc)
    } else if is_form_word(Keyword::Mem, form) {
        Some(LocKind::Mem)
    } else {
        None
    }
}

/// The location that a list of these parts mentions.
pub fn loc_in(parts: &[Form]) -> Option<(Word, Located)>
    ensures { option_to_list (option_map loc_seen result) ≡ loc_mention (packed (trees_of parts.now)) }
{
    let [holder, kind, name] = parts else {
        return None;
    };
    let Some(kind) = kind_of(kind) else {
        return None;
    };
    let Some(name) = word_of(name) else {
        return None;
    };
    let class = class_of(holder);
    Some((name, Located { kind, class }))
}

/// The stored number that a list of these parts mentions.
pub fn num_in(parts: &[Form]) -> Option<(Word, Class)>
    ensures { option_to_list (option_map num_seen result) ≡ num_mention (packed (trees_of parts.now)) }
{
    let [holder, kind, name] = parts else {
        return None;
    };
    if !is_form_word(Keyword::Sto, kind) {
        return None;
    }
    let Some(name) = word_of(name) else {
        return None;
    };
    Some((name, class_of(holder)))
}

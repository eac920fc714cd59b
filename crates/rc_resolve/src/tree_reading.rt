//! Deck trees, read from forms.
ghost use Rattle.std.specs.Prelude.{◌≡◌, Some, None, IfOk, option_map};
ghost use Rattle.rc_form.specs.Form.{tree_of, trees_of, packed};
ghost use Rattle.rc_deck.specs.Tree.{groups_of, groups_in, branches_in, attr_of, branches_of, value_of, inner_of};
ghost use Rattle.rc_resolve.specs.NamedNumbers.{AreFew, number_of};
ghost use Rattle.rc_resolve.specs.Reading as reading;

use crate::Numbers;
use rc_deck::{Branch, DeckTree, Group, Memory};
use rc_form::Form;
use std::alloc::Global;

/// The deck tree that a form `(deck GROUP ..)` stands for, by any numbers of its names. `None` where it stands for
/// none. There are at most 65,536 names of attributes, and of values.
pub fn read_deck<N: Numbers>(
    alloc: Global,
    names: &N,
    deck: &Form,
) -> Result<Option<DeckTree>, Memory>
    requires few { AreFew (N.words names.now) }
    ensures { IfOk result (λ found. option_map groups_of found
        ≡ reading.read_deck (N.words names.now) (tree_of deck.now)) }
{
    let Form::List { items, .. } = deck else {
        return Ok(None);
    };
    let Some((head, parts)) = items.as_slice().split_first() else {
        return Ok(None);
    };
    if !is_word(b"deck", head) || parts.is_empty() {
        return Ok(None);
    }
    match read_groups(alloc, names, parts)? {
        Some(groups) => Ok(Some(DeckTree { groups })),
        None => Ok(None),
    }
}

fn is_word(bytes: &[u8], form: &Form) -> bool
    ensures { result ≡ reading.is_word bytes.now (tree_of form.now) }
{
    match form {
        Form::Atom { word, .. } => word.bytes() == bytes,
        Form::List { .. } => false,
    }
}

#[cycle(reading)]
fn read_groups<N: Numbers>(
    alloc: Global,
    names: &N,
    forms: &[Form],
) -> Result<Option<Vec<Group>>, Memory>
    requires few { AreFew (N.words names.now) }
    ensures { IfOk result (λ found. option_map (λ groups. groups_in groups.items) found
        ≡ reading.read_groups (N.words names.now) (packed (trees_of forms.now))) }
{
    let mut groups = Vec::new(alloc);
    for form in forms {
        match read_group(alloc, names, form)? {
            Some(group) => groups.push(group)?,
            None => return Ok(None),
        }
    }
    Ok(Some(groups))
}

#[cycle(reading)]
fn read_group<N: Numbers>(alloc: Global, names: &N, form: &Form) -> Result<Option<Group>, Memory>
    requires few { AreFew (N.words names.now) }
    ensures { IfOk result (λ found. option_map (λ group. (attr_of group, branches_of group)) found
        ≡ reading.read_group (N.words names.now) (tree_of form.now)) }
{
    let Form::List { items, .. } = form else {
        return Ok(None);
    };
    let items = items.as_slice();
    if items.len() != 2 {
        return Ok(None);
    }
    let Some(attr) = names.attr_number(&items[0]) else {
        return Ok(None);
    };
    match read_branch_list(alloc, names, &items[1])? {
        Some(values) => Ok(Some(Group::new(attr, values))),
        None => Ok(None),
    }
}

#[cycle(reading)]
fn read_branch_list<N: Numbers>(
    alloc: Global,
    names: &N,
    form: &Form,
) -> Result<Option<Vec<Branch>>, Memory>
    requires few { AreFew (N.words names.now) }
    ensures { IfOk result (λ found. option_map (λ branches. branches_in branches.items) found
        ≡ reading.read_branch_list (N.words names.now) (tree_of form.now)) }
{
    match form {
        Form::Atom { .. } => Ok(None),
        Form::List { items, .. } => {
            let items = items.as_slice();
            if items.is_empty() {
                return Ok(None);
            }
            read_branches(alloc, names, items)
        }
    }
}

#[cycle(reading)]
fn read_branches<N: Numbers>(
    alloc: Global,
    names: &N,
    forms: &[Form],
) -> Result<Option<Vec<Branch>>, Memory>
    requires few { AreFew (N.words names.now) }
    ensures { IfOk result (λ found. option_map (λ branches. branches_in branches.items) found
        ≡ reading.read_branches (N.words names.now) (packed (trees_of forms.now))) }
{
    let mut branches = Vec::new(alloc);
    for form in forms {
        match read_branch(alloc, names, form)? {
            Some(branch) => branches.push(branch)?,
            None => return Ok(None),
        }
    }
    Ok(Some(branches))
}

#[cycle(reading)]
fn read_branch<N: Numbers>(alloc: Global, names: &N, form: &Form) -> Result<Option<Branch>, Memory>
    requires few { AreFew (N.words names.now) }
    ensures { IfOk result (λ found. option_map (λ branch. (value_of branch, inner_of branch)) found
        ≡ reading.read_branch (N.words names.now) (tree_of form.now)) }
{
    let Form::List { items, .. } = form else {
        return Ok(plain_branch(alloc, names, form));
    };
    let Some((head, below)) = items.as_slice().split_first() else {
        return Ok(None);
    };
    if below.is_empty() {
        return Ok(None);
    }
    let Some(value) = names.value_number(head) else {
        return Ok(None);
    };
    match read_groups(alloc, names, below)? {
        Some(groups) => Ok(Some(Branch::new(value, groups))),
        None => Ok(None),
    }
}

// A value without groups.
fn plain_branch<N: Numbers>(alloc: Global, names: &N, form: &Form) -> Option<Branch>
    requires few { AreFew (N.words names.now) }
    ensures { option_map (λ branch. (value_of branch, inner_of branch)) result
        ≡ option_map reading.plain (number_of (N.words names.now).values (tree_of form.now)) }
{
    match names.value_number(form) {
        Some(value) => Some(Branch::new(value, Vec::new(alloc))),
        None => None,
    }
}

//! The faces of a deck tree.
ghost use Rattle.std.specs.Prelude.{◌≡◌, ◌++◌, List, [], ◌∷◌, IfOk, OnOk};
ghost use Rattle.rc_base.specs.Deck.{Face as Pairs, AreFaces};
ghost use Rattle.rc_deck.specs.Tree.{groups_of, groups_in, attr_of, branches_of, value_of, inner_of};
ghost use Rattle.rc_deck.specs.Product.{faces_of_groups, faces_of_branches, behind, joined};

use crate::{Branch, DeckTree, Face, Group, Memory};
use std::alloc::Global;

/// The tree's faces in order, the first group varying slowest. Where every group has a value, the time is linear in the
/// length of all faces.
pub fn faces_of(alloc: Global, tree: &DeckTree) -> Result<Vec<Face>, Memory>
    ensures faces { IfOk result (λ v. AreFaces (groups_of tree.now) v.items) }
    ensures only { IfOk result
        (λ v. (faces : List Pairs) → AreFaces (groups_of tree.now) faces → faces ≡ v.items) }
{
    extend_by_groups(alloc, Face::new(Vec::new(alloc)), &tree.groups)
}

// The face, extended by each face of the groups.
#[cycle(listing)]
fn extend_by_groups(alloc: Global, face: Face, groups: &Vec<Group>) -> Result<Vec<Face>, Memory>
    ensures { IfOk result (λ v. v.items ≡ behind face (faces_of_groups (groups_in groups.now.items))) }
{
    let mut faces = vec![in alloc; face]?;
    for group in groups {
        faces = extend_all(alloc, faces, group)?;
    }
    Ok(faces)
}

// Each face in turn, extended by each face of the group.
#[cycle(listing)]
fn extend_all(alloc: Global, faces: Vec<Face>, group: &Group) -> Result<Vec<Face>, Memory>
    ensures { IfOk result (λ v. v.items
        ≡ joined faces.items (faces_of_branches (attr_of group.now) (branches_of group.now))) }
{
    let mut all = Vec::new(alloc);
    for face in faces {
        let mut extended = extend_by_group(alloc, face, group)?;
        all.append(&mut extended)?;
    }
    Ok(all)
}

// Copies of the face go to all branches but the last, which takes the face itself: a group of one value copies nothing.
#[cycle(listing)]
fn extend_by_group(alloc: Global, face: Face, group: &Group) -> Result<Vec<Face>, Memory>
    ensures { IfOk result
        (λ v. v.items ≡ behind face (faces_of_branches (attr_of group.now) (branches_of group.now))) }
{
    let mut all = Vec::new(alloc);
    let Some((last, others)) = group.values.split_last() else {
        return Ok(all);
    };
    for branch in others {
        let copy = face.copy(alloc)?;
        extend_by_branch(alloc, copy, group.attr, branch, &mut all)?;
    }
    extend_by_branch(alloc, face, group.attr, last, &mut all)?;
    Ok(all)
}

// Adds the face with the branch's value, extended by each face of the branch's groups.
#[cycle(listing)]
fn extend_by_branch(
    alloc: Global,
    face: Face,
    attr: u16,
    branch: &Branch,
    all: &mut Vec<Face>,
) -> Result<(), Memory>
    ensures { OnOk result (all.new.items
        ≡ all.old.items ++ behind (face ++ (attr, value_of branch.now) ∷ []) (faces_of_groups (inner_of branch.now))) }
{
    let face = face.with(attr, branch.value)?;
    let mut extended = extend_by_groups(alloc, face, &branch.groups)?;
    all.append(&mut extended)?;
    Ok(())
}

//! How many faces a deck tree has.
ghost use Rattle.std.specs.Prelude.{◌≡◌, min, List, length};
ghost use Rattle.rc_base.specs.Deck.{Face, AreFaces, face_count, branch_count};
ghost use Rattle.rc_deck.specs.Tree.{groups_of, groups_in, branches_in};

use crate::{Branch, DeckTree, Group};

/// The number of the tree's faces, or `cap` where there are more. It takes no memory, and looks at each branch once,
/// however many faces there are.
pub fn count_of(tree: &DeckTree, cap: usize) -> usize
    ensures counts { (faces : List Face) → AreFaces (groups_of tree.now) faces → result ≡ min cap (length faces) }
    ensures listed { (faces : List Face) × AreFaces (groups_of tree.now) faces × (result ≡ min cap (length faces)) }
{
    count_groups(&tree.groups, cap)
}

// Each product and each sum stops at the cap.
#[cycle(counting)]
fn count_groups(groups: &Vec<Group>, cap: usize) -> usize
    ensures { result ≡ min cap (face_count (groups_in groups.now.items)) }
{
    let mut count = cap.min(1);
    for group in groups {
        let choices = count_branches(&group.values, cap);
        count = cap.min(count.saturating_mul(choices));
    }
    count
}

#[cycle(counting)]
fn count_branches(branches: &Vec<Branch>, cap: usize) -> usize
    ensures { result ≡ min cap (branch_count (branches_in branches.now.items)) }
{
    let mut count = 0usize;
    for branch in branches {
        let below = count_groups(&branch.groups, cap);
        count = cap.min(count.saturating_add(below));
    }
    count
}

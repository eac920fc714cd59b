//! How many faces the tree of a deck has, counted no further than one above the most cards of a form.
ghost use Rattle.std.specs.Prelude.{◌≡◌, ◌≤◌, ◌+◌, ◌*◌, min};
ghost use Rattle.rc_form.specs.Form.{tree_of, trees_of, packed};
ghost use Rattle.rc_check.specs.SecondNames as names;
ghost use Rattle.rc_check.specs.Seen.{part_seen};
ghost use Rattle.rc_check.specs.Groups.{faces_by, branch_by};

use rc_base::limits::MOST_CARDS;
use rc_form::Form;

/// More cards than a form may have. No count goes further.
const TOO_MANY: u32 = MOST_CARDS as u32 + 1;

/// The faces of a deck's tree.
pub fn faces_of(deck: Option<&Form>) -> u32
    ensures { result ≡ min (names.faces_of (part_seen deck.entry)) TOO_MANY }
{
    match deck {
        Some(Form::List { items, .. }) => face_count(items.as_slice()),
        Some(Form::Atom { .. }) => 0,
        None => face_count(&[]),
    }
}

/// The faces that groups make: a product.
#[cycle(faces)]
fn face_count(groups: &[Form]) -> u32
    ensures { result ≡ min (names.written_faces (packed (trees_of groups.now))) TOO_MANY }
{
    let mut count = 1;
    for group in groups {
        count = product(count, group_faces(group));
    }
    count
}

/// The faces that a group makes by itself.
#[cycle(faces)]
fn group_faces(group: &Form) -> u32
    ensures { result ≡ min (faces_by (tree_of group.now)) TOO_MANY }
{
    let Form::List { items, .. } = group else {
        return 1;
    };
    let [_, branches] = items.as_slice() else {
        return 1;
    };
    match branches {
        Form::List { items, .. } => branch_count(items.as_slice()),
        Form::Atom { .. } => 1,
    }
}

/// The faces that branches make: a sum.
#[cycle(faces)]
fn branch_count(branches: &[Form]) -> u32
    ensures { result ≡ min (names.written_branches (packed (trees_of branches.now))) TOO_MANY }
{
    let mut count = 0;
    for branch in branches {
        count = sum(count, branch_faces(branch));
    }
    count
}

/// The faces that a branch makes.
#[cycle(faces)]
fn branch_faces(branch: &Form) -> u32
    ensures { result ≡ min (branch_by (tree_of branch.now)) TOO_MANY }
{
    match branch {
        Form::Atom { .. } => 1,
        Form::List { items, .. } => face_count(items.as_slice()),
    }
}

fn product(a: u32, b: u32) -> u32
    requires few_a { a ≤ TOO_MANY }
    requires few_b { b ≤ TOO_MANY }
    ensures { result ≡ min (a * b) TOO_MANY }
{
    (a * b).min(TOO_MANY)
}

fn sum(a: u32, b: u32) -> u32
    requires few_a { a ≤ TOO_MANY }
    requires few_b { b ≤ TOO_MANY }
    ensures { result ≡ min (a + b) TOO_MANY }
{
    (a + b).min(TOO_MANY)
}

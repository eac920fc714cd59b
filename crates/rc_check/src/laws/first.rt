//! Laws of the second round of faults. No function here does anything: each has a contract that is the law.
ghost use Rattle.rc_base.specs.Tree.{Tree};
ghost use Rattle.rc_check.specs.SecondWalk.{FindsFirst, IsLeastFirst};

/// One walk over the parts of a form, in the order of the text, finds the first fault of the second round.
pub fn one_walk_finds_the_first()
    ensures { (tree : Tree) → FindsFirst tree }
{}

/// No fault of the second round comes before the first in the list, where the form stands in a text.
pub fn the_first_is_the_least()
    ensures { (tree : Tree) → IsLeastFirst tree }
{}

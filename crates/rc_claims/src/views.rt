//! What passes know of the word that they draw from, the rule of that word, and what the steps on it tell. All of it
//! exists in proofs alone.
use atomic_table::{Join, Play, Split, TableRule};
use std::collections::LinkedList;

/// The rule of the word: the numbers below it stand in the views, each once.
pub(crate) struct EachOnce;

/// How many numbers are to be claimed, and how many passes there are.
#[derive(Drop)]
pub(crate) struct Limits {
    pub(crate) count: u32,
    pub(crate) passes: u8,
}

/// What a pass knows: its holders, and the numbers that it has claimed.
pub(crate) struct PassView {
    pub(crate) holders: LinkedList<u8>,
    pub(crate) numbers: LinkedList<u32>,
}

impl TableRule<(), PassView, Limits> for EachOnce {
    ghost use Rattle.std.specs.Prelude.{[]};
    ghost use Rattle.rc_base.specs.Numbers.{below};
    ghost use Rattle.rc_claims.specs.Rule.{pass_view, IsKept};

    ghost holds = { IsKept };

    ghost first = { λ limits. pass_view (below limits.passes) [] };
}

/// The step that draws a number.
pub(crate) struct Draws;

impl Play<(), PassView> for Draws {
    ghost use Rattle.rc_claims.specs.Rule.{Draws as Drawing};

    ghost then = { Drawing };
}

/// The step that gives the first holder to a new pass.
pub(crate) struct GivesOne;

impl Split<PassView> for GivesOne {
    ghost use Rattle.rc_claims.specs.Rule.{behind_first, first_alone};

    ghost left = { behind_first };

    ghost right = { first_alone };
}

/// The step that puts two passes together.
pub(crate) struct TakesIn;

impl Join<PassView> for TakesIn {
    ghost use Rattle.rc_claims.specs.Rule.{both_views, no_view};

    ghost both = { both_views };

    ghost spent = { no_view };
}

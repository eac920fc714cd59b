//! A law of the grammar. No function here does anything: its contract is the law.
ghost use Rattle.std.specs.Prelude.{length, ◌≤◌};
ghost use Rattle.rc_base.specs.Tree.{Tree, Trees};
ghost use Rattle.rc_check.specs.Faults.{told_forms, plain_forms};
ghost use Rattle.rc_check.specs.declared.grammar.Symbol.{Symbol};

/// At most one form of a place may begin with a part and is told by the word behind it, and at most one that no such
/// word tells. So the order in which the table lists the forms of a place decides nothing.
pub fn one_form_at_most()
    ensures told { (place : Symbol) (head : Tree) (parts : Trees) → length (told_forms place head parts) ≤ 1 }
    ensures plain { (place : Symbol) (head : Tree) → length (plain_forms place head) ≤ 1 }
{}

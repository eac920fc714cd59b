//! Deck trees.

/// A deck in short: the list of its groups. A face takes one branch of each, the first group varying slowest.
#[derive(Debug, Drop)]
pub struct DeckTree {
    pub groups: Vec<Group>,
}

/// An attribute with its values, in order. A value may stand twice, which makes equal faces.
#[cycle(tree)]
#[derive(Debug, Drop)]
pub struct Group {
    pub attr: u16,
    pub values: Vec<Branch>,
}

/// A value with the groups below it, of which a face that takes the value takes one branch each too.
#[cycle(tree)]
#[derive(Debug, Drop)]
pub struct Branch {
    pub value: u16,
    pub groups: Vec<Group>,
}

impl Group {
    ghost use Rattle.std.specs.Prelude.{◌≡◌};
    ghost use Rattle.rc_deck.specs.Tree.{attr_of, branches_of, branches_in};

    /// The group of these parts. It takes no memory.
    pub fn new(attr: u16, values: Vec<Branch>) -> Group
        ensures attr { attr_of result ≡ attr }
        ensures branches { branches_of result ≡ branches_in values.items }
    {
        Group { attr, values }
    }
}

impl Branch {
    ghost use Rattle.std.specs.Prelude.{◌≡◌};
    ghost use Rattle.rc_deck.specs.Tree.{value_of, inner_of, groups_in};

    /// The branch of these parts. It takes no memory.
    pub fn new(value: u16, groups: Vec<Group>) -> Branch
        ensures value { value_of result ≡ value }
        ensures inner { inner_of result ≡ groups_in groups.items }
    {
        Branch { value, groups }
    }
}

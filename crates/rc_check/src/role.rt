//! What parts of a form are meant as.

/// What a part is meant as, where its place in the grammar doesn't say it.
#[derive(Clone, Copy, PartialEq, Eq, Debug)]
pub enum Role {
    /// Nothing else.
    No,
    /// An attribute that an expression uses.
    UsedAttribute,
    /// A value that an expression uses.
    UsedValue,
    /// A point map that an expression uses.
    UsedMap,
    /// A value that the setup gives.
    GivenValue,
    /// The location of a deck.
    DeckLocation,
    /// A location that takes cards.
    CardLocation,
    /// A location that takes references.
    ReferenceLocation,
    /// The second side of an equation.
    SecondSide,
}

/// What a side of an equation is.
#[derive(Clone, Copy, PartialEq, Eq, Debug)]
pub enum SideSort {
    Number,
    Card,
    Value,
    Player,
    Team,
}

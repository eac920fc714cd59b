//! What names stand for.

/// Who owns what a name stands for: the game, each player, or each team.
#[derive(Clone, Copy, PartialEq, Eq, Hash, Debug)]
pub enum Class {
    Game,
    Player,
    Team,
}

/// What a variable stands for.
#[derive(Clone, Copy, PartialEq, Eq, Hash, Debug)]
pub enum Sort {
    Player,
    Card,
    Group,
}

/// Who sees the cards of a location: everybody, its owner, nobody; or a location of references, which everybody sees.
#[derive(Clone, Copy, PartialEq, Eq, Hash, Debug)]
pub enum LocKind {
    Vloc,
    Iloc,
    Hloc,
    Mem,
}

//! Numbers that change at each player's turn.
ghost use Rattle.std.specs.Prelude.{◌≤◌};
ghost use Rattle.rc_base.specs.Limits.{most_numbers};

use rc_value::Change;

/// Where the number that is meant stands at each player's turn: at one place for all, or as far behind it as the
/// player's number says.
#[derive(Clone, Copy)]
pub struct EachPlace {
    pub first: u16,
    pub own: bool,
    ghost few: { first ≤ most_numbers },
}

/// What a number changes by at each player's turn.
#[derive(Clone, Copy)]
pub enum EachValue {
    Literal(i64),
    Number(EachPlace),
}

/// How a number changes at each player's turn.
#[derive(Clone, Copy)]
pub struct EachChange {
    pub how: Change,
    pub place: EachPlace,
    pub value: EachValue,
}

//! What an item binds.

use arrayvec::ArrayVec;

/// What a variable of an item stands for.
#[derive(Clone, Copy, PartialEq, Eq, Debug)]
pub enum Bound {
    /// A player.
    Player(u8),
    /// A card, by the number of its face: the smallest id that has it.
    Card(u16),
    /// A group, by the number of its first card's face.
    Group(u16),
}

impl Default for Bound {
    ghost use Rattle.std.specs.Prelude.{◌≡◌};
    ghost use Rattle.rc_rules.specs.declared.bound.Bound.TheVariants as bound;

    ghost is_default = { λ b. b ≡ bound.Player 0 };

    fn default() -> Bound {
        Bound::Player(0)
    }
}

/// What the variables of an item stand for, from outside to inside.
pub type Bounds = ArrayVec<Bound, 4>;

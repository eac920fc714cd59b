//! What may be wrong with a plan.

/// What is wrong at a place of a form that is to be a plan, or behind it. Shape and Number are looked for together, and
/// then each further kind by itself, in this order.
#[derive(Clone, Copy, PartialEq, Eq, Hash, Debug)]
pub enum PlanKind {
    /// A part is no form of its place.
    Shape,
    /// An atom isn't a number in the range of its place.
    Number,
    /// There aren't as many strategies as players.
    Seats,
    /// A `from` counts no match, more than 4,096, or beyond the largest number.
    Matches,
    /// The turn limit isn't within 1 to 100,000.
    Turns,
    /// More than 4,096 matches are listed, or the matches have more than 262,144 turns together.
    TooLarge,
    /// Something follows the plan.
    Rest,
}

/// A fault of a plan. `at` is the offset of the first byte of the part that is at fault.
#[derive(Clone, Copy, PartialEq, Eq, Debug)]
pub struct PlanFault {
    pub kind: PlanKind,
    pub at: u32,
}

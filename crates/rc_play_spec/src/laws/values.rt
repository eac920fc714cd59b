//! Laws of values. No function here does anything: a crate above gets a law by calling its function.
ghost use Rattle.rc_play_spec.specs.ValueLaws.{CollectionsAreWithin, NumbersAreWithin, LargestComesFirst, SmallestComesFirst};

/// A collection has at most 512 cards, and a number is within the clamp.
pub fn values_stay_within_limits()
    ensures cards { CollectionsAreWithin }
    ensures numbers { NumbersAreWithin }
{}

/// Of the cards that no other beats the first one is taken.
pub fn best_cards_come_first()
    ensures largest { LargestComesFirst }
    ensures smallest { SmallestComesFirst }
{}

//! Laws of draws. No function here does anything: a crate above gets a law by calling its function.
ghost use Rattle.rc_play_spec.specs.DrawLaws.{PicksBelow, Permutes, PermutesPlaces, OrdersPermute};

/// A pick is below what it is asked for, and the order of a key is a permutation.
pub fn keys_pick_and_permute()
    ensures picks { PicksBelow }
    ensures items { Permutes }
    ensures places { PermutesPlaces }
    ensures orders { OrdersPermute }
{}

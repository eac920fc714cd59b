//! The list that a dealer shuffles.
ghost use Rattle.std.specs.Prelude.{◌≡◌, ◌≤◌};
ghost use Rattle.rc_base.specs.Numbers.{below};
ghost use Rattle.rc_base.specs.Limits.{most_in_list};

use arrayvec::ArrayVec;
use rc_base::limits::MOST_IN_LIST;

/// The places of a list of so many items, in order.
#[tactic(auto, using(rc_deck::proofs::RangeLemmas::below_push))]
pub fn places(count: usize) -> ArrayVec<u16, MOST_IN_LIST>
    requires few { count ≤ most_in_list }
    ensures { result.items ≡ below count }
{
    let mut places = ArrayVec::new();
    for place in 0..count {
        places.push(place as u16);
    }
    places
}

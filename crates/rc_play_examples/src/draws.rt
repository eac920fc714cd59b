//! Shuffles, random picks and rollouts, in several matches. No function here does anything: the check proves each
//! contract by computing it.
ghost use Rattle.std.specs.Prelude.{◌≡◌, codes, Some};
ghost use Rattle.rc_play_examples.specs.Played.{house_text_of};
ghost use Rattle.rc_play_examples.specs.Draws.{five_shuffled, shuffled_twice, nothing_shuffled, picked_by_turn, picked_by_seat, range_of_matches, points_summed, rolled, rolled_in_turn};

/// A shuffle is made by the key of the deal and of its number.
pub fn shuffles_by_deal()
    ensures five_shuffled { house_text_of five_shuffled ≡ Some (codes "house 1\nmatch 0 deal 1 seats 0\nshuffles 1\nend done 0\nscore 0 43512 0\nstanding 1 strategy 0 points 0\n") }
    ensures shuffled_twice { house_text_of shuffled_twice ≡ Some (codes "house 1\nmatch 0 deal 4 seats 0\nshuffles 2\nend done 0\nscore 0 1342 0\nstanding 1 strategy 0 points 0\n") }
{}

/// A shuffle of nothing, or of one card, counts.
pub fn shuffles_of_nothing_count()
    ensures { house_text_of nothing_shuffled ≡ Some (codes "house 1\nmatch 0 deal 3 seats 0\nshuffles 3\nend done 0\nscore 0 3421 0\nstanding 1 strategy 0 points 0\n") }
{}

/// A random pick is made by the key, the seat, the seed and the turn.
pub fn picks_by_turn()
    ensures picked_by_turn { house_text_of picked_by_turn ≡ Some (codes "house 1\nmatch 0 deal 0 seats 0\nchoose 0 0 2 7\nchoose 0 0 6 7\nchoose 0 0 4 7\nend done 6\nscore 0 3 0\nstanding 1 strategy 0 points 0\n") }
    ensures picked_by_seat { house_text_of picked_by_seat ≡ Some (codes "house 1\nmatch 0 deal 0 seats 0\nchoose 0 0 4 7\nchoose 1 0 0 7\nend done 4\nscore 0 2 1\nscore 1 2 1\nmatch 1 deal 0 seats 0\nchoose 0 0 6 7\nchoose 1 0 2 7\nend done 4\nscore 0 2 1\nscore 1 2 1\nstanding 1 strategy 0 points 2\nstanding 1 strategy 1 points 2\n") }
{}

/// Matches of a range count both seeds up, and standings add up their points.
pub fn matches_of_a_range()
    ensures range_of_matches { house_text_of range_of_matches ≡ Some (codes "house 1\nmatch 0 deal 7 seats 3\nchoose 0 0 2 4\nshuffles 1\nend done 2\nscore 0 3 0\nmatch 1 deal 8 seats 4\nchoose 0 0 3 4\nshuffles 1\nend done 2\nscore 0 3 0\nmatch 2 deal 9 seats 5\nchoose 0 0 3 4\nshuffles 1\nend done 2\nscore 0 2 0\nstanding 1 strategy 0 points 0\n") }
    ensures points_summed { house_text_of points_summed ≡ Some (codes "house 1\nmatch 0 deal 0 seats 0\nchoose 0 0 2 3\nchoose 1 0 0 3\nend done 4\nscore 0 3 2\nscore 1 1 0\nmatch 1 deal 0 seats 0\nchoose 0 0 0 3\nchoose 1 0 2 3\nend done 4\nscore 0 1 0\nscore 1 3 2\nmatch 2 deal 0 seats 0\nchoose 0 0 2 3\nchoose 1 0 0 3\nend done 4\nscore 0 3 2\nscore 1 1 0\nstanding 1 strategy 0 points 6\nstanding 2 strategy 1 points 0\n") }
{}

/// A rollout takes the first item with the largest total of its playouts.
pub fn rollouts_take_the_first_largest()
    ensures rolled { house_text_of rolled ≡ Some (codes "house 1\nmatch 0 deal 0 seats 2\nchoose 0 0 0 7\nchoose 1 0 4 7\nend done 4\nscore 0 2 1\nscore 1 2 1\nstanding 1 strategy 0 points 1\nstanding 1 strategy 1 points 1\n") }
    ensures rolled_in_turn { house_text_of rolled_in_turn ≡ Some (codes "house 1\nmatch 0 deal 0 seats 0\nchoose 0 0 0 7\nchoose 1 0 0 7\nend done 4\nscore 0 2 1\nscore 1 2 1\nmatch 1 deal 0 seats 0\nchoose 0 0 6 7\nchoose 1 0 0 7\nend done 4\nscore 0 2 1\nscore 1 2 1\nstanding 1 strategy 0 points 2\nstanding 1 strategy 1 points 2\n") }
{}

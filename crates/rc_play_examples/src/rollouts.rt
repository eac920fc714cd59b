//! What rollouts add up, and by what their playouts draw. No function here does anything: the check proves each
//! contract by computing it.
ghost use Rattle.std.specs.Prelude.{◌≡◌, codes, Some};
ghost use Rattle.rc_play_examples.specs.Played.{house_text_of};
ghost use Rattle.rc_play_examples.specs.Rollouts.{most_gained, picked_behind, drawn_together};

/// A rollout adds up rank points, and takes the first item of the largest total, which isn't the first item of all.
pub fn rollouts_add_up_rank_points()
    ensures { house_text_of most_gained ≡ Some (codes "house 1\nmatch 0 deal 0 seats 0\nchoose 0 0 1 3\nend done 2\nscore 0 1 2\nscore 1 0 0\nstanding 1 strategy 0 points 2\nstanding 2 strategy 1 points 0\n") }
{}

/// The item of a playout is in the key of each pick, which isn't the key of a shuffle.
pub fn playouts_pick_by_item()
    ensures { house_text_of picked_behind ≡ Some (codes "house 1\nmatch 0 deal 7 seats 19\nchoose 0 0 2 4\nchoose 1 0 0 4\nend done 4\nscore 0 3 2\nscore 1 1 0\nstanding 1 strategy 0 points 2\nstanding 2 strategy 1 points 0\n") }
{}

/// The picks and shuffles of a playout are counted together, and have keys by round, item and count.
pub fn playouts_count_picks_and_shuffles_together()
    ensures { house_text_of drawn_together ≡ Some (codes "house 1\nmatch 0 deal 1 seats 95\nchoose 0 0 0 4\nchoose 1 0 1 4\nchoose 0 0 0 4\nshuffles 3\nend done 6\nscore 0 2 0\nscore 1 4 2\nstanding 1 strategy 1 points 2\nstanding 2 strategy 0 points 0\n") }
{}

//! Effects that run others. No function here does anything: the check proves each contract by computing it.
ghost use Rattle.std.specs.Prelude.{◌≡◌, codes, Some};
ghost use Rattle.rc_play_examples.specs.Played.{house_text_of};
ghost use Rattle.rc_play_examples.specs.Effects.{many_times, less_than_never, count_once, all_or_none, moved_once, all_once};

/// A number of times is within 0 and 1,000.
pub fn repeats_are_limited()
    ensures many_times { house_text_of many_times
        ≡ Some (codes "house 1\nmatch 0 deal 0 seats 0\nend done 0\nscore 0 1000 0\nstanding 1 strategy 0 points 0\n") }
    ensures less_than_never { house_text_of less_than_never
        ≡ Some (codes "house 1\nmatch 0 deal 0 seats 0\nend done 0\nscore 0 7 0\nstanding 1 strategy 0 points 0\n") }
{}

/// The number of times is taken before the first one.
pub fn counts_are_taken_once()
    ensures { house_text_of count_once ≡ Some
        (codes "house 1\nmatch 0 deal 0 seats 0\nend done 0\nscore 0 4 0\nstanding 1 strategy 0 points 0\n") }
{}

/// `if` runs all its effects or none.
pub fn tests_are_made_once()
    ensures { house_text_of all_or_none ≡ Some
        (codes "house 1\nmatch 0 deal 0 seats 0\nend done 0\nscore 0 11 0\nstanding 1 strategy 0 points 0\n") }
{}

/// `move all` and `all` take their cards before the first one is moved.
pub fn domains_are_taken_once()
    ensures moved_once { house_text_of moved_once
        ≡ Some (codes "house 1\nmatch 0 deal 0 seats 0\nend done 0\nscore 0 4 0\nstanding 1 strategy 0 points 0\n") }
    ensures all_once { house_text_of all_once
        ≡ Some (codes "house 1\nmatch 0 deal 0 seats 0\nend done 0\nscore 0 44 0\nstanding 1 strategy 0 points 0\n") }
{}

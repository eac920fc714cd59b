//! Collections, and cards taken from them. No function here does anything: the check proves each contract by computing
//! it.
ghost use Rattle.std.specs.Prelude.{◌≡◌, codes, Some};
ghost use Rattle.rc_play_examples.specs.Played.{house_text_of};
ghost use Rattle.rc_play_examples.specs.Collections.{cut_inside, ties, nothing, groups};

/// A union is cut to 512 cards also inside a filter.
pub fn inner_collections_are_cut()
    ensures { house_text_of cut_inside ≡ Some
        (codes "house 1\nmatch 0 deal 0 seats 0\nend done 0\nscore 0 15 0\nstanding 1 strategy 0 points 0\n") }
{}

/// `max` and `min` take the first of the cards that tie.
pub fn first_of_ties()
    ensures { house_text_of ties
        ≡ Some (codes "house 1\nmatch 0 deal 0 seats 0\nend done 0\nscore 0 24 0\nstanding 1 strategy 0 points 0\n") }
{}

/// What is nothing equals what is nothing, and no card.
pub fn nothing_equals_nothing()
    ensures { house_text_of nothing ≡ Some
        (codes "house 1\nmatch 0 deal 0 seats 0\nend done 0\nscore 0 1011 0\nstanding 1 strategy 0 points 0\n") }
{}

/// Groups come in the order in which their values appear, and a card without one is in none.
pub fn groups_by_first_appearance()
    ensures { house_text_of groups ≡ Some (codes "house 1\nmatch 0 deal 0 seats 0\nchoose 0 0 0 3\nend done 2\nscore 0 13 0\nstanding 1 strategy 0 points 0\n") }
{}

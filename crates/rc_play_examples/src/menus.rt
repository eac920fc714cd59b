//! Menus, and what is picked from them. No function here does anything: the check proves each contract by computing it.
ghost use Rattle.std.specs.Prelude.{◌≡◌, codes, Some};
ghost use Rattle.rc_play_examples.specs.Played.{house_text_of};
ghost use Rattle.rc_play_examples.specs.Menus.{last_of_the_pile, first_of_the_pile, two_alternatives, nested_domains, guard_once};

/// Of 300 items the first 256 are in the menu.
pub fn first_items_of_a_large_pile()
    ensures last_of_the_pile { house_text_of last_of_the_pile ≡ Some (codes "house 1\nmatch 0 deal 0 seats 0\nchoose 0 0 255 256\nend limit 2\nscore 0 0 0\nstanding 1 strategy 0 points 0\n") }
    ensures first_of_the_pile { house_text_of first_of_the_pile ≡ Some (codes "house 1\nmatch 0 deal 0 seats 0\nchoose 0 0 0 256\nend limit 2\nscore 0 0 0\nstanding 1 strategy 0 points 0\n") }
{}

/// The first 256 items count over all alternatives together.
pub fn items_are_counted_over_alternatives()
    ensures { house_text_of two_alternatives ≡ Some (codes "house 1\nmatch 0 deal 0 seats 0\nchoose 0 0 255 256\nend done 2\nscore 0 56 0\nstanding 1 strategy 0 points 0\n") }
{}

/// Of two domains the outer one varies slowest.
pub fn outer_domains_vary_slowest()
    ensures { house_text_of nested_domains ≡ Some (codes "house 1\nmatch 0 deal 0 seats 0\nchoose 0 0 4 6\nend done 2\nscore 0 24 0\nstanding 1 strategy 0 points 0\n") }
{}

/// A guard is asked when the menu is made; the effects then all run.
pub fn guards_are_asked_once()
    ensures { house_text_of guard_once ≡ Some (codes "house 1\nmatch 0 deal 0 seats 0\nchoose 0 0 0 1\nend done 2\nscore 0 11 0\nstanding 1 strategy 0 points 0\n") }
{}

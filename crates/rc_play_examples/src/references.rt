//! References to cards. No function here does anything: the check proves each contract by computing it.
ghost use Rattle.std.specs.Prelude.{◌≡◌, codes, Some};
ghost use Rattle.rc_play_examples.specs.Played.{house_text_of};
ghost use Rattle.rc_play_examples.specs.References.{topmost, two_places, forgotten_twice, full_place, full_places};

/// `forget` takes the topmost reference with the face.
pub fn topmost_goes()
    ensures { house_text_of topmost ≡ Some
        (codes "house 1\nmatch 0 deal 0 seats 0\nend done 0\nscore 0 123 0\nstanding 1 strategy 0 points 0\n") }
{}

/// A reference goes out of the place in which it was read.
pub fn own_place_forgets()
    ensures { house_text_of two_places ≡ Some
        (codes "house 1\nmatch 0 deal 0 seats 0\nend done 0\nscore 0 12 0\nstanding 1 strategy 0 points 0\n") }
{}

/// A variable keeps a reference that has been forgotten.
pub fn variables_keep_references()
    ensures { house_text_of forgotten_twice ≡ Some (codes "house 1\nmatch 0 deal 0 seats 0\nchoose 0 0 1 2\nend done 2\nscore 0 2 0\nstanding 1 strategy 0 points 0\n") }
{}

/// One place holds 512 references.
pub fn one_place_is_full()
    ensures { house_text_of full_place ≡ Some
        (codes "house 1\nmatch 0 deal 0 seats 0\nend done 0\nscore 0 5122 0\nstanding 1 strategy 0 points 0\n") }
{}

/// All places together hold 1,024 references.
pub fn all_places_are_full()
    ensures { house_text_of full_places ≡ Some (codes "house 1\nmatch 0 deal 0 seats 0\nend done 0\nscore 0 400 3\nscore 1 400 3\nscore 2 224 0\nstanding 1 strategy 0 points 3\nstanding 1 strategy 1 points 3\nstanding 3 strategy 2 points 0\n") }
{}

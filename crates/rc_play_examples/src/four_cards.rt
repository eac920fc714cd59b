//! Two players with two cards each, who put them on the table one by one. No function here does anything: the check
//! proves each contract by computing it.
ghost use Rattle.std.specs.Prelude.{◌≡◌, codes, Some};
ghost use Rattle.rc_play_examples.specs.Played.{house_text_of};
ghost use Rattle.rc_play_examples.specs.FourCards.{four_cards, three_turns, one_turn, one_scripted, three_scripted, hidden_sum, no_item, lowest, by_way_of_a_pile};

/// Each player plays his first card first.
pub fn first_items()
    ensures { house_text_of four_cards ≡ Some (codes "house 1\nmatch 0 deal 0 seats 0\nchoose 0 0 0 2\nchoose 1 0 0 2\nchoose 0 0 0 1\nchoose 1 0 0 1\nend done 8\nscore 0 7 2\nscore 1 3 0\nstanding 1 strategy 0 points 2\nstanding 2 strategy 1 points 0\n") }
{}

/// The turn limit is met before a decision.
pub fn limit_before_a_decision()
    ensures { house_text_of three_turns ≡ Some (codes "house 1\nmatch 0 deal 0 seats 0\nchoose 0 0 0 2\nend limit 3\nscore 0 4 2\nscore 1 0 0\nstanding 1 strategy 0 points 2\nstanding 2 strategy 1 points 0\n") }
{}

/// No choice comes before the first turn is over.
pub fn limit_before_any_decision()
    ensures { house_text_of one_turn ≡ Some (codes "house 1\nmatch 0 deal 0 seats 0\nend limit 1\nscore 0 0 1\nscore 1 0 1\nstanding 1 strategy 0 points 1\nstanding 1 strategy 1 points 1\n") }
{}

/// A number of a script is taken modulo the size of the menu, and is 0 past the script's end.
pub fn scripts_modulo_the_menu()
    ensures one_scripted { house_text_of one_scripted ≡ Some (codes "house 1\nmatch 0 deal 0 seats 0\nchoose 0 0 1 2\nchoose 1 0 0 2\nchoose 0 0 0 1\nchoose 1 0 0 1\nend done 8\nscore 0 7 2\nscore 1 3 0\nstanding 1 strategy 0 points 2\nstanding 2 strategy 1 points 0\n") }
    ensures three_scripted { house_text_of three_scripted ≡ Some (codes "house 1\nmatch 0 deal 0 seats 0\nchoose 0 0 1 2\nchoose 1 0 0 2\nchoose 0 0 0 1\nchoose 1 0 0 1\nend done 8\nscore 0 7 2\nscore 1 3 0\nstanding 1 strategy 0 points 2\nstanding 2 strategy 1 points 0\n") }
{}

/// An effect may count what its player doesn't see.
pub fn effects_read_hidden_cards()
    ensures { house_text_of hidden_sum ≡ Some (codes "house 1\nmatch 0 deal 0 seats 0\nchoose 0 0 0 2\nchoose 1 0 0 2\nchoose 0 0 0 1\nchoose 1 0 0 1\nend done 8\nscore 0 7 2\nscore 1 3 0\nstanding 1 strategy 0 points 2\nstanding 2 strategy 1 points 0\n") }
{}

/// Where no guard holds there is no decision, and rounds go on to the limit.
pub fn empty_menus_are_no_decisions()
    ensures { house_text_of no_item ≡ Some (codes "house 1\nmatch 0 deal 0 seats 0\nend limit 5\nscore 0 0 1\nscore 1 0 1\nstanding 1 strategy 0 points 1\nstanding 1 strategy 1 points 1\n") }
{}

/// With `min` the larger score is the worse one.
pub fn lowest_score_is_best()
    ensures { house_text_of lowest ≡ Some (codes "house 1\nmatch 0 deal 0 seats 0\nchoose 0 0 0 2\nchoose 1 0 0 2\nchoose 0 0 0 1\nchoose 1 0 0 1\nend done 8\nscore 0 7 0\nscore 1 3 2\nstanding 1 strategy 1 points 2\nstanding 2 strategy 0 points 0\n") }
{}

/// A variable is the card wherever it lies.
pub fn variables_follow_their_card()
    ensures { house_text_of by_way_of_a_pile ≡ Some (codes "house 1\nmatch 0 deal 0 seats 0\nchoose 0 0 0 2\nchoose 1 0 0 2\nchoose 0 0 0 1\nchoose 1 0 0 1\nend done 8\nscore 0 7 2\nscore 1 3 0\nstanding 1 strategy 0 points 2\nstanding 2 strategy 1 points 0\n") }
{}

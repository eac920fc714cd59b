//! Scores and rank points. No function here does anything: the check proves each contract by computing it.
ghost use Rattle.std.specs.Prelude.{◌≡◌, codes, Some};
ghost use Rattle.rc_play_examples.specs.Played.{house_text_of};
ghost use Rattle.rc_play_examples.specs.Scores.{two_teams, rich_team, card_by_card, sum_once};

/// Members of a team have one score together, and no points against one another.
pub fn teams_rank_together()
    ensures { house_text_of two_teams ≡ Some (codes "house 1\nmatch 0 deal 0 seats 0\nchoose 0 0 0 1\nchoose 2 0 0 1\nchoose 0 0 0 1\nchoose 2 0 0 1\nend done 8\nscore 0 4 2\nscore 1 4 0\nscore 2 4 2\nstanding 1 strategy 0 points 2\nstanding 1 strategy 2 points 2\nstanding 3 strategy 1 points 0\n") }
{}

/// The sum of a team isn't clamped.
pub fn team_sums_are_exact()
    ensures { house_text_of rich_team ≡ Some (codes "house 1\nmatch 0 deal 0 seats 0\nend done 0\nscore 0 1000000000 4\nscore 1 1000000000 4\nscore 2 1000000000 0\nscore 3 5 0\nstanding 1 strategy 0 points 4\nstanding 1 strategy 1 points 4\nstanding 3 strategy 2 points 0\nstanding 3 strategy 3 points 0\n") }
{}

/// The points of a card are clamped before a sum adds them.
pub fn points_are_clamped_card_by_card()
    ensures { house_text_of card_by_card ≡ Some
        (codes "house 1\nmatch 0 deal 0 seats 0\nend done 0\nscore 0 7 0\nstanding 1 strategy 0 points 0\n") }
{}

/// A sum is added exactly and clamped at its end.
pub fn sums_are_clamped_once()
    ensures { house_text_of sum_once ≡ Some
        (codes "house 1\nmatch 0 deal 0 seats 0\nend done 0\nscore 0 1000000000 0\nstanding 1 strategy 0 points 0\n") }
{}

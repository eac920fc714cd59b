//! Rollouts and whole matches by keys, computed. No function here does anything.
ghost use Rattle.std.specs.Prelude.{◌≡◌, ◌∷◌, [], take, codes};
ghost use Rattle.rc_play_spec.specs.Plan.{scripted, rollout};
ghost use Rattle.rc_play_spec.specs.About.{about_of};
ghost use Rattle.rc_play_spec.specs.Strategy.{menu_size};
ghost use Rattle.rc_play_spec.specs.Tally.{tally};
ghost use Rattle.rc_play_spec.specs.Keyed.{choice_of, keyed_play, keyed_house_text};
ghost use Rattle.rc_play_spec.specs.SmallMatches.{four, first_view, ask_of, six_cards, rolled_plan, deals_of, items_of, end_of};

/// Scripts need the size of the menu alone.
pub fn choices()
    ensures size { menu_size four first_view ≡ 2 }
    ensures script { choice_of four (scripted (3 ∷ [])) 7 first_view ≡ 1 }
{}

/// With the two best cards each item wins each playout.
pub fn rollouts()
    ensures one { tally four (ask_of 1) ≡ 2 ∷ 2 ∷ [] }
    ensures choice { choice_of four (rollout 1 9) 7 first_view ≡ 0 }
{}

/// Two seats that roll out, in two whole matches.
pub fn rolled_matches()
    ensures items { items_of (keyed_play four (rolled_plan (deals_of (0 ∷ 0 ∷ []))) 1) ≡ 0 ∷ 0 ∷ 0 ∷ 0 ∷ [] }
    ensures text { keyed_house_text four (rolled_plan (deals_of (0 ∷ 0 ∷ [])))
        ≡ codes "house 1\nmatch 0 deal 0 seats 7\nchoose 0 0 0 2\nchoose 1 0 0 2\nchoose 0 0 0 1\nchoose 1 0 0 1\nend done 8\nscore 0 7 2\nscore 1 3 0\nmatch 1 deal 0 seats 7\nchoose 0 0 0 2\nchoose 1 0 0 2\nchoose 0 0 0 1\nchoose 1 0 0 1\nend done 8\nscore 0 7 2\nscore 1 3 0\nstanding 1 strategy 0 points 2\nstanding 1 strategy 1 points 2\n" }
{}

/// Two deals that are alike to seat 0 at its first decision: it begins alike in both.
pub fn alike_deals()
    ensures first { take 1 (items_of (keyed_play (about_of six_cards 100) (rolled_plan (deals_of (0 ∷ 1 ∷ []))) 0))
        ≡ 0 ∷ [] }
    ensures second { take 1 (items_of (keyed_play (about_of six_cards 100) (rolled_plan (deals_of (0 ∷ 1 ∷ []))) 1))
        ≡ 0 ∷ [] }
    ensures end { end_of (keyed_play (about_of six_cards 100) (rolled_plan (deals_of (0 ∷ 1 ∷ []))) 1) ≡ 2 ∷ 8 ∷ [] }
{}

//! Stages whose next member is named, or that are turned. No function here does anything: the check proves each
//! contract by computing it.
ghost use Rattle.std.specs.Prelude.{◌≡◌, codes, Some};
ghost use Rattle.rc_play_examples.specs.Played.{house_text_of};
ghost use Rattle.rc_play_examples.specs.Cycles.{turning, naming, cycle_next_twice, name_and_turn, team_stage_turned, next_team, inner_start};

/// Each choice turns the direction of the stage.
pub fn directions_turn()
    ensures { house_text_of turning ≡ Some (codes "house 1\nmatch 0 deal 0 seats 0\nchoose 0 0 0 1\nchoose 2 0 0 1\nchoose 0 0 0 1\nchoose 2 0 0 1\nend done 8\nscore 0 4 2\nscore 1 4 2\nscore 2 4 2\nstanding 1 strategy 0 points 2\nstanding 1 strategy 1 points 2\nstanding 1 strategy 2 points 2\n") }
{}

/// A player who is named next goes on.
pub fn players_name_themselves()
    ensures { house_text_of naming ≡ Some (codes "house 1\nmatch 0 deal 0 seats 0\nchoose 0 0 0 1\nchoose 0 0 0 1\nchoose 0 0 0 1\nchoose 0 0 0 1\nend done 8\nscore 0 4 2\nscore 1 4 2\nscore 2 4 2\nstanding 1 strategy 0 points 2\nstanding 1 strategy 1 points 2\nstanding 1 strategy 2 points 2\n") }
{}

/// Of several names the last one counts.
pub fn last_name_counts()
    ensures { house_text_of cycle_next_twice ≡ Some (codes "house 1\nmatch 0 deal 0 seats 0\nchoose 0 0 0 1\nchoose 2 0 0 1\nchoose 2 0 0 1\nend done 6\nscore 0 3 2\nscore 1 3 2\nscore 2 3 2\nstanding 1 strategy 0 points 2\nstanding 1 strategy 1 points 2\nstanding 1 strategy 2 points 2\n") }
{}

/// A name leaves the direction as it is, and a turn leaves the name.
pub fn names_keep_directions()
    ensures { house_text_of name_and_turn ≡ Some (codes "house 1\nmatch 0 deal 0 seats 0\nchoose 0 0 2 4\nchoose 2 0 0 4\nchoose 1 0 0 4\nchoose 0 0 0 4\nend done 8\nscore 0 4 3\nscore 1 4 3\nscore 2 4 3\nscore 3 4 3\nstanding 1 strategy 0 points 3\nstanding 1 strategy 1 points 3\nstanding 1 strategy 2 points 3\nstanding 1 strategy 3 points 3\n") }
{}

/// The innermost stage is turned, of whatever class.
pub fn innermost_stage_turns()
    ensures { house_text_of team_stage_turned ≡ Some (codes "house 1\nmatch 0 deal 0 seats 0\nchoose 0 0 0 1\nchoose 0 0 0 1\nchoose 1 0 0 1\nchoose 1 0 0 1\nend done 10\nscore 0 4 3\nscore 1 4 3\nscore 2 2 0\nstanding 1 strategy 0 points 3\nstanding 1 strategy 1 points 3\nstanding 3 strategy 2 points 0\n") }
{}

/// A team is named in the innermost stage of teams, also from inside a stage of players.
pub fn names_pass_inner_stages()
    ensures { house_text_of next_team ≡ Some (codes "house 1\nmatch 0 deal 0 seats 0\nchoose 0 0 2 3\nchoose 0 0 1 3\nchoose 0 0 0 3\nend done 9\nscore 0 1 0\nscore 1 3 4\nscore 2 2 2\nstanding 1 strategy 1 points 4\nstanding 2 strategy 2 points 2\nstanding 3 strategy 0 points 0\n") }
{}

/// A stage of players inside another starts at the current player, also past a stage of teams.
pub fn inner_stages_start_at_the_current_player()
    ensures { house_text_of inner_start ≡ Some (codes "house 1\nmatch 0 deal 0 seats 0\nchoose 0 0 0 1\nchoose 1 0 0 1\nchoose 2 0 0 1\nend done 12\nscore 0 3 2\nscore 1 3 2\nscore 2 3 2\nstanding 1 strategy 0 points 2\nstanding 1 strategy 1 points 2\nstanding 1 strategy 2 points 2\n") }
{}

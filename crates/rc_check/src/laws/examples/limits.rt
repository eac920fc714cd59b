//! The limits of the second round of faults, computed on lists of parts. No function here does anything: each has a
//! contract that the check proves by computing.
ghost use Rattle.std.specs.Prelude.{[], ◌∷◌};
ghost use Rattle.rc_check.specs.SecondExamples.{Refused, Accepted, AllFaults, lines, groups, third_named, first_named, value, plain, eight, two_teams, of_team, FirstAt, Fits};
ghost use Rattle.rc_check.specs.declared.grammar.Rule.TheVariants as rule;
ghost use Rattle.rc_check.specs.declared.fault.SheetKind.TheVariants.{Twice, TooMany};

/// Cards are counted by faces over all deck lines, whatever else is wrong with their trees.
pub fn most_cards()
    ensures at_limit { Accepted (groups "(A (x x x x x x x x x x x x x x x x)) (B (1 2 (3 (C (4 5 6 7 8 9))) (0 (C (x x x x x x x x x x x x)) (D (y y)))))") }
    ensures one_more { Refused TooMany
        (lines "(create players 2) (create deck (game hloc S) (deck (A (x x x x x x x x)) (B (x x x x x x x x)) (C (x x x x x x x x)))) ^(create deck (game hloc S) (deck (A (x))))") }
    ensures inner { Refused TooMany
        (lines "(create players 2) ^(create deck (game hloc S) (deck (A (x x x x x x x x)) (B (x x x x x x x x)) (C (x x x x x x x (x (D (x x)))))))") }
    ensures passed_once { AllFaults (TooMany ∷ [])
        (lines "(create players 2) (create deck (game hloc S) (deck (A (x x x x x x x x x)) (B (x x x x x x x x)) (C (x x x x x x x x)))) (create deck (game hloc S) (deck (A (x))))") }
    ensures faulty { AllFaults (TooMany ∷ Twice ∷ [])
        (lines "(create players 2) (create deck (game hloc S) (deck (A (x x x x x x x x x)) (B (x x x x x x x x)) (A (x x x x x x x x))))") }
{}

/// Locations and numbers are counted by their owners, each name once.
pub fn most_owned()
    ensures game { FirstAt eight (third_named rule.Location "game") 256 }
    ensures players { FirstAt eight (third_named rule.Location "'P") 32 }
    ensures teams { FirstAt two_teams of_team 128 }
    ensures teams_of_one { FirstAt eight of_team 32 }
    ensures numbers { FirstAt eight (third_named rule.Counter "'P") 32 }
    ensures numbers_of_game { FirstAt eight (third_named rule.Counter "game") 256 }
    ensures again { Fits eight (third_named rule.Location "'P") 32 (third_named rule.Location "'P" 31) }
    ensures other_space { Fits eight (third_named rule.Location "'P") 32 (third_named rule.Counter "'P" 40) }
{}

/// Attributes and values are counted by their words, over decks and points; point maps, stages and choices each.
pub fn most_names()
    ensures groups { FirstAt [] (first_named rule.Group) 256 }
    ensures entries { FirstAt [] (first_named rule.Entry) 256 }
    ensures values { FirstAt [] value 256 }
    ensures maps { FirstAt [] (third_named rule.PutPoints "put") 256 }
    ensures over_both { Fits [] (first_named rule.Group) 256 (first_named rule.Entry 255) }
    ensures value_again { Fits [] value 256 (value 0) }
    ensures stages { FirstAt [] (plain rule.PlayerStage) 256 }
    ensures team_stages { FirstAt [] (plain rule.TeamStage) 256 }
    ensures choices { FirstAt [] (plain rule.Choice) 64 }
{}

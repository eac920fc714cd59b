//! The second round of faults, computed on texts: setup lines, deck trees and teams. No function here does anything:
//! each has a contract that the check proves by computing.
ghost use Rattle.std.specs.Prelude.{codes, ◌∷◌, []};
ghost use Rattle.rc_check.specs.SecondExamples.{Refused, Accepted, AllFaults, whole, setup, lines, decked, groups, bare};
ghost use Rattle.rc_check.specs.declared.fault.SheetKind.TheVariants.{Shape, Number, Twice, Unknown, WrongKind, NoCards};

/// Setup lines stand in any order. Those of players and of teams stand once, and each point map has a name of its own.
pub fn lines_again()
    ensures any_order { Accepted
        (lines "(put points W ((R (1) 1))) (create deck (game hloc S) (deck (R (1)))) (create teams (0 1)) (create players 2)") }
    ensures players { Refused Twice
        (lines "(create players 2) (create deck (game hloc S) (deck (R (1)))) ^(create players 2)") }
    ensures players_before_deck { Refused Twice (decked "(create players 2) ^(create players 3)") }
    ensures each_later_line { AllFaults (Twice ∷ Twice ∷ [])
        (decked "(create players 2) (create players 3) (create players 2)") }
    ensures teams { Refused Twice (decked "(create players 2) (create teams (0 1)) ^(create teams (0) (1))") }
    ensures later_teams_unread { AllFaults (Twice ∷ [])
        (decked "(create players 2) (create teams (0 1)) (create teams (0 0) (7))") }
    ensures teams_before_players { Refused Twice
        (decked "(create teams (0 1)) ^(create teams (0 1)) (create players 2)") }
    ensures map { Refused Twice
        (lines "(create players 2) (put points W ((R (1) 1))) (create deck (game hloc S) (deck (R (1)))) ^(put points W ((R (2) 2)))") }
    ensures other_map { Accepted
        (lines "(create players 2) (put points W ((R (1) 1))) (create deck (game hloc S) (deck (R (1)))) (put points V ((R (1) 1)))") }
    ensures other_spaces { Accepted
        (lines "(create players 2) (put points R ((R (R) 1))) (create deck (game hloc R) (deck (R (R))))") }
    ensures decks { Accepted
        (lines "(create players 2) (create deck (game hloc S) (deck (R (1)))) (create deck (game hloc S) (deck (R (1))))") }
{}

/// A form without a deck has this fault before all others of the second round, and those of the first round come before
/// it.
pub fn no_cards()
    ensures alone { Refused NoCards (bare "(create players 2)") }
    ensures before_others { Refused NoCards
        (codes "(game ^(setup (create players 2) (create players 2)) (do (forget 'C)) (scoring max 0))") }
    ensures all { AllFaults (NoCards ∷ Twice ∷ Unknown ∷ [])
        (codes "(game (setup (create players 2) (create players 2)) (do (forget 'C)) (scoring max 0))") }
    ensures behind_first_round { Refused Number
        (codes "(game (setup (create players 2)) (do (forget 'C)) (scoring max ^x))") }
    ensures lines_of_points { Refused NoCards (bare "(put points W ((R (1) 1))) (create players 2)") }
    ensures shape_of_deck { Refused Shape
        (codes "(game (setup (create players 2) ^(create deck (game hloc S))) (do (shuffle (game vloc X))) (scoring max 0))") }
    ensures faulty_deck { Refused WrongKind
        (lines "(create players 2) (create deck ^(game mem S) (deck (R (1))))") }
{}

/// An attribute stands once in a face: it isn't above a group, and not in an earlier group beside it or beside those
/// above it, inner groups included. Groups under different values don't see each other.
pub fn attributes_again()
    ensures beside { Refused Twice (groups "(Q (x)) ^(Q (y))") }
    ensures above { Refused Twice (groups "(Q ((x ^(Q (y)))))") }
    ensures far_above { Refused Twice (groups "(Q ((x (R ((1 ^(Q (y))))))))") }
    ensures beside_those_above { Refused Twice (groups "(Q (x)) (R ((1 ^(Q (x)))))") }
    ensures beside_far_above { Refused Twice (groups "(Q (x)) (R ((1 (T ((2 ^(Q (y))))))))") }
    ensures inner_of_earlier { Refused Twice (groups "(R ((1 (Q (x))) 2)) ^(Q (y))") }
    ensures inner_of_later_value { Refused Twice (groups "(R (1 (2 (Q (x))))) (T ((3 ^(Q (y)))))") }
    ensures in_one_branch { Refused Twice (groups "(R ((1 (Q (x)) ^(Q (y)))))") }
    ensures other_values { Accepted (groups "(R ((1 (Q (x))) (2 (Q (x)))))") }
    ensures other_lines { Accepted
        (lines "(create players 2) (create deck (game hloc S) (deck (Q (x)))) (create deck (game hloc S) (deck (Q (x))))") }
    ensures value_again { Accepted (groups "(Q (x x (x (R (x x)))))") }
    ensures entries { Accepted
        (lines "(create players 2) (put points W ((Q (x x) 1) (Q (x) 2))) (create deck (game hloc S) (deck (Q (x))))") }
{}

/// The first line of teams has each player once, whose number is below that of the first line of players.
pub fn players_in_teams()
    ensures all_together { Accepted (decked "(create players 8) (create teams (7 6 5 4 3 2 1 0))") }
    ensures spelled { Accepted (decked "(create players 02) (create teams (-0) (001))") }
    ensures again_in_team { Refused Twice (decked "(create players 2) (create teams (0 1 ^0))") }
    ensures again_in_other_team { Refused Twice (decked "(create players 2) (create teams (0 1) (^1))") }
    ensures again_spelled { Refused Twice (decked "(create players 2) (create teams (0 1) (^-00))") }
    ensures no_player { Refused Unknown (decked "(create players 2) (create teams (0) (1 ^2))") }
    ensures no_player_before { Refused Unknown
        (lines "(create teams (^1 0)) (create deck (game hloc S) (deck (R (1)))) (create players 1)") }
    ensures no_player_again { AllFaults (Unknown ∷ Twice ∷ Unknown ∷ [])
        (decked "(create players 2) (create teams (0) (1) (7) (7))") }
    ensures first_players { Refused Unknown (decked "(create players 1) (create teams (0 ^1)) (create players 2)") }
    ensures left_out { Refused Unknown (decked "(create players 2) ^(create teams (0))") }
    ensures left_out_last { Refused Unknown
        (lines "(create deck (game hloc S) (deck (R (1)))) ^(create teams (0 1 2 3 4 5 6)) (create players 8)") }
    ensures left_out_before_members { Refused Unknown (decked "(create players 3) ^(create teams (0 0) (7))") }
    ensures no_cards_before { Refused NoCards (bare "(create players 2) (create teams (0))") }
{}

/// A deck's location is the game's, and holds cards. It is outside all stages and scopes.
pub fn decks()
    ensures kinds { Accepted
        (lines "(create players 2) (create deck (game vloc A) (deck (R (1)))) (create deck (game iloc B) (deck (R (1))))") }
    ensures references { Refused WrongKind (lines "(create players 2) (create deck ^(game mem S) (deck (R (1))))") }
    ensures player { Refused WrongKind
        (lines "(create players 2) (create deck ^((current player) hloc S) (deck (R (1))))") }
    ensures variable { AllFaults (WrongKind ∷ Unknown ∷ [])
        (lines "(create players 2) (create deck ('P hloc S) (deck (R (1))))") }
    ensures team { AllFaults (WrongKind ∷ Unknown ∷ [])
        (lines "(create players 2) (create deck ((team of (current player)) hloc S) (deck (R (1))))") }
    ensures other_kind { Refused WrongKind
        (lines "(create players 2) (create deck (game hloc S) (deck (R (1)))) (create deck ^(game vloc S) (deck (R (1))))") }
    ensures over_items { Refused WrongKind (whole setup (codes "(do (shuffle ^(game vloc S)))") (codes "0")) }
{}

//! The second round of faults, computed where several forms or names come together: sides by their forms, stages in
//! stages, and limits over names of several sorts. No function here does anything: each has a contract that the check
//! proves by computing.
ghost use Rattle.std.specs.Prelude.{codes, []};
ghost use Rattle.rc_check.specs.SecondExamples.{Refused, Accepted, whole, item, effect, test, alternative, score, third_named, first_named, plain, references, switched, eight, two_teams, of_team, FirstAt, Fits};
ghost use Rattle.rc_check.specs.declared.grammar.Rule.TheVariants as rule;
ghost use Rattle.rc_check.specs.declared.fault.SheetKind.TheVariants.{Unknown, WrongKind};

/// Each form of a side is of its own sort.
pub fn sides_by_form()
    ensures sum { Refused WrongKind (test "(= (sum (game vloc X) using W) ^(top (game vloc X)))") }
    ensures points { Refused WrongKind (test "(= (points (top (game vloc X)) using W) ^(current player))") }
    ensures size { Refused WrongKind (test "(!= (size (game vloc X)) ^(attr (top (game vloc X)) R))") }
    ensures plus { Refused WrongKind (test "(= (+ 0 0) ^(bottom (game vloc X)))") }
    ensures minus { Refused WrongKind (test "(= (current player) ^(- 0 0))") }
    ensures times { Refused WrongKind (test "(!= (top (game vloc X)) ^(* 1 1))") }
    ensures least { Refused WrongKind (test "(= (min (game vloc X) using W) ^(attr (top (game vloc X)) R))") }
    ensures greatest { Refused WrongKind (test "(= 0 ^(max (game vloc X) using W))") }
    ensures current_team { Refused WrongKind
        (item "(stage team (end (= (current team) ^(current player))) (do (cycle reverse)))") }
{}

/// Sides of one sort may have different forms.
pub fn sides_alike()
    ensures numbers { Accepted
        (test "(and (= (sum (game vloc X) using W) (points (top (game vloc X)) using W)) (= (+ 1 2) (* 1 2)) (!= (- 1 2) (game sto N)) (= -0 (size (game vloc X))))") }
    ensures cards { Accepted
        (test "(all (game vloc X) 'C (and (= 'C (min (game vloc X) using W)) (!= (bottom (game vloc X)) 'C)))") }
    ensures values { Accepted (test "(!= (attr (top (game vloc X)) R) (attr (min (game vloc X) using W) R))") }
    ensures players { Accepted (score "(size (filter (game vloc X) 'C (any player 'P (= 'SELF 'P))))") }
    ensures teams { Accepted
        (item "(stage team (end (all player 'P (= (current team) (team of 'P)))) (do (cycle reverse)))") }
{}

/// A stage stays around a place inside a stage of the other class. A team that is written in two ways is one class of
/// owner.
pub fn stages_in_stages()
    ensures next_player { Accepted (item "(stage team (end (= 0 0)) (do (all player 'P (cycle next 'P))))") }
    ensures next_team { Accepted
        (item "(stage team (end (= 0 0)) (stage player (end (= 0 0)) (do (cycle next (current team)))))") }
    ensures team_in_two_ways { Accepted
        (item "(stage team (end (= 0 0)) (do (shuffle ((current team) vloc X)) (shuffle ((team of (current player)) vloc X))))") }
    ensures team_behind { Refused Unknown
        (item "(stage team (end (= 0 0)) (do (cycle reverse))) (do (shuffle (^(current team) vloc X)))") }
    ensures group_in_test { Accepted
        (alternative "(any (partition (game vloc X) R) 'G (if (any 'G 'C (is 'C R 2)) (move all 'G (top (game vloc X)))))") }
    ensures attribute_of_points_parted { Accepted
        (whole (codes "(create players 1) (put points W ((Q (7) 1))) (create teams (0)) (create deck (game iloc S) (deck (R (1))))")
        (codes "(stage player (end (= 0 0)) (choice (any (partition (game vloc X) Q) 'G (do (move all 'G (bottom (game iloc S)))))))")
        (codes "0")) }
    ensures self_bound_before { Accepted
        (effect "(repeat 1 (repeat 1 (all player 'SELF (all player 'P (cycle next 'SELF)))))") }
{}

/// Stages count together, and so do attributes of groups and entries, and locations of all kinds and classes. A name
/// with another class adds nothing.
pub fn limits_together()
    ensures stages { FirstAt [] (switched 200 (plain rule.PlayerStage) (plain rule.TeamStage)) 256 }
    ensures attributes { FirstAt [] (switched 200 (first_named rule.Entry) (first_named rule.Group)) 256 }
    ensures kinds { FirstAt eight (switched 200 references (third_named rule.Location "game")) 256 }
    ensures game_then_players { FirstAt eight
        (switched 200 (third_named rule.Location "game") (third_named rule.Location "'P")) 207 }
    ensures teams_then_players { FirstAt two_teams (switched 100 of_team (third_named rule.Location "'P")) 107 }
    ensures numbers { FirstAt eight (switched 200 (third_named rule.Counter "game")
        (third_named rule.Counter "'P")) 207 }
    ensures other_class { Fits eight (third_named rule.Location "game") 256 (third_named rule.Location "'P" 0) }
    ensures other_kind { Fits eight (third_named rule.Location "game") 256 (references 255) }
{}

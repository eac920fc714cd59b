//! The definitions of plans, computed on texts whose first fault is known. No function here does anything: each has a
//! contract that the check proves by computing both sides.
ghost use Rattle.std.specs.Prelude.{◌≡◌, None};
ghost use Rattle.rc_play_spec.specs.PlanStands.{PlanStands};
ghost use Rattle.rc_play_spec.specs.Examples.{plan_form, told, one, two_matches};
ghost use Rattle.rc_play_spec.specs.declared.plan_fault.PlanKind.TheVariants as kind;

/// A text of each form of matches, and the plan for which it stands.
pub fn forms_of_plans()
    ensures listed { PlanStands two_matches
        (plan_form "(plan (seats (script 1 020) (random 7) (rollout 4 2)) (matches (3 4) (5 6)) (turns 00100))") }
    ensures fine { told "(plan (seats (script) (script)) (matches (0 0)) (turns 10))" ≡ None }
{}

/// Faults of the form itself, and of its three parts.
pub fn whole_forms()
    ensures empty { told "()" ≡ one kind.Shape 0 }
    ensures head { told "(plans (seats (script) (script)) (matches (0 0)) (turns 10))" ≡ one kind.Shape 0 }
    ensures parts { told "(plan (seats (script x) (script)) (matches (0 0)))" ≡ one kind.Shape 0 }
    ensures order { told "(plan (matches (0 0)) (seats (script) (script)) (turns 10))" ≡ one kind.Shape 6 }
{}

/// A strategy is a list with one of three words at its head, and with its number of parts.
pub fn faults_of_strategies()
    ensures none { told "(plan (seats) (matches (0 0)) (turns 10))" ≡ one kind.Shape 6 }
    ensures unknown { told "(plan (seats (script) (greedy 3)) (matches (0 0)) (turns 10))" ≡ one kind.Shape 22 }
    ensures atom { told "(plan (seats (script) script) (matches (0 0)) (turns 10))" ≡ one kind.Shape 22 }
    ensures keyless { told "(plan (seats (script) (random)) (matches (0 0)) (turns 10))" ≡ one kind.Shape 22 }
    ensures short { told "(plan (seats (script) (rollout 0)) (matches (0 0)) (turns 10))" ≡ one kind.Shape 22 }
    ensures few { told "(plan (seats (script)) (matches (0 0)) (turns 10))" ≡ one kind.Seats 6 }
    ensures many { told "(plan (seats (script) (script) (script)) (matches (0 0)) (turns 10))" ≡ one kind.Seats 6 }
{}

/// An atom in a number's place is at fault by its spelling or its range, and a list there is no number at all.
pub fn faults_of_numbers()
    ensures rounds { told "(plan (seats (script) (rollout 0 1)) (matches (0 0)) (turns 10))" ≡ one kind.Number 31 }
    ensures script { told "(plan (seats (script 65535 65536) (script)) (matches (0 0)) (turns 10))"
        ≡ one kind.Number 27 }
    ensures digits { told "(plan (seats (script) (script)) (matches (0000000000000000001 x)) (turns 10))"
        ≡ one kind.Number 42 }
    ensures sign { told "(plan (seats (script) (script)) (matches (0 0)) (turns -5))" ≡ one kind.Number 55 }
    ensures list { told "(plan (seats (script) (script)) (matches (0 0)) (turns (10)))" ≡ one kind.Shape 55 }
    ensures zero { told "(plan (seats (script) (script)) (matches (0 0)) (turns 0))" ≡ one kind.Turns 55 }
    ensures late { told "(plan (seats (script) (script)) (matches (0 0)) (turns 100001))" ≡ one kind.Turns 55 }
{}

/// A `from` list stands alone among lists, and counts 1 to 4,096 matches within the numbers.
pub fn faults_of_matches()
    ensures atom { told "(plan (seats (script) (script)) (matches (from 0 0 2) 7) (turns 10))" ≡ one kind.Shape 54 }
    ensures beside { told "(plan (seats (script) (script)) (matches (1 1) (from 0 0 2)) (turns 10))"
        ≡ one kind.Shape 47 }
    ensures two { told "(plan (seats (script) (script)) (matches (from 0 0 2) (from 5 5 2)) (turns 10))"
        ≡ one kind.Shape 41 }
    ensures three { told "(plan (seats (script) (script)) (matches (0 0) (1 1 1)) (turns 10))" ≡ one kind.Shape 47 }
    ensures first { told "(plan (seats (script) (script)) (matches ((0) 0)) (turns 10))" ≡ one kind.Shape 42 }
    ensures zero { told "(plan (seats (script) (script)) (matches (from 0 0 0)) (turns 10))" ≡ one kind.Matches 41 }
    ensures many { told "(plan (seats (script) (script)) (matches (from 0 0 4097)) (turns 10))" ≡ one kind.Matches 41 }
    ensures deal { told "(plan (seats (script) (script)) (matches (from 999999999999999998 0 3)) (turns 10))"
        ≡ one kind.Matches 41 }
    ensures largest { told "(plan (seats (script) (script)) (matches (from 999999999999999999 0 1)) (turns 10))"
        ≡ None }
{}

/// All matches together have 262,144 turns at most.
pub fn sizes()
    ensures listed { told "(plan (seats (script) (script)) (matches (0 0) (1 0) (2 0)) (turns 87382))"
        ≡ one kind.TooLarge 0 }
    ensures counted { told "(plan (seats (script) (script)) (matches (from 0 0 3)) (turns 100000))"
        ≡ one kind.TooLarge 0 }
    ensures most { told "(plan (seats (script) (script)) (matches (from 0 0 4)) (turns 65536))" ≡ None }
{}

/// Of several faults the first of the first round is told, and else the first by its kind.
pub fn first_of_several()
    ensures place { told "(plan (seats (random x) (greedy)) (matches (0 0)) (turns 10))" ≡ one kind.Number 21 }
    ensures round { told "(plan (seats (script)) (matches (0 0)) (turns ten))" ≡ one kind.Number 46 }
    ensures seats { told "(plan (seats (script)) (matches (from 0 0 0)) (turns 0))" ≡ one kind.Seats 6 }
    ensures matches { told "(plan (seats (script) (script)) (matches (from 0 0 4097)) (turns 100001))"
        ≡ one kind.Matches 41 }
    ensures turns { told "(plan (seats (script) (script)) (matches (0 0) (1 1) (2 2)) (turns 100001))"
        ≡ one kind.Turns 67 }
{}

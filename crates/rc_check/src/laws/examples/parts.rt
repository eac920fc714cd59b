//! The second round of faults, computed on texts: variables, names, stages, owners, locations, sides and limits. No
//! function here does anything: each has a contract that the check proves by computing.
ghost use Rattle.std.specs.Prelude.{codes, ◌∷◌, []};
ghost use Rattle.rc_check.specs.SecondExamples.{Refused, Accepted, AllFaults, whole, setup, items, item, effect, test, alternative, score};
ghost use Rattle.rc_check.specs.declared.fault.SheetKind.TheVariants.{Shape, Number, Twice, Unknown, WrongKind, TooMany};

/// A variable that is in scope isn't bound again. It is in scope in what follows it in its list, and not in its own
/// domain.
pub fn variables_again()
    ensures each { Refused Twice (effect "(all player 'P ^(all player 'P (cycle reverse)))") }
    ensures filter { Refused Twice
        (effect "(all player 'P (move all ^(filter (game vloc X) 'P (= 0 0)) (top (game vloc X))))") }
    ensures for_all { Refused Twice (test "(any player 'P ^(all player 'P (= 0 0)))") }
    ensures for_any { Refused Twice (test "(all (game vloc X) 'C ^(any player 'C (= 0 0)))") }
    ensures any_of { Refused Twice (alternative "(any player 'P ^(any player 'P (do (cycle reverse))))") }
    ensures far_inside { Refused Twice
        (alternative "(any player 'P (any (game vloc X) 'C (if (= 0 0) ^(all player 'P (cycle reverse)))))") }
    ensures in_domain { Accepted (effect "(all (filter (game vloc X) 'C (= 0 0)) 'C (forget 'C))") }
    ensures beside { Accepted (effect "(all player 'P (cycle next 'P)) (all player 'P (cycle next 'P))") }
    ensures self_bound { Refused Twice (score "(size ^(filter (game vloc X) 'SELF (= 0 0)))") }
    ensures self_elsewhere { Accepted (effect "(all player 'SELF (cycle next 'SELF))") }
    ensures before_fifth { Refused Twice
        (test "(all player 'A (all player 'B (all player 'C (all player 'D ^(all player 'A (= 0 0))))))") }
{}

/// A variable is in scope where it stands.
pub fn unbound_variables()
    ensures card { Refused Unknown (effect "(forget ^'C)") }
    ensures owner { Refused Unknown (effect "(cycle next ^'P)") }
    ensures player { Refused Unknown (effect "(shuffle ((team of ^'P) vloc X))") }
    ensures holder { Refused Unknown (effect "(set (^'P sto N) 0)") }
    ensures cards { Refused Unknown (effect "(move all ^'G (top (game vloc X)))") }
    ensures members { Refused Unknown (effect "(all ^'C 'C (forget 'C))") }
    ensures domain { Refused Unknown (alternative "(any ^'G 'G (do (cycle reverse)))") }
    ensures first_side { Refused Unknown (test "(= ^'C 0)") }
    ensures second_side { Refused Unknown (test "(!= 0 ^'C)") }
    ensures behind { Refused Unknown (effect "(all player 'P (cycle next 'P)) (cycle next ^'P)") }
    ensures own_domain { Refused Unknown (effect "(all (filter (game vloc X) 'C (= ^'D 'C)) 'D (forget 'D))") }
    ensures other_alternative { Refused Unknown
        (alternative "(any player 'P (do (cycle next 'P))) (do (cycle next ^'P))") }
    ensures self_outside { Refused Unknown (effect "(set (^'SELF sto N) 0)") }
    ensures self_scored { Accepted (score "('SELF sto N)") }
    ensures other_scored { Refused Unknown (score "(^'P sto N)") }
{}

/// A place takes variables of its own sort.
pub fn variables_of_other_sorts()
    ensures card { Refused WrongKind (effect "(all player 'P (forget ^'P))") }
    ensures group_as_card { Refused WrongKind (alternative "(any (partition (game vloc X) R) 'G (do (forget ^'G)))") }
    ensures cards { Refused WrongKind (effect "(all (game vloc X) 'C (move all ^'C (top (game vloc X))))") }
    ensures player_as_cards { Refused WrongKind (test "(any player 'P (all ^'P 'C (= 0 0)))") }
    ensures holder { Refused WrongKind (effect "(all (game vloc X) 'C (set (^'C sto N) 0))") }
    ensures player { Refused WrongKind (effect "(all (game vloc X) 'C (shuffle ((team of ^'C) vloc Y)))") }
    ensures owner { Refused WrongKind (effect "(all (game vloc X) 'C (cycle next ^'C))") }
    ensures group_as_side { Refused WrongKind
        (alternative "(any (partition (game vloc X) R) 'G (if (= ^'G 'G) (cycle reverse)))") }
    ensures domain_of_players { Refused WrongKind (alternative "(any player 'P (any ^'P 'Q (do (cycle reverse))))") }
    ensures right { Accepted
        (alternative "(any player 'P (any (partition (game vloc X) R) 'G (any 'G 'C (do (forget 'C) (move all 'G (top ('P vloc Y)))))))") }
    ensures filtered { Accepted (effect "(move all (filter (game vloc X) 'C (is 'C R 1)) (top (game vloc X)))") }
    ensures scored_player { Refused WrongKind (score "(points ^'SELF using W)") }
{}

/// An attribute or a value of an expression stands in a deck or in points, a value with any attribute. A point map is
/// there.
pub fn unknown_names()
    ensures of_card { Refused Unknown (test "(= (attr (top (game vloc X)) ^Q) (attr (top (game vloc X)) R))") }
    ensures is_attribute { Refused Unknown (test "(is (top (game vloc X)) ^Q 1)") }
    ensures is_value { Refused Unknown (test "(is (top (game vloc X)) R ^3)") }
    ensures parted { Refused Unknown (alternative "(any (partition (game vloc X) ^Q) 'G (do (cycle reverse)))") }
    ensures greatest { Refused Unknown (effect "(forget (max (game vloc X) using ^V))") }
    ensures least { Refused Unknown (effect "(forget (min (game vloc X) using ^V))") }
    ensures sum { Refused Unknown (test "(< (sum (game vloc X) using ^V) 0)") }
    ensures points { Refused Unknown (test "(< 0 (points (top (game vloc X)) using ^V))") }
    ensures spaces { Refused Unknown (score "(sum (game vloc X) using ^R)") }
    ensures attribute_of_points { Accepted
        (whole (codes "(put points W ((Q (7) 1))) (create players 2) (create deck (game hloc S) (deck (R (1))))")
        (codes "(do (if (is (top (game vloc X)) Q 1) (shuffle (game vloc X))))") (codes "0")) }
    ensures value_of_points { Accepted
        (whole (codes "(create players 2) (create deck (game hloc S) (deck (R (1)))) (put points W ((Q (7) 1)))")
        (codes "(do (if (is (top (game vloc X)) R 7) (shuffle (game vloc X))))") (codes "0")) }
    ensures inner_names { Accepted
        (whole (codes "(create players 2) (create deck (game hloc S) (deck (R (1 (2 (Q (3)))))))")
        (codes "(do (if (is (top (game vloc X)) Q 2) (shuffle (game vloc X))))") (codes "0")) }
{}

/// The current player is one of a stage of players, its test included, and the current team one of a stage of teams.
pub fn stages_around()
    ensures player { Refused Unknown (items "(do (shuffle (^(current player) vloc X)))") }
    ensures player_in_team_stage { Refused Unknown
        (items "(stage team (end (= 0 0)) (do (shuffle (^(current player) vloc X))))") }
    ensures team_of_player { Refused Unknown (items "(do (shuffle ((team of ^(current player)) vloc X)))") }
    ensures team { Refused Unknown (item "(do (shuffle (^(current team) vloc X)))") }
    ensures test_of_stage { Accepted
        (items "(stage player (end (= ((current player) sto N) 0)) (do (shuffle ((team of (current player)) vloc X))))") }
    ensures test_of_other_stage { Refused Unknown
        (items "(stage team (end (= (^(current player) sto N) 0)) (do (cycle reverse)))") }
    ensures both { Accepted
        (item "(stage team (end (= ((current team) sto N) 0)) (do (shuffle ((current player) vloc X))))") }
    ensures behind { Refused Unknown
        (items "(stage player (end (= 0 0)) (do (cycle reverse))) (do (shuffle (^(current player) vloc X)))") }
    ensures side { Refused Unknown
        (items "(stage player (end (= (current player) ^(current team))) (do (cycle reverse)))") }
    ensures score { Refused Unknown (score "(^(current player) sto N)") }
    ensures choice { Refused Unknown (items "^(choice (do (forget 'C)))") }
    ensures choice_of_teams { Refused Unknown (items "(stage team (end (= 0 0)) ^(choice (do (cycle reverse))))") }
    ensures inner_choice { Accepted (item "(stage team (end (= 0 0)) (choice (do (cycle reverse))))") }
    ensures turn { Refused Unknown (items "(do ^(cycle reverse))") }
    ensures turn_of_teams { Accepted (items "(stage team (end (= 0 0)) (do (cycle reverse)))") }
    ensures next { Refused Unknown (items "(do ^(cycle next (current player)))") }
    ensures next_team { Refused Unknown (effect "^(cycle next (current team))") }
    ensures next_team_of { Refused Unknown (effect "^(cycle next (team of (current player)))") }
    ensures next_player { Refused Unknown (items "(stage team (end (= 0 0)) (do (all player 'P ^(cycle next 'P))))") }
    ensures next_card { Refused Unknown (items "(do (all (game vloc X) 'C ^(cycle next 'C)))") }
    ensures next_unbound { AllFaults (Unknown ∷ Unknown ∷ []) (items "(do (cycle next 'C))") }
    ensures next_right { Accepted
        (items "(stage team (end (= 0 0)) (do (cycle next (current team)) (all player 'P (cycle next (team of 'P)))))") }
{}

/// What the current player knows of a location is asked in a stage of players, its test and the stages of teams in it
/// included. It is asked of a location, of whatever kind.
pub fn known_cards()
    ensures outside { Refused Unknown (items "(do (move all ^(known (game hloc X)) (top (game vloc Y))))") }
    ensures team_stage { Refused Unknown
        (items "(stage team (end (= (size ^(known (game hloc X))) 0)) (do (cycle reverse)))") }
    ensures behind { Refused Unknown
        (items "(stage player (end (= 0 0)) (do (cycle reverse))) (do (forget (top ^(known (game mem X)))))") }
    ensures score { Refused Unknown (score "(size ^(known ('SELF hloc X)))") }
    ensures before_location { AllFaults (Unknown ∷ WrongKind ∷ [])
        (items "(do (shuffle (game hloc X)) (forget (top (known (game vloc X)))))") }
    ensures test_of_stage { Accepted
        (items "(stage player (end (= (size (known (game hloc X))) 0)) (do (forget (top (known (game mem Y))))))") }
    ensures team_in_player { Accepted
        (item "(stage team (end (= (size (known (game hloc X))) 0)) (do (forget (max (known (game iloc Y)) using W))))") }
    ensures domain { Accepted
        (alternative "(any (partition (known (game hloc X)) R) 'G (do (move all 'G (top (game vloc Y)))))") }
    ensures variable { Refused Shape
        (alternative "(any (partition (game vloc X) R) 'G (do (forget (top (known ^'G)))))") }
    ensures cards { Refused Shape (effect "(forget (top (known ^(union (game vloc X) (game vloc Y)))))") }
{}

/// Cards are shown to a player or to a team.
pub fn peeked_cards()
    ensures player { Accepted (effect "(all player 'P (peek (known ('P hloc X)) 'P))") }
    ensures team { Accepted (effect "(peek (union (game hloc X) (game mem Y)) (team of (current player)))") }
    ensures group { Accepted (alternative "(any (partition (game vloc X) R) 'G (do (peek 'G (current player))))") }
    ensures unbound { Refused Unknown (effect "(peek (game hloc X) ^'P)") }
    ensures outside { Refused Unknown (items "(do (peek (game hloc X) ^(current player)))") }
    ensures to_card { Refused WrongKind (effect "(all (game hloc X) 'C (peek (game hloc X) ^'C))") }
    ensures of_card { Refused WrongKind (effect "(all (game hloc X) 'C (peek ^'C (current player)))") }
    ensures to_game { Refused Shape (effect "(peek (game hloc X) ^game)") }
    ensures to_all { Refused Shape (effect "^(peek (game hloc X))") }
{}

/// Two sides whose sorts are known are of one sort.
pub fn sides_of_other_sorts()
    ensures number_and_card { Refused WrongKind (test "(= 0 ^(top (game vloc X)))") }
    ensures card_and_number { Refused WrongKind (test "(!= (top (game vloc X)) ^((current player) sto N))") }
    ensures value_and_card { Refused WrongKind (test "(= (attr (top (game vloc X)) R) ^(bottom (game vloc X)))") }
    ensures player_and_team { Refused WrongKind (test "(= (current player) ^(team of (current player)))") }
    ensures team_and_player { Refused WrongKind (test "(all player 'P (= (team of 'P) ^'P))") }
    ensures variables { Refused WrongKind (test "(all player 'P (all (game vloc X) 'C (= 'P ^'C)))") }
    ensures number_atom { Refused WrongKind (test "(all player 'P (= 'P ^0))") }
    ensures unknown_first { AllFaults (Unknown ∷ []) (test "(= 'P 0)") }
    ensures unknown_second { AllFaults (Unknown ∷ []) (test "(= 0 'P)") }
    ensures group_first { AllFaults (WrongKind ∷ [])
        (alternative "(any (partition (game vloc X) R) 'G (if (= 'G 0) (cycle reverse)))") }
    ensures group_second { AllFaults (WrongKind ∷ [])
        (alternative "(any (partition (game vloc X) R) 'G (if (= 0 'G) (cycle reverse)))") }
    ensures inside_after { AllFaults (WrongKind ∷ Unknown ∷ []) (test "(= 0 (top 'G))") }
    ensures team_outside { AllFaults (Unknown ∷ WrongKind ∷ []) (test "(= (current player) (current team))") }
    ensures one_sort { Accepted
        (test "(and (= 0 (size (game vloc X))) (!= (top (game vloc X)) (max (game vloc X) using W)) (= (current player) (current player)))") }
{}

/// A name has one kind and one class of owner, that of its first mention. A mention counts whatever is wrong with its
/// owner. Locations and numbers have name spaces of their own.
pub fn kinds_and_classes()
    ensures kind { Refused WrongKind (effect "(shuffle (game vloc X)) (shuffle ^(game iloc X))") }
    ensures class { Refused WrongKind (effect "(shuffle (game vloc X)) (shuffle ^((current player) vloc X))") }
    ensures team { Refused WrongKind
        (effect "(shuffle ((current player) vloc X)) (shuffle ^((team of (current player)) vloc X))") }
    ensures as_deck { Refused WrongKind (effect "(shuffle ^(game vloc S))") }
    ensures number_class { Refused WrongKind (effect "(set (game sto N) 0) (set ^((current player) sto N) 0)") }
    ensures spaces { Accepted (effect "(shuffle (game vloc X)) (set ((current player) sto X) 0)") }
    ensures players_alike { Accepted
        (effect "(shuffle ((current player) vloc X)) (all player 'P (shuffle ('P vloc X)))") }
    ensures first_counts { AllFaults (WrongKind ∷ [])
        (effect "(shuffle (game vloc X)) (shuffle (game iloc X)) (shuffle (game vloc X))") }
    ensures unbound_owner_mentions { AllFaults (Unknown ∷ WrongKind ∷ [])
        (effect "(shuffle ('P vloc X)) (shuffle (game vloc X))") }
    ensures before_owner { AllFaults (WrongKind ∷ Unknown ∷ [])
        (effect "(shuffle (game vloc X)) (shuffle ('P vloc X))") }
    ensures over_setup { Refused WrongKind
        (whole (codes "(create players 2) (create deck (game hloc S) (deck (R (1)))) (create deck ^(game iloc S) (deck (R (1))))")
        (codes "(do (shuffle (game iloc S)))") (codes "0")) }
    ensures score { Refused WrongKind (whole setup (codes "(do (set (game sto N) 0))") (codes "^('SELF sto N)")) }
{}

/// Cards are moved to and shuffled in locations of cards, and references are put into locations of references.
pub fn locations_for_cards()
    ensures move_to { Refused WrongKind (effect "(move (top (game vloc X)) (top ^(game mem M)))") }
    ensures move_all { Refused WrongKind (effect "(move all (game vloc X) (bottom ^(game mem M)))") }
    ensures shuffle { Refused WrongKind (effect "(shuffle ^(game mem M))") }
    ensures remember { Refused WrongKind (effect "(remember (top (game vloc X)) (bottom ^(game hloc Y)))") }
    ensures from_references { Accepted (effect "(move (top (game mem M)) (top (game vloc X)))") }
    ensures all_references { Accepted (effect "(move all (game mem M) (top (game vloc X)))") }
    ensures right { Accepted (effect "(remember (top (game vloc X)) (top (game mem M))) (forget (top (game mem M)))") }
    ensures before_owner { AllFaults (WrongKind ∷ Unknown ∷ []) (effect "(shuffle ('P mem M))") }
{}

/// At most two repeats and four binders are around a place. Who is scored isn't counted.
pub fn nested_parts()
    ensures two_repeats { Accepted (effect "(repeat 1 (repeat 1 (cycle reverse)) (repeat 1 (cycle reverse)))") }
    ensures three_repeats { Refused TooMany (effect "(repeat 1 (repeat 1 ^(repeat 1 (cycle reverse))))") }
    ensures repeats_far_inside { Refused TooMany
        (effect "(repeat 1 (if (= 0 0) (all player 'P (repeat 1 (all player 'Q ^(repeat 1 (cycle reverse)))))))") }
    ensures four { Accepted (test "(all player 'A (all player 'B (all player 'C (all player 'D (= 'A 'D)))))") }
    ensures five { Refused TooMany
        (test "(all player 'A (all player 'B (all player 'C (all player 'D ^(any player 'E (= 'A 'D))))))") }
    ensures five_by_filter { Refused TooMany
        (test "(all player 'A (all player 'B (all player 'C (all player 'D (= 0 (size ^(filter (game vloc X) 'E (= 0 0))))))))") }
    ensures in_domain { Accepted
        (test "(all player 'A (all player 'B (all player 'C (all (filter (game vloc X) 'D (= 0 0)) 'E (= 0 0)))))") }
    ensures five_effects { Refused TooMany
        (alternative "(any player 'A (any player 'B (any player 'C (any player 'D (do ^(all player 'E (cycle reverse)))))))") }
    ensures five_alternatives { Refused TooMany
        (alternative "(any player 'A (any player 'B (any player 'C (any player 'D ^(any player 'E (do (cycle reverse)))))))") }
    ensures scored { Accepted
        (score "(size (filter (game vloc X) 'A (all player 'B (all player 'C (all player 'D (= 'SELF 'D))))))") }
    ensures five_scored { Refused TooMany
        (score "(size (filter (game vloc X) 'A (all player 'B (all player 'C (all player 'D ^(all player 'E (= 'SELF 'D)))))))") }
{}

/// Of two faults that at the smaller offset is the form's, and at one offset the earlier kind.
pub fn pairs()
    ensures unknown_then_wrong { Refused Unknown (effect "(forget ^'C) (shuffle (game mem M))") }
    ensures wrong_then_unknown { Refused WrongKind (effect "(shuffle ^(game mem M)) (forget 'C)") }
    ensures list_then_part { Refused Unknown (items "(do ^(cycle next 'C))") }
    ensures twice_then_unknown { AllFaults (Twice ∷ Unknown ∷ [])
        (effect "(all player 'P (all 'G 'P (cycle reverse)))") }
    ensures map_then_attribute { AllFaults (Unknown ∷ Unknown ∷ [])
        (alternative "(any (partition (union (game vloc X) 'G) Q) 'H (do (cycle reverse)))") }
    ensures first_round_behind { Refused Number
        (whole (codes "(create players 2) (create players 2) (create deck (game hloc S) (deck (R (1))))")
        (codes "(do (forget 'C))") (codes "^word")) }
    ensures shape_behind { Refused Shape (effect "(forget 'C) ^(forget)") }
    ensures none { AllFaults [] (effect "(cycle reverse)") }
{}

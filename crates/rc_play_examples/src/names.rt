//! The names of sheets, numbered in the order in which the printed sheet mentions them first. No function here does
//! anything: the check proves each contract by computing it.
ghost use Rattle.std.specs.Prelude.{◌≡◌, [], ◌∷◌};
ghost use Rattle.rc_sheet_spec.specs.Sheet.{hloc, vloc, iloc, mem, game_class, player_class, team_class};
ghost use Rattle.rc_sheet_spec.specs.FormMentions.{names_of};
ghost use Rattle.rc_sheet_spec.specs.Examples.{form_of};
ghost use Rattle.rc_resolve.specs.Naming.{naming_of};
ghost use Rattle.rc_play_examples.specs.Names.{words, loc, num, decks_first, lines_in_order, branches_in_order, words_once, kinds_apart, fixed_words, stages_and_owners, domains_first};

/// The words of each kind are numbered by their first mention. No text that the program writes shows these numbers.
pub fn names_are_numbered_by_their_first_mention()
    ensures decks_first { names_of (form_of decks_first) ≡ record { attrs = words "A B"; values = words "x y"; maps = words "M"; locs = words "S"; nums = []; vars = [] } }
    ensures lines_in_order { names_of (form_of lines_in_order) ≡ record { attrs = words "B A C D"; values = words "y x z w"; maps = words "M L"; locs = words "S R"; nums = []; vars = [] } }
    ensures branches_in_order { names_of (form_of branches_in_order) ≡ record { attrs = words "A B C D"; values = words "x y z w v u t"; maps = []; locs = words "S"; nums = []; vars = [] } }
    ensures words_once { names_of (form_of words_once) ≡ record { attrs = words "A B C"; values = words "x y z w q"; maps = words "M"; locs = words "S"; nums = []; vars = [] } }
    ensures kinds_apart { names_of (form_of kinds_apart) ≡ record { attrs = words "B A"; values = words "A B"; maps = words "A"; locs = words "A"; nums = words "A"; vars = [] } }
    ensures fixed_words { names_of (form_of fixed_words) ≡ record { attrs = words "deck game"; values = words "deck setup"; maps = words "points"; locs = words "deck"; nums = []; vars = [] } }
    ensures stages_and_owners { names_of (form_of stages_and_owners) ≡ record { attrs = words "A"; values = words "x"; maps = []; locs = words "S B A C D E"; nums = words "M O N"; vars = words "'P" } }
    ensures domains_first { names_of (form_of domains_first) ≡ record { attrs = words "A"; values = words "x"; maps = words "L"; locs = words "S T R"; nums = words "N M"; vars = words "'A 'B 'D 'E" } }
{}

/// The first mention of a location says its kind and its owner, and that of a number its owner.
pub fn first_mentions_tell_owners()
    ensures locations { (naming_of (form_of stages_and_owners)).locs
        ≡ loc 0 hloc game_class ∷ loc 1 vloc game_class ∷ loc 2 vloc game_class ∷ loc 3 iloc player_class
        ∷ loc 4 hloc team_class ∷ loc 5 mem game_class ∷ [] }
    ensures numbers { (naming_of (form_of stages_and_owners)).nums
        ≡ num 0 player_class ∷ num 1 game_class ∷ num 2 team_class ∷ [] }
{}

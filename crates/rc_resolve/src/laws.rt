//! Laws about namings. No function here does anything.
ghost use Rattle.std.specs.Prelude.{◌≡◌, length, map};
ghost use Rattle.rc_base.specs.Tree.{Tree};
ghost use Rattle.rc_base.specs.Numbers.{below};
ghost use Rattle.rc_sheet_spec.specs.FormMentions.{names_of, loc_mentions, num_mentions};
ghost use Rattle.rc_resolve.specs.Mentions.{all_locations, all_numbers};
ghost use Rattle.rc_resolve.specs.Naming.{firsts, naming_of};

/// What a naming says of locations and stored numbers stands in the order of their names: the mentions are those of the
/// words that a form mentions, the first of each word are those of its names, and they are numbered one by one.
pub fn names_are_in_order()
    ensures locations { (form : Tree) → map (λ mention. mention.name) (all_locations form) ≡ loc_mentions form }
    ensures numbers { (form : Tree) → map (λ mention. mention.name) (all_numbers form) ≡ num_mentions form }
    ensures locs { (form : Tree) → map (λ mention. mention.name) (firsts (all_locations form)) ≡ (names_of form).locs }
    ensures nums { (form : Tree) → map (λ mention. mention.name) (firsts (all_numbers form)) ≡ (names_of form).nums }
    ensures loc_numbers { (form : Tree)
        → map (λ loc. loc.name) (naming_of form).locs ≡ below (length (names_of form).locs) }
    ensures num_numbers { (form : Tree)
        → map (λ num. num.name) (naming_of form).nums ≡ below (length (names_of form).nums) }
{}

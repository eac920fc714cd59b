//! Laws about the definitions of sheets. No function here does anything.
ghost use Rattle.std.specs.Prelude.{◌≡◌, ◌≢◌, ℕ, List, [], length, map, slice_index_or, AllPairs};
ghost use Rattle.rc_base.specs.Words.{different};
ghost use Rattle.rc_sheet_spec.specs.Numbering.{Extends};

/// Names that differ and are numbered one by one are numbered by their first mention.
pub fn names_numbered_one_by_one()
    ensures { (words : List (List ℕ)) (numbers : List ℕ) → AllPairs ◌≢◌ words → Extends 0 numbers (length words)
        → words ≡ different (map (λ n. slice_index_or words n []) numbers) }
{}

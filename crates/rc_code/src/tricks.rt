//! The trick game's tests.
ghost use Rattle.std.specs.Prelude.{◌≡◌, ℕ, true};
ghost use Rattle.rc_sheet_spec.specs.Sheet.{Effects};
ghost use Rattle.rc_code.specs.Flatness.{has_flat_form};
ghost use Rattle.rc_code.specs.GuardParts.{has_guard};
ghost use Rattle.rc_code.specs.Tricks.{hands_are_empty, all_have_played, nobody_has_led, is_best_so_far, may_be_played, plays_a_card};

/// The ends of both stages of the trick game, and the tests of its effects, have a flat form, and its choice has a
/// guard in parts. The function does nothing: its contract is proved by computing.
pub fn trick_tests_have_flat_forms()
    ensures game { (at : ℕ) → has_flat_form (hands_are_empty at) ≡ true }
    ensures trick { (at : ℕ) → has_flat_form (all_have_played at) ≡ true }
    ensures lead { (at : ℕ) → has_flat_form (nobody_has_led at) ≡ true }
    ensures best { (at led again : ℕ) → has_flat_form (is_best_so_far at led again) ≡ true }
    ensures choice { (hand led at mine other : ℕ) (effects : Effects)
        → has_guard (plays_a_card hand (may_be_played led at mine other) effects) ≡ true }
{}

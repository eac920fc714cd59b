//! The definitions of calls over memory, computed at their limits, which no run reaches. No function here does
//! anything: each has a contract that the check proves by computing.
ghost use Rattle.std.specs.Prelude.{◌≡◌, ◌-◌, ◌^◌, [], ◌∷◌, codes};
ghost use Rattle.rc_outside.specs.Faults.{Rose, next_count};
ghost use Rattle.rc_outside.specs.Calls.{no_call, IsToFail, after_success, after_failure};
ghost use Rattle.rc_outside.specs.Supply.{given_count};
ghost use Rattle.rc_outside.specs.Store.{Refuses, taken_count};

/// A count rises by one, and stands still at the largest.
pub fn counts()
    ensures first { next_count 0 ≡ 1 }
    ensures last { next_count (2 ^ 64 - 2) ≡ 2 ^ 64 - 1 }
    ensures stays { next_count (2 ^ 64 - 1) ≡ 2 ^ 64 - 1 }
    ensures rose { Rose 3 4 }
    ensures same { Rose 3 3 → ⊥ }
    ensures fell { Rose 4 3 → ⊥ }
    ensures at_largest { Rose (2 ^ 64 - 1) (2 ^ 64 - 1) }
    ensures below_largest { Rose (2 ^ 64 - 2) (2 ^ 64 - 2) → ⊥ }
{}

/// Each call takes a number, one that fails counts besides.
pub fn numbered_calls()
    ensures success { after_success (no_call (1 ∷ [])) ≡ record { next = 1; fails = 1 ∷ []; faults = 0 } }
    ensures failure { after_failure (no_call (0 ∷ [])) ≡ record { next = 1; fails = 0 ∷ []; faults = 1 } }
    ensures second_fails { IsToFail (after_success (no_call (1 ∷ []))) }
    ensures first_fails_not { IsToFail (no_call (1 ∷ [])) → ⊥ }
{}

/// A read gives, and a write takes, the least of what is asked, the chunk and what is left.
pub fn least_counts()
    ensures read_chunk { given_count (record { left = codes "abcd"; chunk = 3; calls = no_call [] }) 4 ≡ 3 }
    ensures read_buffer { given_count (record { left = codes "abcd"; chunk = 3; calls = no_call [] }) 2 ≡ 2 }
    ensures read_rest { given_count (record { left = codes "ab"; chunk = 3; calls = no_call [] }) 4 ≡ 2 }
    ensures write_chunk { taken_count (record { written = codes "ab"; room = 9; chunk = 3; calls = no_call [] }) 5 ≡ 3 }
    ensures write_piece { taken_count (record { written = codes "ab"; room = 9; chunk = 3; calls = no_call [] }) 1 ≡ 1 }
    ensures write_room { taken_count (record { written = codes "ab"; room = 4; chunk = 3; calls = no_call [] }) 5 ≡ 2 }
    ensures full { Refuses (record { written = codes "ab"; room = 2; chunk = 3; calls = no_call [] }) }
    ensures not_full { Refuses (record { written = codes "ab"; room = 3; chunk = 3; calls = no_call [] }) → ⊥ }
{}

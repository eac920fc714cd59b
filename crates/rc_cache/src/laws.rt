//! Laws of replays and of what they hit. No function here does anything: a crate above gets a law by calling its
//! function.
ghost use Rattle.rc_cache.specs.Laws.{SameKeysAreEqual, NoKeyTwice, ReplayFits, NoHitUnkept, SomeLookMisses, DifferentKeys, MissesEachOnce, OneWorkerHits, OneWorkerLacks};

/// Of one about, the keys that are told to be the same are equal, and no others.
pub fn same_keys_are_equal()
    ensures { SameKeysAreEqual }
{}

/// No key stands twice in a replay, whatever the calls are.
pub fn no_key_is_twice_in_a_replay()
    ensures { NoKeyTwice }
{}

/// The replay of legal calls has at most as many keys as there is room for.
pub fn a_legal_replay_is_within_its_room()
    ensures { ReplayFits }
{}

/// In a legal journal without a keep there is no hit.
pub fn without_a_keep_none_hits()
    ensures { NoHitUnkept }
{}

/// In a legal journal in which each look hits or is followed by a keep, a look misses, if there is one.
pub fn some_look_misses()
    ensures { SomeLookMisses }
{}

/// How many different keys are told of looks is how long each list is that has exactly their keys, and none twice.
pub fn the_different_are_each_key_once()
    ensures { DifferentKeys }
{}

/// The looks that miss are at least as many as the different keys.
pub fn misses_are_at_least_the_different()
    ensures { MissesEachOnce }
{}

/// Where one worker alone asks keys of a new book, the hits and the steps are those of these looks.
pub fn one_worker_has_the_hits_of_its_looks()
    ensures { OneWorkerHits }
{}

/// Where one worker alone asks keys of a new book until memory runs out, the steps are no more than those of these
/// looks.
pub fn one_worker_lacking_memory_takes_no_more_steps()
    ensures { OneWorkerLacks }
{}

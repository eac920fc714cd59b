//! Laws of tables. No function here does anything: a crate above gets a law by calling its function.
ghost use Rattle.rc_play_spec.specs.TableLaws.{SumWithList, PutKeepsCards, PutKeepsSound, RememberKeepsSound, ForgetKeepsSound, NumberKeepsSound, ReorderKeepsSound, MarksKeepSound, ClearedKeepsSound, MarkedAreUnseen};
ghost use Rattle.rc_play_spec.specs.TableLaws.{OrdersPermuteLists};

/// Where a card is put somewhere else, each card stands as often as before.
pub fn moves_keep_cards()
    ensures lists { SumWithList }
    ensures put { PutKeepsCards }
{}

/// Each edit keeps a table sound.
pub fn edits_keep_tables_sound()
    ensures put { PutKeepsSound }
    ensures remembered { RememberKeepsSound }
    ensures forgotten { ForgetKeepsSound }
    ensures number { NumberKeepsSound }
    ensures reordered { ReorderKeepsSound }
    ensures marked { MarksKeepSound }
    ensures cleared { ClearedKeepsSound }
    ensures unseen { MarkedAreUnseen }
{}

/// A list in an order of its places is a permutation of it.
pub fn orders_permute_lists()
    ensures { OrdersPermuteLists }
{}

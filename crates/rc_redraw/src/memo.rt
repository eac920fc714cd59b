//! What remembers totals.
ghost use Rattle.std.specs.Prelude.{◌≡◌, ℕ, Option, IfOk, OnOk, OnErr};
ghost use Rattle.rc_play_spec.specs.About.{About as PureAbout};
ghost use Rattle.rc_play_spec.specs.Tally.{tally as tally_of};
ghost use Rattle.rc_redraw.specs.Asking.{key_seen};
ghost use Rattle.rc_redraw.specs.Counts.{Counts, Serves, looked_up, kept_once};
ghost use Rattle.rc_redraw.specs.Reply.{IfHit, is_hit};

use crate::asking::Key;
use crate::entry::Entry;
use crate::tally::Tally;
use rc_deck::Memory;
use std::alloc::Global;

/// What a memo answers to a key.
#[derive(Debug, Drop)]
pub enum Reply {
    /// The totals of the key.
    Hit(Tally),
    /// The memo doesn't give them.
    Miss,
}

/// Remembers totals, or not. It serves one about, or every one, and counts what it was asked. It has a name, which no
/// call changes, so that it is known again among others. A refusal for want of memory leaves it as it was.
pub trait Memo {
    ghost serves: { Self → Option PureAbout };

    ghost counts: { Self → Counts };

    ghost name: { Self → ℕ };

    /// The totals of a key, if the memo has them.
    fn look(&mut self, alloc: Global, key: &Key) -> Result<Reply, Memory>
        requires served { Serves (serves self.old) (key_seen key.now).about }
        ensures hit { IfOk result (λ reply. IfHit reply
            (λ totals. totals ≡ tally_of (key_seen key.now).about (key_seen key.now).ask)) }
        ensures counted { IfOk result
            (λ reply. counts self.new ≡ looked_up (key_seen key.now) (is_hit reply) (counts self.old)) }
        ensures lacking { OnErr result (self.new ≡ self.old) }
        ensures same { serves self.new ≡ serves self.old }
        ensures named { name self.new ≡ name self.old };

    /// Takes totals to remember.
    fn keep(&mut self, alloc: Global, entry: Entry) -> Result<(), Memory>
        requires served { Serves (serves self.old) entry.about }
        ensures counted { OnOk result (counts self.new ≡ kept_once entry (counts self.old)) }
        ensures lacking { OnErr result (self.new ≡ self.old) }
        ensures same { serves self.new ≡ serves self.old }
        ensures named { name self.new ≡ name self.old };
}

//! Keys with their totals.
ghost use Rattle.std.specs.Prelude.{◌≡◌};
ghost use Rattle.rc_play_spec.specs.Tally.{tally as tally_of};
ghost use Rattle.rc_redraw.specs.Asking.{key_seen};

use crate::asking::Key;
use crate::tally::Tally;
use std::marker::Model;

/// A key and its totals. Contracts see the key, since the totals are always those of the key.
pub struct Entry {
    key: Key,
    tally: Tally,
}

// A derived drop is proved again in each crate that may drop an entry, and this one once.
impl Drop for Entry {
    fn drop(self) {
        let Entry {
            key: _key,
            tally: _tally,
        } = self;
    }
}

impl Model for Entry {
    ghost use Rattle.std.specs.Coded.{codes};
    ghost use Rattle.rc_flow.specs.Codes.{sheet_codes};
    ghost use Rattle.rc_redraw.specs.Asking.{Key as PureKey};

    ghost Value = { PureKey };

    ghost coded = { Prim.hlevel (sheet_codes, codes) };

    ghost use Rattle.rc_redraw.specs.Entry.{entry_seen, IsTrue};

    ghost view = { entry_seen };

    ghost invariant = { IsTrue };
}

impl Entry {
    /// An entry of a key with its totals.
    pub fn new(key: Key, tally: Tally) -> Entry
        requires { tally.totals.items ≡ tally_of (key_seen key).about (key_seen key).ask }
        ensures { result ≡ key_seen key }
    {
        Entry { key, tally }
    }

    /// The key.
    pub fn key(&self) -> &Key
        ensures { key_seen result.now ≡ self.now }
    {
        &self.key
    }

    /// Its totals.
    pub fn tally(&self) -> &Tally
        ensures { result.now.totals.items ≡ tally_of self.now.about self.now.ask }
    {
        &self.tally
    }
}

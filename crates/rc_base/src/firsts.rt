//! The first entry of each key, in the order in which they came.
ghost use Rattle.std.specs.Prelude.{◌≡◌, [], length, map, OnOk, OnErr};
ghost use Rattle.rc_base.specs.Firsts.{has_key, with_first};

use std::alloc::{AllocError, Global};
use std::collections::BTreeSet;
use std::marker::Model;

/// The first entry of each key, in the order in which they came. Contracts see the list of them.
///
/// A look-up takes time logarithmic in their number. A table of hashes would be quicker where keys are many, but
/// whoever chooses the keys of a text can have them all hash alike.
pub struct Firsts<K: Ord, V> {
    entries: Vec<(K, V)>,
    keys: BTreeSet<K>,
}

impl<K: Ord + Drop, V: Drop> Drop for Firsts<K, V> {
    // a derived drop is proved again wherever entries are dropped, and this one once
    fn drop(self) {
        let Firsts {
            entries: _entries,
            keys: _keys,
        } = self;
    }
}

impl<K: Ord, V> Model for Firsts<K, V> {
    ghost use Rattle.std.specs.Prelude.{List};

    ghost Value = { List (K × V) };

    ghost use Rattle.rc_base.specs.Firsts.{HasKeys};

    ghost view = { λ firsts. firsts.entries.items };

    ghost invariant = { λ firsts. HasKeys K.eq K.cmp firsts.keys firsts.entries.items };
}

impl<K: Ord + Copy, V: Copy> Firsts<K, V> {
    /// No entries. It takes no memory.
    pub fn new(alloc: Global) -> Firsts<K, V>
        ensures { result ≡ [] }
    {
        Firsts {
            entries: Vec::new(alloc),
            keys: BTreeSet::new(alloc),
        }
    }

    /// How many there are.
    pub fn len(&self) -> usize
        ensures { result ≡ length self.now }
    {
        self.entries.len()
    }

    /// The entries, in the order in which they came.
    pub fn entries(&self) -> &[(K, V)]
        ensures { result.now ≡ self.now }
    {
        &self.entries
    }

    /// Whether a key has an entry.
    pub fn contains(&self, key: K) -> bool
        ensures { result ≡ has_key K.eq key self.now }
    {
        self.keys.contains(&key)
    }

    /// Adds an entry, where it is the first of its key.
    pub fn insert(&mut self, key: K, value: V) -> Result<(), AllocError>
        ensures after { OnOk result (self.new ≡ with_first K.eq self.old key value) }
        ensures unchanged { OnErr result (self.new ≡ self.old) }
    {
        self.entries.reserve(1)?;
        if self.keys.insert(key)? {
            self.entries.push((key, value))?;
        }
        Ok(())
    }
}

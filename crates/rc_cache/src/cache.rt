//! What is done to the cache.
ghost use Rattle.std.specs.Prelude.{◌≡◌, map, IfOk, OnOk, OnErr};
ghost use Rattle.std.specs.List.{AllByRecursion};
ghost use Rattle.rc_play_spec.specs.About.{About};
ghost use Rattle.rc_play_spec.specs.Tally.{tally as tally_of};
ghost use Rattle.rc_redraw.specs.Counts.{looked, kept};
ghost use Rattle.rc_redraw.specs.Reply.{IfHit, is_hit};
ghost use Rattle.rc_cache.specs.Replay.{is_among, after};
ghost use Rattle.rc_cache.specs.Kept.{IsOwn, key_by, key_in};

use crate::mark::HashedAsk;
use lru::LruCache;
use rc_deck::Memory;
use rc_redraw::{Entry, Reply};
use std::alloc::Global;

/// The entries of a book, each under the mark of its ask.
pub(crate) type Cache = LruCache<HashedAsk, Entry>;

/// What is known of an ask. Memory may run out.
pub(crate) fn find(alloc: Global, cache: &Cache, mark: &HashedAsk) -> Result<Reply, Memory>
    ensures hit { IfOk result (λ reply. (about : About)
        → is_hit reply ≡ is_among (key_by about mark.now) (map (key_in about) cache.now.entries)) }
    ensures totals { IfOk result (λ reply. (about : About) → AllByRecursion (IsOwn about) cache.now.entries
        → IfHit reply (λ totals. totals ≡ tally_of about mark.now)) }
{
    match cache.peek(mark) {
        Some(entry) => match entry.tally().copy(alloc) {
            Ok(tally) => Ok(Reply::Hit(tally)),
            Err(Memory) => Err(Memory),
        },
        None => Ok(Reply::Miss),
    }
}

/// Brings an ask to the front where it is there, and else changes nothing.
pub(crate) fn bring(cache: &mut Cache, mark: &HashedAsk)
    ensures keys { (about : About) → map (key_in about) cache.new.entries
        ≡ after cache.old.cap (map (key_in about) cache.old.entries)
        (looked (key_by about mark.now) (is_among (key_by about mark.now) (map (key_in about) cache.old.entries))) }
    ensures own { (about : About) → AllByRecursion (IsOwn about) cache.old.entries
        → AllByRecursion (IsOwn about) cache.new.entries }
    ensures capacity { cache.new.cap ≡ cache.old.cap }
{
    cache.promote(mark);
}

/// Puts an entry in front, in the place of one of the same ask, and drops the last one where there is no room. Memory
/// may run out.
pub(crate) fn put(cache: &mut Cache, mark: HashedAsk, entry: Entry) -> Result<(), Memory>
    ensures keys { OnOk result ((about : About) → map (key_in about) cache.new.entries
        ≡ after cache.old.cap (map (key_in about) cache.old.entries) (kept (key_by about mark))) }
    ensures own { OnOk result ((about : About) → AllByRecursion (IsOwn about) cache.old.entries
        → IsOwn about (mark, entry)
        → AllByRecursion (IsOwn about) cache.new.entries) }
    ensures capacity { cache.new.cap ≡ cache.old.cap }
    ensures lacking { OnErr result (cache.new ≡ cache.old) }
{
    // so that the keys are known: there are no more entries than the capacity, which is 1 at least
    let _entries = cache.len();
    match cache.put(mark, entry) {
        Ok(_) => Ok(()),
        Err(_) => Err(Memory),
    }
}

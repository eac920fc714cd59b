//! The book.
ghost use Rattle.std.specs.Prelude.{◌≡◌, ◌+◌, ◌^◌, ◌<◌, ◌≤◌, [], map, true, IfOk, OnOk, OnErr};
ghost use Rattle.std.specs.List.{AllByRecursion};
ghost use Rattle.rc_base.specs.Limits.{most_entries, most_workers};
ghost use Rattle.rc_play_spec.specs.Tally.{tally as tally_of};
ghost use Rattle.rc_redraw.specs.Asking.{key_seen};
ghost use Rattle.rc_redraw.specs.Counts.{looked, kept};
ghost use Rattle.rc_redraw.specs.Reply.{IfHit, is_hit as is_hit_of};
ghost use Rattle.rc_cache.specs.Replay.{is_among, is_legal};
ghost use Rattle.rc_cache.specs.Sums.{counted, idle_lanes, looks_of, hits_of, keeps_of};
ghost use Rattle.rc_cache.specs.Book.{calls_of, keys_in, lane_call_seen, with_lane_call};
ghost use Rattle.rc_cache.specs.Kept.{about_in};
ghost use Rattle.rc_cache.specs.Fresh.{HasNames, HasParts};

use crate::cache::{Cache, bring, find, put};
use crate::calls::{Call, copy_key, is_hit, write};
use crate::lanes::{Lane, Sums};
use crate::mark::HashedAsk;
use crate::naming::{BookNaming, Fresh, HitsOf, KeepsOf, LooksOf};
use lru::LruCache;
use rc_deck::Memory;
use rc_redraw::{Entry, Key, Reply};
use rc_rules::About;
use std::alloc::Global;
use std::marker::Model;
use std::num::NonZeroUsize;
use std::sync::ledger::Share;

/// Entries that were found before, as many as there is room for, and the journal of all calls. It serves one about,
/// which its name shows, as it shows how many entries there may be. Contracts see the journal, of which the entries are
/// the replay.
#[derive(Drop)]
pub struct Book<N: BookNaming> {
    cache: Cache,
    journal: Vec<Call>,
    sums: Sums<N>,
}

impl<N: BookNaming> Model for Book<N> {
    ghost use Rattle.std.specs.Prelude.{◌≤◌, List, map};
    ghost use Rattle.std.specs.Coded.{codes};
    ghost use Rattle.rc_flow.specs.Codes.{sheet_codes};
    ghost use Rattle.rc_cache.specs.Book.{LaneCall, lane_call_seen};
    ghost use Rattle.rc_cache.specs.Kept.{IsKept};

    ghost Value = { List LaneCall };

    ghost coded = { Prim.hlevel (sheet_codes, codes) };

    ghost view = { λ b. map lane_call_seen b.journal.items };

    ghost invariant = { λ b. (1 ≤ N.lanes)
        × IsKept N.about N.capacity b.cache
        (map lane_call_seen b.journal.items) b.sums.looks.total b.sums.hits.total b.sums.keeps.total };
}

impl<N: BookNaming> Book<N> {
    /// An empty book that serves an about, and its lanes, by a name that no book has yet. The capacity is 1 to 65,536,
    /// and there are 1 to 64 lanes. Memory may run out.
    pub fn new(
        alloc: Global,
        fresh: Fresh,
        about: &About,
        capacity: u32,
        lanes: u8,
    ) -> Result<(Book<N>, Vec<Lane<N>>), Memory>
        requires about { about.now ≡ N.about }
        requires capacity { (1 ≤ capacity) × (capacity ≤ most_entries) × (capacity ≡ N.capacity) }
        requires lanes { (1 ≤ lanes) × (lanes ≤ most_workers) × (lanes ≡ N.lanes) }
        requires names { HasNames fresh N.looks N.hits N.keeps }
        requires parts { HasParts fresh N.lanes }
        ensures book { IfOk result (λ made. made.0 ≡ []) }
        ensures lanes { IfOk result (λ made. made.1.items ≡ idle_lanes lanes) }
    {
        // only the contract speaks of it
        let _about = about;
        let Fresh { looks, hits, keeps } = fresh;
        let (looks, looked) = looks.open::<LooksOf<N>>();
        let (hits, hit) = hits.open::<HitsOf<N>>();
        let (keeps, kept) = keeps.open::<KeepsOf<N>>();
        let sums = Sums { looks, hits, keeps };
        match empty(alloc, capacity, sums) {
            Ok(book) => match lanes_of(alloc, lanes, looked, hit, kept) {
                Ok(lanes) => Ok((book, lanes)),
                Err(Memory) => Err(Memory),
            },
            Err(Memory) => Err(Memory),
        }
    }

    /// Looks an ask up, and brings it to the front where it is there. Where memory runs out, the book, its journal and
    /// the lane are as before.
    pub fn look(&mut self, alloc: Global, lane: &mut Lane<N>, key: &Key) -> Result<Reply, Memory>
        requires served { (key_seen key.now).about ≡ N.about }

        // It hits exactly where the calls before leave the key in the book.
        ensures hit { IfOk result (λ reply. is_hit_of reply
            ≡ is_among (key_seen key.now) (keys_in N.capacity self.old)) }

        // Totals that are found are those that its playouts come to.
        ensures totals { IfOk result
            (λ reply. IfHit reply (λ totals. totals ≡ tally_of (key_seen key.now).about (key_seen key.now).ask)) }

        // The journal has one line more, with the lane's number and whether it hit, and the lane counts the same.
        ensures journal { IfOk result
            (λ reply. self.new
            ≡ with_lane_call self.old lane.old.number (looked (key_seen key.now) (is_hit_of reply))) }
        ensures lane { IfOk result (λ reply. lane.new
            ≡ counted lane.old (looked (key_seen key.now) (is_hit_of reply))) }
        ensures lacking { OnErr result ((self.new ≡ self.old) × (lane.new ≡ lane.old)) }
    {
        let known = copy_key(key)?;
        let mark = HashedAsk::of(key)?;
        let reply = find(alloc, &self.cache, &mark)?;
        self.journal.reserve(1)?;
        let hit = is_hit(&reply);
        bring(&mut self.cache, &mark);
        let call = Call::Looked {
            lane: lane.number,
            key: known,
            hit,
        };
        let made = write(&mut self.journal, call);
        self.sums.look(lane, hit, made);
        Ok(reply)
    }

    /// Puts an entry in front, in the place of one of the same ask, and drops the last one of a full book. Where memory
    /// runs out, the book, its journal and the lane are as before.
    pub fn keep(&mut self, lane: &mut Lane<N>, entry: Entry) -> Result<(), Memory>
        requires served { entry.about ≡ N.about }

        // The journal has one line more, with the lane's number, and the lane counts the same.
        ensures journal { OnOk result (self.new ≡ with_lane_call self.old lane.old.number (kept entry)) }
        ensures lane { OnOk result (lane.new ≡ counted lane.old (kept entry)) }
        ensures lacking { OnErr result ((self.new ≡ self.old) × (lane.new ≡ lane.old)) }
    {
        let known = copy_key(entry.key())?;
        let mark = HashedAsk::of(entry.key())?;
        self.journal.reserve(1)?;
        put(&mut self.cache, mark, entry)?;
        let call = Call::Kept {
            lane: lane.number,
            key: known,
        };
        let made = write(&mut self.journal, call);
        self.sums.keep(lane, made);
        Ok(())
    }

    /// The calls so far. Each look says what is so, and each key is of the about that the book serves.
    pub fn journal(&self) -> &[Call]
        ensures calls { map lane_call_seen result.now ≡ self.now }

        // Each look hit exactly where its key was in the book then.
        ensures legal { is_legal N.capacity (calls_of self.now) ≡ true }
        ensures served { AllByRecursion (λ line. about_in line.call ≡ N.about) self.now }
    {
        self.journal.as_slice()
    }

    // How many entries there are at most.
    pub(crate) fn capacity(&self) -> usize
        ensures { result ≡ N.capacity }
    {
        self.cache.cap().get()
    }

    // The sums over all lanes, which are those of the journal, in which each number fits.
    pub(crate) fn sums(self) -> Sums<N>
        ensures looks { result.looks.total ≡ looks_of (calls_of self) }
        ensures hits { result.hits.total ≡ hits_of (calls_of self) }
        ensures keeps { result.keeps.total ≡ keeps_of (calls_of self) }
        ensures fits { (result.looks.total < 2 ^ 64) × (result.hits.total < 2 ^ 64) × (result.keeps.total < 2 ^ 64) }
        ensures legal { is_legal N.capacity (calls_of self) ≡ true }
        ensures lanes { 1 ≤ N.lanes }
    {
        let Book {
            cache: _,
            journal,
            sums,
        } = self;
        // so that the sums fit: a journal has fewer than 2^64 calls
        let _calls = journal.len();
        sums
    }
}

// An empty book.
fn empty<N: BookNaming>(alloc: Global, capacity: u32, sums: Sums<N>) -> Result<Book<N>, Memory>
    requires capacity { (1 ≤ capacity) × (capacity ≡ N.capacity) }
    requires lanes { 1 ≤ N.lanes }
    requires none { (sums.looks.total ≡ 0) × (sums.hits.total ≡ 0) × (sums.keeps.total ≡ 0) }
    ensures { IfOk result (λ book. book ≡ []) }
{
    let size = NonZeroUsize::new(capacity as usize).unwrap();
    match LruCache::new(alloc, size) {
        Ok(cache) => Ok(Book {
            cache,
            journal: Vec::new(alloc),
            sums,
        }),
        Err(_) => Err(Memory),
    }
}

// The lanes of a book, so many, each with a part of the shares.
#[tactic(auto, using(crate::proofs::LaneLemmas::idle_more))]
fn lanes_of<N: BookNaming>(
    alloc: Global,
    count: u8,
    looked: Share<LooksOf<N>>,
    hit: Share<HitsOf<N>>,
    kept: Share<KeepsOf<N>>,
) -> Result<Vec<Lane<N>>, Memory>
    requires parts { (looked.parts ≡ count) × (hit.parts ≡ count) × (kept.parts ≡ count) }
    requires none { (looked.amount ≡ 0) × (hit.amount ≡ 0) × (kept.amount ≡ 0) }
    ensures { IfOk result (λ lanes. lanes.items ≡ idle_lanes count) }
{
    let (mut looked, mut hit, mut kept) = (looked, hit, kept);
    let mut lanes = Vec::with_capacity(alloc, count as usize)?;
    for number in 0..count {
        let lane = Lane {
            number,
            looks: 0,
            hits: 0,
            keeps: 0,
            looked: looked.split_off(1, 0),
            hit: hit.split_off(1, 0),
            kept: kept.split_off(1, 0),
        };
        lanes.push(lane)?;
    }
    Ok(lanes)
}

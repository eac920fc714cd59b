//! Lanes, and the sums over them.
ghost use Rattle.std.specs.Prelude.{◌≡◌, ◌+◌, ◌^◌, ◌<◌};
ghost use Rattle.rc_redraw.specs.Counts.{one_if};

use crate::naming::{BookNaming, HitsOf, KeepsOf, LooksOf};
use std::marker::Model;
use std::sync::ledger;
use std::sync::ledger::Share;

/// Who calls a book, with the numbers of its calls. Only `Book::new` makes lanes.
#[derive(Drop)]
pub struct Lane<N: BookNaming> {
    pub(crate) number: u8,
    pub(crate) looks: u64,
    pub(crate) hits: u64,
    pub(crate) keeps: u64,
    pub(crate) looked: Share<LooksOf<N>>,
    pub(crate) hit: Share<HitsOf<N>>,
    pub(crate) kept: Share<KeepsOf<N>>,
}

impl<N: BookNaming> Model for Lane<N> {
    ghost use Rattle.std.specs.Prelude.{◌≡◌};
    ghost use Rattle.rc_cache.specs.Sums.{Lane as PureLane};

    ghost Value = { PureLane };

    ghost view = { λ l. record { number = l.number; looks = l.looks; hits = l.hits; keeps = l.keeps } };

    ghost invariant = { λ l. (l.looked.parts ≡ 1) × (l.hit.parts ≡ 1) × (l.kept.parts ≡ 1)
        × (l.looked.amount ≡ l.looks) × (l.hit.amount ≡ l.hits) × (l.kept.amount ≡ l.keeps) };
}

impl<N: BookNaming> Lane<N> {
    /// Its number.
    pub fn number(&self) -> u8
        ensures { result ≡ self.now.number }
    {
        self.number
    }

    /// How many looks it made.
    pub fn looks(&self) -> u64
        ensures { result ≡ self.now.looks }
    {
        self.looks
    }

    /// How many of them hit.
    pub fn hits(&self) -> u64
        ensures { result ≡ self.now.hits }
    {
        self.hits
    }

    /// How many entries it gave to keep.
    pub fn keeps(&self) -> u64
        ensures { result ≡ self.now.keeps }
    {
        self.keeps
    }
}

/// The sums over all lanes, in contracts alone.
#[derive(Drop)]
pub(crate) struct Sums<N: BookNaming> {
    pub(crate) looks: ledger::Book<LooksOf<N>>,
    pub(crate) hits: ledger::Book<HitsOf<N>>,
    pub(crate) keeps: ledger::Book<KeepsOf<N>>,
}

impl<N: BookNaming> Sums<N> {
    /// Counts a look, which is call number `made` of the book, so that it fits.
    pub(crate) fn look(&mut self, lane: &mut Lane<N>, hit: bool, made: usize)
        requires looks { self.old.looks.total < made }
        requires hits { self.old.hits.total < made }
        ensures looks { self.new.looks.total ≡ self.old.looks.total + 1 }
        ensures hits { self.new.hits.total ≡ self.old.hits.total + one_if hit }
        ensures keeps { self.new.keeps.total ≡ self.old.keeps.total }
        ensures lane { lane.new ≡ record {
          number = lane.old.number;
          looks = lane.old.looks + 1;
          hits = lane.old.hits
              + one_if hit;
          keeps = lane.old.keeps;
        } }
    {
        // only the contract speaks of it
        let _made = made;
        self.looks.audit(&mut lane.looked);
        self.looks.add(&mut lane.looked, 1);
        lane.looks += 1;
        if hit {
            self.hits.audit(&mut lane.hit);
            self.hits.add(&mut lane.hit, 1);
            lane.hits += 1;
        }
    }

    /// Counts a keep.
    pub(crate) fn keep(&mut self, lane: &mut Lane<N>, made: usize)
        requires { self.old.keeps.total < made }
        ensures looks { self.new.looks.total ≡ self.old.looks.total }
        ensures hits { self.new.hits.total ≡ self.old.hits.total }
        ensures keeps { self.new.keeps.total ≡ self.old.keeps.total + 1 }
        ensures lane { lane.new
            ≡ record {
              number = lane.old.number;
              looks = lane.old.looks;
              hits = lane.old.hits;
              keeps = lane.old.keeps
                  + 1;
            } }
    {
        // only the contract speaks of it
        let _made = made;
        self.keeps.audit(&mut lane.kept);
        self.keeps.add(&mut lane.kept, 1);
        lane.keeps += 1;
    }
}

/// Some lanes together. Contracts see how many they are, and their sums.
#[derive(Drop)]
pub(crate) struct Together<N: BookNaming> {
    looks: u64,
    hits: u64,
    keeps: u64,
    looked: Share<LooksOf<N>>,
    hit: Share<HitsOf<N>>,
    kept: Share<KeepsOf<N>>,
}

impl<N: BookNaming> Model for Together<N> {
    ghost use Rattle.std.specs.Prelude.{◌≡◌};
    ghost use Rattle.rc_cache.specs.Sums.{Together as PureTogether};

    ghost Value = { PureTogether };

    ghost view = { λ t. record { lanes = t.looked.parts; looks = t.looks; hits = t.hits; keeps = t.keeps } };

    ghost invariant = { λ t. (t.hit.parts ≡ t.looked.parts) × (t.kept.parts ≡ t.looked.parts)
        × (t.looked.amount ≡ t.looks) × (t.hit.amount ≡ t.hits) × (t.kept.amount ≡ t.keeps) };
}

impl<N: BookNaming> Together<N> {
    /// One lane.
    pub(crate) fn of(lane: Lane<N>) -> Together<N>
        ensures { result ≡ record { lanes = 1; looks = lane.looks; hits = lane.hits; keeps = lane.keeps } }
    {
        let Lane {
            number: _,
            looks,
            hits,
            keeps,
            looked,
            hit,
            kept,
        } = lane;
        Together {
            looks,
            hits,
            keeps,
            looked,
            hit,
            kept,
        }
    }

    /// One lane more.
    pub(crate) fn add(&mut self, sums: &mut Sums<N>, lane: Lane<N>)
        requires { (sums.old.looks.total < 2 ^ 64) × (sums.old.hits.total < 2 ^ 64) × (sums.old.keeps.total < 2 ^ 64) }
        ensures joined { self.new ≡ record {
          lanes = self.old.lanes + 1;
          looks = self.old.looks
              + lane.looks;
          hits = self.old.hits + lane.hits;
          keeps = self.old.keeps + lane.keeps;
        } }
        ensures sums { (sums.new.looks.total ≡ sums.old.looks.total) × (sums.new.hits.total ≡ sums.old.hits.total)
            × (sums.new.keeps.total ≡ sums.old.keeps.total) }
    {
        let Lane {
            number: _,
            looks,
            hits,
            keeps,
            looked,
            hit,
            kept,
        } = lane;
        self.looked.merge(looked);
        sums.looks.audit(&mut self.looked);
        self.looks += looks;
        self.hit.merge(hit);
        sums.hits.audit(&mut self.hit);
        self.hits += hits;
        self.kept.merge(kept);
        sums.keeps.audit(&mut self.kept);
        self.keeps += keeps;
    }

    /// The numbers of all lanes, which are the sums.
    pub(crate) fn totals(self, sums: Sums<N>) -> (u64, u64, u64)
        requires { self.lanes ≡ N.lanes }
        ensures sums { (result.0 ≡ sums.looks.total) × (result.1 ≡ sums.hits.total) × (result.2 ≡ sums.keeps.total) }
        ensures lanes { (result.0 ≡ self.looks) × (result.1 ≡ self.hits) × (result.2 ≡ self.keeps) }
    {
        let mut sums = sums;
        let Together {
            looks,
            hits,
            keeps,
            mut looked,
            mut hit,
            mut kept,
        } = self;
        sums.looks.audit(&mut looked);
        sums.hits.audit(&mut hit);
        sums.keeps.audit(&mut kept);
        (looks, hits, keeps)
    }
}

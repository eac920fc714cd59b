//! A book is closed with its lanes.
ghost use Rattle.std.specs.Prelude.{◌≡◌, length};
ghost use Rattle.rc_cache.specs.Book.{calls_of};
ghost use Rattle.rc_cache.specs.Sums.{looks_in, hits_in, keeps_in, looks_of, hits_of, keeps_of};

use crate::book::Book;
use crate::lanes::{Lane, Together};
use crate::laws::without_a_keep_none_hits;
use crate::naming::BookNaming;

/// What a book was when it was closed: how many entries it held at most, how many lanes it had, and how many calls of
/// each kind these made together. Only a book that is closed gives them.
#[derive(Drop)]
pub struct Totals {
    capacity: usize,
    lanes: usize,
    looks: u64,
    hits: u64,
    keeps: u64,
}

impl Totals {
    /// How many entries the book held at most.
    pub fn capacity(&self) -> usize
        ensures { result ≡ self.now.capacity }
    {
        self.capacity
    }

    /// How many lanes called it.
    pub fn lanes(&self) -> usize
        ensures { result ≡ self.now.lanes }
    {
        self.lanes
    }

    /// How many looks there were.
    pub fn looks(&self) -> u64
        ensures { result ≡ self.now.looks }
    {
        self.looks
    }

    /// How many of them hit.
    pub fn hits(&self) -> u64
        ensures { result ≡ self.now.hits }
    {
        self.hits
    }

    /// How many keeps there were.
    pub fn keeps(&self) -> u64
        ensures { result ≡ self.now.keeps }
    {
        self.keeps
    }
}

/// What all lanes of a book called together, which is what its journal has. Without a keep there is no hit.
pub fn close<N: BookNaming>(book: Book<N>, lanes: Vec<Lane<N>>) -> Totals
    requires all { length lanes.items ≡ N.lanes }
    ensures book { (result.capacity ≡ N.capacity) × (result.lanes ≡ N.lanes) }

    // What the lanes counted is what the journal has.
    ensures looks { (result.looks ≡ looks_of (calls_of book)) × (result.looks ≡ looks_in lanes.items) }
    ensures hits { (result.hits ≡ hits_of (calls_of book)) × (result.hits ≡ hits_in lanes.items) }
    ensures keeps { (result.keeps ≡ keeps_of (calls_of book)) × (result.keeps ≡ keeps_in lanes.items) }
    ensures unkept { result.keeps ≡ 0 → result.hits ≡ 0 }
{
    without_a_keep_none_hits();
    let capacity = book.capacity();
    let count = lanes.len();
    let mut sums = book.sums();
    let mut lanes = lanes;
    let first = lanes.pop().unwrap();
    let mut together = Together::of(first);
    while let Some(lane) = lanes.pop() {
        together.add(&mut sums, lane);
    }
    let (looks, hits, keeps) = together.totals(sums);
    Totals {
        capacity,
        lanes: count,
        looks,
        hits,
        keeps,
    }
}

/// What the only lane of a book called, which is what its journal has.
pub(crate) fn close_alone<N: BookNaming>(book: Book<N>, lane: Lane<N>) -> Totals
    requires alone { N.lanes ≡ 1 }
    ensures book { (result.capacity ≡ N.capacity) × (result.lanes ≡ N.lanes) }
    ensures looks { result.looks ≡ lane.looks }
    ensures hits { result.hits ≡ lane.hits }
    ensures keeps { result.keeps ≡ lane.keeps }
{
    let capacity = book.capacity();
    let (looks, hits, keeps) = Together::of(lane).totals(book.sums());
    Totals {
        capacity,
        lanes: 1,
        looks,
        hits,
        keeps,
    }
}

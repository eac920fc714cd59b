//! The name of a book, which its lanes carry too.
ghost use Rattle.std.specs.Prelude.{◌≡◌, ℕ};
ghost use Rattle.rc_play_spec.specs.About.{About};
ghost use Rattle.rc_cache.specs.Naming.{no_about};

use std::marker::{Brand, PhantomData};
use std::sync::ledger::{Blank, Ledger};

/// Which book it is: the about that it serves, how many entries it holds at most, how many lanes it has, and the names
/// of the ledgers of its looks, hits and keeps. Each call of a program picks it.
pub trait BookNaming {
    ghost about: { About };

    ghost capacity: { ℕ };

    ghost lanes: { ℕ };

    ghost looks: { ℕ };

    ghost hits: { ℕ };

    ghost keeps: { ℕ };
}

impl BookNaming for Brand {
    ghost about = { no_about };

    ghost capacity = { 1 };

    ghost lanes = { 1 };

    ghost looks = { 0 };

    ghost hits = { 0 };

    ghost keeps = { 0 };
}

/// The ledger of the looks.
pub struct LooksOf<N> {
    of: PhantomData<N>,
}

impl<N: BookNaming> Ledger for LooksOf<N> {
    ghost name = { N.looks };

    ghost parts = { N.lanes };
}

/// The ledger of the hits.
pub struct HitsOf<N> {
    of: PhantomData<N>,
}

impl<N: BookNaming> Ledger for HitsOf<N> {
    ghost name = { N.hits };

    ghost parts = { N.lanes };
}

/// The ledger of the keeps.
pub struct KeepsOf<N> {
    of: PhantomData<N>,
}

impl<N: BookNaming> Ledger for KeepsOf<N> {
    ghost name = { N.keeps };

    ghost parts = { N.lanes };
}

/// A name that no book has yet. It takes no bytes.
#[derive(Drop)]
pub struct Fresh {
    /// What the ledger of its looks is opened by.
    pub looks: Blank,
    /// What the ledger of its hits is opened by.
    pub hits: Blank,
    /// What the ledger of its keeps is opened by.
    pub keeps: Blank,
}

impl Fresh {
    /// A new name for a book with so many lanes, 1 to 64.
    pub fn new(lanes: u8) -> Fresh
        ensures looks { result.looks.parts ≡ lanes }
        ensures hits { result.hits.parts ≡ lanes }
        ensures keeps { result.keeps.parts ≡ lanes }
    {
        Fresh {
            looks: Blank::new(lanes as u64),
            hits: Blank::new(lanes as u64),
            keeps: Blank::new(lanes as u64),
        }
    }
}

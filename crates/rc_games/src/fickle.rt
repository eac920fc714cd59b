//! A memo that forgets.
ghost use Rattle.std.specs.Prelude.{◌≡◌, true, Some, [], IfOk};
ghost use Rattle.std.specs.List.{AllByRecursion};
ghost use Rattle.rc_play_spec.specs.About.{About as PureAbout};
ghost use Rattle.rc_play_spec.specs.Tally.{tally as tally_of};
ghost use Rattle.rc_redraw.specs.Asking.{key_seen};
ghost use Rattle.rc_redraw.specs.Reply.{IfHit};
ghost use Rattle.rc_cache.specs.Same as same;
ghost use Rattle.rc_games.specs.Fickle.{counts_of};

use rc_cache::same_ask;
use rc_deck::Memory;
use rc_redraw::{Entry, Key, Memo, Reply, Tally};
use rc_rules::About;
use std::alloc::Global;
use std::marker::Model;
use std::sync::Arc;

/// Keeps entries of one about, and loses all of them at the looks that a list names, which are numbered from 0. It
/// doesn't tell its calls.
#[derive(Drop)]
pub struct Fickle {
    about: Arc<About>,
    entries: Vec<Entry>,
    loses: Vec<u64>,
    looks: u64,
    hits: u64,
    keeps: u64,
}

impl Model for Fickle {
    ghost use Rattle.std.specs.Coded.{codes};
    ghost use Rattle.rc_flow.specs.Codes.{sheet_codes};
    ghost use Rattle.std.specs.Prelude.{◌≡◌};
    ghost use Rattle.std.specs.List.{AllByRecursion};
    ghost use Rattle.rc_games.specs.Fickle.{Fickle};

    ghost Value = { Fickle };

    ghost coded = { Prim.hlevel (sheet_codes, codes) };

    ghost view = { λ f. record {
      about = f.about.value;
      entries = f.entries.items;
      loses = f.loses.items;
      looks = f.looks;
      hits = f.hits;
      keeps = f.keeps;
    } };

    ghost invariant = { λ f. AllByRecursion (λ entry. entry.about ≡ f.about.value) f.entries.items };
}

impl Fickle {
    /// A memo without entries, which loses them at these looks.
    pub fn new(alloc: Global, about: Arc<About>, loses: Vec<u64>) -> Fickle
        ensures { result ≡ record {
          about = about.value;
          entries = [];
          loses = loses.items;
          looks = 0;
          hits = 0;
          keeps = 0;
        } }
    {
        Fickle {
            about,
            entries: Vec::new(alloc),
            loses,
            looks: 0,
            hits: 0,
            keeps: 0,
        }
    }

    /// How many looks it answered.
    pub fn looks(&self) -> u64
        ensures { result ≡ self.now.looks }
    {
        self.looks
    }

    /// How many of them it answered with totals.
    pub fn hits(&self) -> u64
        ensures { result ≡ self.now.hits }
    {
        self.hits
    }

    // Whether it loses its entries at the next look.
    fn loses_now(&self) -> bool {
        self.loses.contains(&self.looks)
    }
}

impl Memo for Fickle {
    ghost serves = { λ f. Some f.about };

    ghost counts = { counts_of };

    ghost name = { λ f. 0 };

    fn look(&mut self, alloc: Global, key: &Key) -> Result<Reply, Memory> {
        let (Some(looks), Some(hits)) = (self.looks.checked_add(1), self.hits.checked_add(1)) else {
            return Err(Memory);
        };
        if self.loses_now() {
            self.entries.clear();
            self.looks = looks;
            return Ok(Reply::Miss);
        }
        match reply_for(alloc, &self.entries, key) {
            Ok(Reply::Hit(totals)) => {
                self.looks = looks;
                self.hits = hits;
                Ok(Reply::Hit(totals))
            }
            Ok(Reply::Miss) => {
                self.looks = looks;
                Ok(Reply::Miss)
            }
            Err(Memory) => Err(Memory),
        }
    }

    fn keep(&mut self, _alloc: Global, entry: Entry) -> Result<(), Memory> {
        let Some(keeps) = self.keeps.checked_add(1) else {
            return Err(Memory);
        };
        match self.entries.insert(0, entry) {
            Ok(()) => {
                self.keeps = keeps;
                Ok(())
            }
            Err(_) => Err(Memory),
        }
    }
}

// What entries of one about answer to a key of it.
fn reply_for(alloc: Global, entries: &[Entry], key: &Key) -> Result<Reply, Memory>
    requires { AllByRecursion (λ entry. entry.about ≡ (key_seen key.now).about) entries.now }
    ensures { IfOk result (λ reply. IfHit reply
        (λ totals. totals ≡ tally_of (key_seen key.now).about (key_seen key.now).ask)) }
{
    for at in 0..entries.len() {
        if same_ask(&key.ask, &entries[at].key().ask) {
            return match totals_of(alloc, &entries[at], key) {
                Ok(totals) => Ok(Reply::Hit(totals)),
                Err(Memory) => Err(Memory),
            };
        }
    }
    Ok(Reply::Miss)
}

// The totals of an entry of the same about, whose ask is the key's.
#[tactic(auto, using(crate::proofs::FoundLemmas::same_totals))]
fn totals_of(alloc: Global, entry: &Entry, key: &Key) -> Result<Tally, Memory>
    requires about { entry.now.about ≡ (key_seen key.now).about }
    requires ask { same.same_ask (key_seen key.now).ask entry.now.ask ≡ true }
    ensures { IfOk result (λ totals. totals.totals.items ≡ tally_of (key_seen key.now).about (key_seen key.now).ask) }
{
    entry.tally().copy(alloc)
}

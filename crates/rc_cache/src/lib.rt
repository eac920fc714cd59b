//! A book of totals that were found before: a bounded list of entries, the journal of its calls, and the lanes by which
//! workers call it, one alone or many over one lock.
//!
//! Stands on rc_redraw, never on rc_flat.
#![tactic(auto)]

mod book;
mod cache;
mod calls;
mod closing;
mod digest;
mod lanes;
mod laws;
mod mark;
mod naming;
mod own;
mod same;
mod shared;

pub use book::Book;
pub use calls::Call;
pub use closing::{Totals, close};
pub use lanes::Lane;
pub use laws::{
    a_legal_replay_is_within_its_room, misses_are_at_least_the_different,
    no_key_is_twice_in_a_replay, one_worker_has_the_hits_of_its_looks,
    one_worker_lacking_memory_takes_no_more_steps, same_keys_are_equal, some_look_misses,
    the_different_are_each_key_once, without_a_keep_none_hits,
};
pub use naming::{BookNaming, Fresh, HitsOf, KeepsOf, LooksOf};
pub use own::OwnBook;
pub use same::same_ask;
pub use shared::SharedBook;

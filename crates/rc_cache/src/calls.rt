//! The calls of a book, as its journal has them.
ghost use Rattle.std.specs.Prelude.{◌≡◌, ◌<◌, ◌+◌, ◌++◌, ◌∷◌, [], length, vec_len, vec_capacity, IfOk};
ghost use Rattle.rc_redraw.specs.Asking.{key_seen};
ghost use Rattle.rc_redraw.specs.Reply.{is_hit as is_hit_of};

use rc_deck::Memory;
use rc_redraw::{Key, Reply};
use std::sync::Arc;

/// A call that was answered: a look, which hit or not, or a keep, each with the number of the lane that made it.
#[derive(Drop)]
pub enum Call {
    /// A lane looked a key up, and it was there or not.
    Looked { lane: u8, key: Key, hit: bool },
    /// A lane gave the entry of a key to keep.
    Kept { lane: u8, key: Key },
}

/// The same key once more, with the same ask in memory.
pub(crate) fn copy_key(key: &Key) -> Result<Key, Memory>
    ensures { IfOk result (λ copy. key_seen copy ≡ key_seen key.now) }
{
    let about = match Arc::try_clone(&key.about) {
        Ok(about) => about,
        Err(_) => return Err(Memory),
    };
    match Arc::try_clone(&key.ask) {
        Ok(ask) => Ok(Key { about, ask }),
        Err(_) => Err(Memory),
    }
}

/// Whether a reply is a hit.
pub(crate) fn is_hit(reply: &Reply) -> bool
    ensures { result ≡ is_hit_of reply.now }
{
    match reply {
        Reply::Hit(_) => true,
        Reply::Miss => false,
    }
}

/// Writes a call down where room was made for it, and answers how many there are.
pub(crate) fn write(journal: &mut Vec<Call>, call: Call) -> usize
    requires { vec_len journal.old < vec_capacity journal.old }
    ensures items { journal.new.items ≡ journal.old.items ++ call ∷ [] }
    ensures made { result ≡ length journal.old.items + 1 }
{
    journal.push(call).unwrap();
    journal.len()
}

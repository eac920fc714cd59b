//! Atomic steps.
use rc_redraw::Key;

/// An atomic step of a house. A match is named by its number in the plan.
#[derive(Drop)]
pub enum Event {
    /// Work of a match that touches nothing that is shared.
    Private(u32),
    /// A match looks up among the entries what it asks of playouts.
    Look(u32),
    /// A match gives the entry that it holds to the others.
    Keep(u32),
    /// The entry of a key is lost. It is told by its ask, since all keys of a house are of one about.
    Lose(Key),
}

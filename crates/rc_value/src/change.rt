//! How a number changes.

/// How a number changes by a value.
#[derive(Clone, Copy, PartialEq, Eq, Debug)]
pub enum Change {
    Set,
    Increase,
    Decrease,
}

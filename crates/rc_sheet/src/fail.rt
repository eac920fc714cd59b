//! Why nothing is read off a form.
ghost use Rattle.std.specs.Prelude.{◌≡◌};
ghost use Rattle.rc_sheet.specs.declared.fail.Unread.TheVariants.{Memory};

use std::alloc::{AllocError, AllocFailed};

/// Why nothing is read off a form.
#[derive(Clone, Copy, PartialEq, Eq, Debug)]
pub enum Unread {
    /// The form says nothing that may stand in its place.
    Meaningless,
    /// There was no memory for what it says.
    Memory,
}

impl From<AllocError> for Unread {
    ghost from_gives = { λ _ e. e ≡ Memory };

    fn from(_error: AllocError) -> Unread {
        Unread::Memory
    }
}

impl<T: Drop> From<AllocFailed<T>> for Unread {
    ghost from_gives = { λ _ e. e ≡ Memory };

    fn from(_error: AllocFailed<T>) -> Unread {
        Unread::Memory
    }
}

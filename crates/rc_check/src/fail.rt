//! Why no sheet is made of a form.
ghost use Rattle.std.specs.Prelude.{◌≡◌};
ghost use Rattle.rc_check.specs.declared.fail.SheetFail.TheVariants.{Fault, Memory};

use crate::{SheetFault, SheetKind};
use std::alloc::{AllocError, AllocFailed};

/// Why no sheet is made of a form.
#[derive(Clone, Copy, Debug)]
pub enum SheetFail {
    /// The form is no sheet.
    Fault(SheetFault),
    /// There was no memory for the sheet.
    Memory,
}

impl SheetFail {
    /// A fault at this offset.
    pub(crate) fn new(kind: SheetKind, at: u32) -> SheetFail
        ensures { result ≡ SheetFail.Fault (record { kind = kind; at = at }) }
    {
        SheetFail::Fault(SheetFault { kind, at })
    }
}

impl From<AllocError> for SheetFail {
    ghost from_gives = { λ _ e. e ≡ Memory };

    fn from(_error: AllocError) -> SheetFail {
        SheetFail::Memory
    }
}

impl<T: Drop> From<AllocFailed<T>> for SheetFail {
    ghost from_gives = { λ _ e. e ≡ Memory };

    fn from(_error: AllocFailed<T>) -> SheetFail {
        SheetFail::Memory
    }
}

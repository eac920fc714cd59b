//! Why a text doesn't spell the wanted lists.
ghost use Rattle.std.specs.Prelude.{◌≡◌};

/// What is wrong with the first faulty token.
#[derive(Clone, Copy, PartialEq, Eq, Debug)]
pub enum FormKind {
    /// A byte that may stand in comments alone.
    BadByte,
    /// A `)` or an atom outside all lists, before the wanted lists are complete.
    Stray,
    /// A `(` that would be the 65th open one.
    TooDeep,
    /// An atom of more than 64 bytes, inside a list.
    AtomLong,
    /// The text ends inside a list.
    Unclosed,
}

/// The first fault of a text. `at` is the offset of the faulty token's first byte, or for an unclosed list that of the
/// last `(` that is still open.
#[derive(Clone, Copy, PartialEq, Eq, Debug)]
pub struct FormFault {
    pub kind: FormKind,
    pub at: u32,
}

/// Why no lists are read.
#[derive(Clone, Copy, PartialEq, Eq, Debug)]
pub enum FormFail {
    /// The text doesn't spell the wanted lists. This is its first fault.
    Fault(FormFault),
    /// Memory ran out.
    Memory,
}

impl FormFail {
    /// A fault of the token at this offset.
    pub(crate) fn at(kind: FormKind, at: u32) -> FormFail
        ensures { result ≡ FormFail.Fault (record { kind = kind; at = at }) }
    {
        FormFail::Fault(FormFault { kind, at })
    }
}

//! Why a form is no sheet. Looking at shapes gives the first two kinds alone.
ghost use Rattle.std.specs.Prelude.{◌≡◌};

/// What is wrong at a place of a form.
#[derive(Clone, Copy, PartialEq, Eq, Debug)]
pub enum SheetKind {
    /// A part is no form of its place.
    Shape,
    /// An atom isn't a number in the range of its place.
    Number,
    /// A line, a name, an attribute, a player or a variable stands a second time where it may stand once.
    Twice,
    /// A name, a variable, a player or a stage that isn't there is meant.
    Unknown,
    /// A variable, a side, a location or a number is of another kind than its place wants.
    WrongKind,
    /// A limit is passed.
    TooMany,
    /// There is no deck.
    NoCards,
}

/// A fault of a form. `at` is the offset of the first byte of the part that is at fault.
#[derive(Clone, Copy, PartialEq, Eq, Debug)]
pub struct SheetFault {
    pub kind: SheetKind,
    pub at: u32,
}

impl SheetFault {
    /// A part at this offset that is no form of its place.
    pub(crate) fn shape(at: u32) -> SheetFault
        ensures { result ≡ record { kind = SheetKind.Shape; at = at } }
    {
        SheetFault {
            kind: SheetKind::Shape,
            at,
        }
    }
}

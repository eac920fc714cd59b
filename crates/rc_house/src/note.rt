//! What a command notes where all went well.
ghost use Rattle.std.specs.Prelude.{◌≡◌};
ghost use Rattle.rc_house.specs.Note.{looks_line, note_line};

use crate::status::LINE;
use arrayvec::ArrayString;

/// What goes to the notes behind a text.
#[derive(Clone, Copy, Debug, PartialEq, Eq, Hash)]
pub enum Note {
    /// No line.
    Nothing,
    /// How many decisions looked for the totals of playouts, and how many of them found them remembered.
    Looks { looks: u64, hits: u64 },
}

impl Note {
    /// The line, with its LF.
    pub fn line(&self) -> ArrayString<LINE>
        ensures { result.bytes ≡ note_line self.now }
    {
        match self {
            Note::Nothing => ArrayString::new(),
            Note::Looks { looks, hits } => looks_line(*looks, *hits),
        }
    }
}

// The line that tells how many looks there were, and how many hits.
fn looks_line(looks: u64, hits: u64) -> ArrayString<LINE>
    ensures { result.bytes ≡ looks_line looks hits }
{
    let mut looks_digits = itoa::Buffer::new();
    let mut hits_digits = itoa::Buffer::new();
    let mut line = ArrayString::new();
    line.push_str("cache looks ");
    line.push_str(looks_digits.format(looks));
    line.push_str(" hits ");
    line.push_str(hits_digits.format(hits));
    line.push_str("\n");
    line
}

//! What the judge finds.
ghost use Rattle.std.specs.Prelude.{◌≡◌, None, OnOk};
ghost use Rattle.rc_play_spec.specs.Judged.{at_line};
ghost use Rattle.rc_judge.specs.Seen.{Finds, row_seen};

use rc_deck::Memory;
use rc_text::Bounds;

/// Why a line is illegal.
#[derive(Clone, Copy, PartialEq, Eq, Debug)]
pub enum Why {
    /// The plan has no such match next, or has a further one.
    Match,
    /// The count of the shuffles is another.
    Shuffle,
    /// Another seat decides, or at another site.
    Seat,
    /// The menu has another size.
    Menu,
    /// The item isn't in the menu.
    Item,
    /// The item binds something else.
    Named,
    /// The play has no decision there, or hasn't ended, or ends otherwise.
    End,
    /// A score is another, is missing, or is one too many.
    Score,
    /// A standing is another, is missing, or is one too many.
    Standing,
}

/// What a text is judged.
#[derive(Clone, Copy, PartialEq, Eq, Debug)]
pub enum Verdict {
    Legal,
    /// The first illegal line, counted from 1. At the end of the text it is the number of lines plus one.
    Illegal { line: u32, why: Why },
}

/// What a text is judged, with what its items bind where it is legal.
#[derive(Debug, Drop)]
pub enum Named {
    /// A list for each match, with an entry for each of its choices.
    Legal(Vec<Vec<Bounds>>),
    /// The first illegal line, as a verdict has it.
    Illegal { line: u32, why: Why },
}

/// What judging stops at.
#[derive(Clone, Copy, Debug)]
pub(crate) enum Halt {
    Illegal { line: u32, why: Why },
    NoMemory,
}

impl From<Memory> for Halt {
    ghost use Rattle.std.specs.Prelude.{◌≡◌};
    ghost use Rattle.rc_judge.specs.declared.verdict.Halt.TheVariants as halt;

    ghost from_gives = { λ _ e. e ≡ halt.NoMemory };

    fn from(_: Memory) -> Halt {
        Halt::NoMemory
    }
}

/// Stops where a row applies to the line.
pub(crate) fn on_row(line: u32, row: Option<Why>) -> Result<(), Halt>
    ensures verdict { Finds result (at_line line (row_seen row) None) }
    ensures free { OnOk result (row ≡ None) }
{
    match row {
        Some(why) => Err(Halt::Illegal { line, why }),
        None => Ok(()),
    }
}

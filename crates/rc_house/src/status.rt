//! How a command ends.
ghost use Rattle.std.specs.Prelude.{◌≡◌, ◌++◌, ◌≤◌, length, codes, decimal};
ghost use Rattle.rc_house.specs.Status.{code_of, line_of, kind_name, plan_kind_name, why_name};

use arrayvec::ArrayString;
use rc_check::SheetKind;
use rc_deck::Memory;
use rc_form::FormKind;
use rc_judge::Why;
use rc_outside::ReadFail;
use rc_plan::PlanKind;

/// The most bytes of a line that is noted.
pub const LINE: usize = 80;

/// What is wrong with a sheet: first the kinds of its forms, and then those of its parts.
#[derive(Clone, Copy, Debug, PartialEq, Eq, Hash)]
pub enum SourceKind {
    /// A byte stands outside comments that may not.
    BadByte,
    /// A `)` or an atom stands outside all lists.
    Stray,
    /// More than 64 lists are open.
    TooDeep,
    /// An atom has more than 64 bytes.
    AtomLong,
    /// The text ends with an open list.
    Unclosed,
    /// A part is none of those that may stand in its place, or is missing.
    Shape,
    /// An atom isn't a number in the range of its place.
    Number,
    /// A line, a name, an attribute, a player or a variable stands a second time where it may stand once.
    Twice,
    /// A name, a variable, a player or a stage that isn't there is meant.
    Unknown,
    /// A variable, a side, a location or a number is of another kind than its place wants.
    WrongKind,
    /// A limit is passed.
    TooMany,
    /// There is no deck.
    NoCards,
    /// A guard or a domain of a choice reads a location that its mover may not see.
    Unseen,
}

impl SourceKind {
    /// The variant's name.
    pub(crate) fn name(self) -> &'static str
        ensures name { result.now ≡ kind_name self }
        ensures short { length result.now ≤ 9 }
    {
        match self {
            SourceKind::BadByte => "BadByte",
            SourceKind::Stray => "Stray",
            SourceKind::TooDeep => "TooDeep",
            SourceKind::AtomLong => "AtomLong",
            SourceKind::Unclosed => "Unclosed",
            SourceKind::Shape => "Shape",
            SourceKind::Number => "Number",
            SourceKind::Twice => "Twice",
            SourceKind::Unknown => "Unknown",
            SourceKind::WrongKind => "WrongKind",
            SourceKind::TooMany => "TooMany",
            SourceKind::NoCards => "NoCards",
            SourceKind::Unseen => "Unseen",
        }
    }
}

/// The name of a kind of the plan's faults.
fn plan_kind_name(kind: PlanKind) -> &'static str
    ensures name { result.now ≡ plan_kind_name kind }
    ensures short { length result.now ≤ 9 }
{
    match kind {
        PlanKind::Shape => "Shape",
        PlanKind::Number => "Number",
        PlanKind::Seats => "Seats",
        PlanKind::Matches => "Matches",
        PlanKind::Turns => "Turns",
        PlanKind::TooLarge => "TooLarge",
        PlanKind::Rest => "Rest",
    }
}

/// The name of why a line is illegal.
fn why_name(why: Why) -> &'static str
    ensures name { result.now ≡ why_name why }
    ensures short { length result.now ≤ 8 }
{
    match why {
        Why::Match => "Match",
        Why::Shuffle => "Shuffle",
        Why::Seat => "Seat",
        Why::Menu => "Menu",
        Why::Item => "Item",
        Why::Named => "Named",
        Why::End => "End",
        Why::Score => "Score",
        Why::Standing => "Standing",
    }
}

impl From<FormKind> for SourceKind {
    ghost use Rattle.std.specs.Prelude.{◌≡◌};
    ghost use Rattle.rc_house.specs.Status.{source_kind};

    ghost from_gives = { λ form kind. kind ≡ source_kind form };

    fn from(kind: FormKind) -> SourceKind {
        match kind {
            FormKind::BadByte => SourceKind::BadByte,
            FormKind::Stray => SourceKind::Stray,
            FormKind::TooDeep => SourceKind::TooDeep,
            FormKind::AtomLong => SourceKind::AtomLong,
            FormKind::Unclosed => SourceKind::Unclosed,
        }
    }
}

impl From<SheetKind> for SourceKind {
    ghost use Rattle.std.specs.Prelude.{◌≡◌};
    ghost use Rattle.rc_house.specs.Status.{sheet_kind};

    ghost from_gives = { λ part kind. kind ≡ sheet_kind part };

    fn from(kind: SheetKind) -> SourceKind {
        match kind {
            SheetKind::Shape => SourceKind::Shape,
            SheetKind::Number => SourceKind::Number,
            SheetKind::Twice => SourceKind::Twice,
            SheetKind::Unknown => SourceKind::Unknown,
            SheetKind::WrongKind => SourceKind::WrongKind,
            SheetKind::TooMany => SourceKind::TooMany,
            SheetKind::NoCards => SourceKind::NoCards,
        }
    }
}

/// How a command ended.
#[derive(Clone, Copy, Debug, PartialEq, Eq)]
pub enum Status {
    /// All was read, played and written.
    Done,
    /// The sheet's first fault, with the offset where it stands.
    Sheet { kind: SourceKind, at: u32 },
    /// The plan's first fault, with the offset where it stands.
    Plan { kind: PlanKind, at: u32 },
    /// The transcript's first line outside the grammar, counted from 1.
    Text { line: u32 },
    /// The transcript's first line that no play allows, counted from 1, and why.
    Illegal { line: u32, why: Why },
    /// There was not enough memory.
    Memory,
    /// Reading the source failed.
    ReadFault,
    /// Writing the text or the notes failed.
    WriteFault,
    /// The source gave more bytes than the command may read.
    TooLong,
    /// The words are no command's.
    Usage,
    /// The plan has no such seat, no such match or no such strategy.
    Absent,
}

impl Status {
    /// The exit code of a program that ends so.
    pub fn code(&self) -> u8
        ensures { result ≡ code_of self.now }
    {
        match self {
            Status::Done => 0,
            Status::Sheet { .. } => 1,
            Status::Usage => 2,
            Status::Plan { .. } => 3,
            Status::Text { .. } => 4,
            Status::Illegal { .. } => 4,
            Status::Memory => 5,
            Status::ReadFault => 6,
            Status::WriteFault => 7,
            Status::TooLong => 8,
            Status::Absent => 10,
        }
    }

    /// The line that goes to the notes where a command ends so, with its LF. Where all went well, there is none.
    pub fn line(&self) -> ArrayString<LINE>
        ensures { result.bytes ≡ line_of self.now }
    {
        match self {
            Status::Done => ArrayString::new(),
            Status::Sheet { kind, at } => fault_line("sheet ", kind.name(), *at),
            Status::Plan { kind, at } => fault_line("plan ", plan_kind_name(*kind), *at),
            Status::Text { line } => text_line(*line),
            Status::Illegal { line, why } => illegal_line(*line, *why),
            Status::Memory => fixed_line("no memory\n"),
            Status::ReadFault => fixed_line("read fault\n"),
            Status::WriteFault => fixed_line("write fault\n"),
            Status::TooLong => fixed_line("too long\n"),
            Status::Usage => fixed_line(
                "usage: cardhouse play, check, sheet, bench, migrate, watch, measure or rival\n",
            ),
            Status::Absent => fixed_line("absent\n"),
        }
    }
}

impl From<Memory> for Status {
    ghost use Rattle.std.specs.Prelude.{◌≡◌};
    ghost use Rattle.rc_house.specs.declared.status.Status.TheVariants as ending;

    ghost from_gives = { λ _ status. status ≡ ending.Memory };

    fn from(_: Memory) -> Status {
        Status::Memory
    }
}

impl From<ReadFail> for Status {
    ghost use Rattle.std.specs.Prelude.{◌≡◌};
    ghost use Rattle.rc_house.specs.Status.{read_status};

    ghost from_gives = { λ fail status. status ≡ read_status fail };

    fn from(fail: ReadFail) -> Status {
        match fail {
            ReadFail::ReadFault => Status::ReadFault,
            ReadFail::TooLong => Status::TooLong,
            ReadFail::Memory => Status::Memory,
        }
    }
}

/// A line that is the same each time.
fn fixed_line(text: &str) -> ArrayString<LINE>
    requires { length text.now ≤ 80 }
    ensures { result.bytes ≡ text.now }
{
    let mut line = ArrayString::new();
    line.push_str(text);
    line
}

/// A line that names a kind of fault and where it stands.
fn fault_line(what: &str, kind: &str, at: u32) -> ArrayString<LINE>
    requires what { length what.now ≤ 8 }
    requires kind { length kind.now ≤ 9 }
    ensures { result.bytes ≡ what.now ++ kind.now ++ codes " " ++ decimal at ++ codes "\n" }
{
    let mut digits = itoa::Buffer::new();
    let mut line = ArrayString::new();
    line.push_str(what);
    line.push_str(kind);
    line.push_str(" ");
    line.push_str(digits.format(at));
    line.push_str("\n");
    line
}

/// The line that names a transcript's line outside the grammar.
fn text_line(at: u32) -> ArrayString<LINE>
    ensures { result.bytes ≡ codes "text " ++ decimal at ++ codes "\n" }
{
    let mut digits = itoa::Buffer::new();
    let mut line = ArrayString::new();
    line.push_str("text ");
    line.push_str(digits.format(at));
    line.push_str("\n");
    line
}

/// The line that names a transcript's illegal line, and why.
fn illegal_line(at: u32, why: Why) -> ArrayString<LINE>
    ensures { result.bytes ≡ codes "illegal " ++ decimal at ++ codes " " ++ why_name why ++ codes "\n" }
{
    let mut digits = itoa::Buffer::new();
    let mut line = ArrayString::new();
    line.push_str("illegal ");
    line.push_str(digits.format(at));
    line.push_str(" ");
    line.push_str(why_name(why));
    line.push_str("\n");
    line
}

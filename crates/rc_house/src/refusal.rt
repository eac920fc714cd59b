//! Why a command refuses its source.
use crate::status::{SourceKind, Status};
use rc_judge::Why;
use rc_plan::PlanKind;

/// Why a command writes no text for its source.
#[derive(Clone, Copy, Debug, PartialEq, Eq)]
pub enum Refusal {
    /// The sheet's first fault, with the offset where it stands.
    Sheet { kind: SourceKind, at: u32 },
    /// The plan's first fault, with the offset where it stands.
    Plan { kind: PlanKind, at: u32 },
    /// The transcript's first line outside the grammar.
    Text { line: u32 },
    /// The transcript's first line that no play allows, and why.
    Illegal { line: u32, why: Why },
    /// The plan has no such seat, no such match or no such strategy.
    Absent,
}

impl From<Refusal> for Status {
    ghost use Rattle.std.specs.Prelude.{◌≡◌};
    ghost use Rattle.rc_house.specs.Status.{refusal_status};

    ghost from_gives = { λ refusal status. status ≡ refusal_status refusal };

    fn from(refusal: Refusal) -> Status {
        match refusal {
            Refusal::Sheet { kind, at } => Status::Sheet { kind, at },
            Refusal::Plan { kind, at } => Status::Plan { kind, at },
            Refusal::Text { line } => Status::Text { line },
            Refusal::Illegal { line, why } => Status::Illegal { line, why },
            Refusal::Absent => Status::Absent,
        }
    }
}

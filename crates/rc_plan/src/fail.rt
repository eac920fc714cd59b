//! Why a form gives no plan.
ghost use Rattle.std.specs.Prelude.{◌≡◌};
ghost use Rattle.rc_play_spec.specs.declared.plan_fault.PlanKind.TheVariants as kind;

use rc_play_spec::{PlanFault, PlanKind};

/// Why there is no plan.
#[derive(Clone, Copy, PartialEq, Eq, Debug)]
pub enum PlanFail {
    /// The form is no plan for so many players. This is its first fault.
    Fault(PlanFault),
    /// Memory ran out.
    Memory,
}

impl PlanFail {
    /// A part at this offset that is no form of its place.
    pub(crate) fn shape(at: u32) -> PlanFail
        ensures { result ≡ PlanFail.Fault (record { kind = kind.Shape; at = at }) }
    {
        PlanFail::of(PlanKind::Shape, at)
    }

    /// A fault of this kind at this offset.
    pub(crate) fn of(kind: PlanKind, at: u32) -> PlanFail
        ensures { result ≡ PlanFail.Fault (record { kind = kind; at = at }) }
    {
        PlanFail::Fault(PlanFault { kind, at })
    }
}

//! Plans that are accepted.
ghost use Rattle.std.specs.Prelude.{◌≡◌, ◌≢◌, ◌≤◌, ℕ, length, IfOk, IfErr, IfSome, IfNone, All};
ghost use Rattle.rc_base.specs.Placed.{IsPlaced};
ghost use Rattle.rc_base.specs.Limits.{longest_text};
ghost use Rattle.rc_form.specs.Form.{tree_of, trees_of};
ghost use Rattle.rc_play_spec.specs.Limits.{IsWithinLimits};
ghost use Rattle.rc_play_spec.specs.declared.plan_fault.PlanKind.TheVariants as plan_kind;
ghost use Rattle.rc_plan.specs.Reads.{IfPlanFault};
ghost use Rattle.rc_rules.specs.Plan.{plan_seen};
ghost use Rattle.rc_house.specs.AcceptedPlan.{IsBehind, IsFaultyBehind, IsPlanned, IsPlanFaulty};

use rc_form::Forms;
use rc_plan::{PlanFail, PlanFault, PlanKind, plan_of};
use rc_rules::Plan;
use std::alloc::Global;

/// The plan behind the sheet in a source with these forms, for so many players, behind which nothing stands; or its
/// first fault.
pub fn read_plan(alloc: Global, source: &[u8], forms: &Forms, players: u8) -> Result<Plan, PlanFail>
    requires small { length source.now ≤ longest_text }
    requires within { forms.now.rest ≤ length source.now }
    requires placed { All (λ form. IsPlaced (length source.now) (tree_of form)) forms.now.list.items }
    requires some { 1 ≤ players }
    requires few { players ≤ 8 }

    // The plan stands behind the sheet, and nothing behind it.
    ensures planned { IfOk result (λ plan.
        IsPlanned source.now players (trees_of forms.now.list.items) forms.now.rest (plan_seen plan)) }
    ensures limits { IfOk result (λ plan. IsWithinLimits (plan_seen plan)) }
    ensures seats { IfOk result (λ plan. length (plan_seen plan).strategies ≡ players) }

    // The fault is the first one, unless memory ran out.
    ensures fault { IfErr result (λ fail. IfPlanFault fail (λ fault.
        IsPlanFaulty source.now players (trees_of forms.now.list.items) forms.now.rest fault.kind fault.at)) }
{
    let plan = plan_behind(alloc, forms, players)?;
    match rest_fault(source, forms.rest) {
        Some(fault) => Err(PlanFail::Fault(fault)),
        None => Ok(plan),
    }
}

/// The plan behind the sheet in a source with these forms, for so many players, whatever follows it; or its first
/// fault.
pub fn plan_behind(alloc: Global, forms: &Forms, players: u8) -> Result<Plan, PlanFail>
    requires small { forms.now.rest ≤ longest_text }
    requires placed { All (λ form. (size : ℕ) × IsPlaced size (tree_of form)) forms.now.list.items }
    requires some { 1 ≤ players }
    requires few { players ≤ 8 }
    ensures behind { IfOk result (λ plan. IsBehind players (trees_of forms.now.list.items) (plan_seen plan)) }
    ensures limits { IfOk result (λ plan. IsWithinLimits (plan_seen plan)) }
    ensures seats { IfOk result (λ plan. length (plan_seen plan).strategies ≡ players) }

    // The fault is the first one, unless memory ran out.
    ensures fault { IfErr result (λ fail. IfPlanFault fail (λ fault.
        IsFaultyBehind players (trees_of forms.now.list.items) forms.now.rest fault.kind fault.at)) }
{
    let Some(form) = forms.list.get(1) else {
        return Err(PlanFail::Fault(PlanFault {
            kind: PlanKind::Shape,
            at: forms.rest as u32,
        }));
    };
    plan_of(alloc, form, players)
}

// The fault of a source where something follows what was read of it.
fn rest_fault(source: &[u8], rest: usize) -> Option<PlanFault>
    requires { rest ≤ longest_text }
    ensures found { IfSome result (λ fault.
        (rest ≢ length source.now) × (fault.kind ≡ plan_kind.Rest) × (fault.at ≡ rest)) }
    ensures none { IfNone result (rest ≡ length source.now) }
{
    if rest == source.len() {
        None
    } else {
        Some(PlanFault {
            kind: PlanKind::Rest,
            at: rest as u32,
        })
    }
}

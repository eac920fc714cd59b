//! The plan of a form.
ghost use Rattle.std.specs.Prelude.{◌≡◌, ◌≤◌, ℕ, [], length, IfOk, IfErr};
ghost use Rattle.rc_base.specs.Placed.{IsPlaced};
ghost use Rattle.rc_form.specs.Form.{tree_of};
ghost use Rattle.rc_play_spec.specs.Faults.{plan_faults};
ghost use Rattle.rc_play_spec.specs.Limits.{IsWithinLimits};
ghost use Rattle.rc_play_spec.specs.PlanFault.{IsPlanFault};
ghost use Rattle.rc_play_spec.specs.PlanStands.{PlanStands};
ghost use Rattle.rc_rules.specs.Plan.{plan_seen};
ghost use Rattle.rc_plan.specs.Reads.{IfPlanFault};

use crate::draft::read_draft;
use crate::fail::PlanFail;
use rc_form::Form;
use rc_rules::Plan;
use std::alloc::Global;

/// Makes the plan of a form, for 1 to 8 players. The error is the form's first fault, or that there was no memory: the
/// first fault of its shapes and numbers, or else the first of what its parts say together, by its kind.
///
/// The offsets of the form's parts rise in the order of the text, as those of all forms do that are read. Matches that
/// are counted are written out.
pub fn plan_of(alloc: Global, form: &Form, players: u8) -> Result<Plan, PlanFail>
    requires some { 1 ≤ players }
    requires few { players ≤ 8 }
    requires placed { (size : ℕ) × IsPlaced size (tree_of form.now) }
    ensures stands { IfOk result (λ plan. PlanStands (plan_seen plan) (tree_of form.now)) }
    ensures within { IfOk result (λ plan. IsWithinLimits (plan_seen plan)) }
    ensures seats { IfOk result (λ plan. length (plan_seen plan).strategies ≡ players) }
    ensures fine { IfOk result (λ _. plan_faults players (tree_of form.now) ≡ []) }

    ensures found { IfErr result (λ fail. IfPlanFault fail
        (λ fault. IsPlanFault (tree_of form.now) players fault.kind fault.at)) }
{
    let draft = read_draft(alloc, form)?;
    if let Some(fault) = draft.fault(players) {
        return Err(PlanFail::Fault(fault));
    }
    match draft.plan(alloc) {
        Ok(plan) => Ok(plan),
        Err(_) => Err(PlanFail::Memory),
    }
}

//! Laws of plans and their faults. No function here does anything: its contract is the law.
ghost use Rattle.std.specs.Prelude.{◌≡◌, ◌≤◌, ℕ, [], length, All, Some};
ghost use Rattle.rc_base.specs.Placed.{IsPlaced};
ghost use Rattle.rc_base.specs.Tree.{Tree};
ghost use Rattle.rc_play_spec.specs.Plan.{Plan};
ghost use Rattle.rc_play_spec.specs.Faults.{plan_faults};
ghost use Rattle.rc_play_spec.specs.Limits.{IsWithinLimits};
ghost use Rattle.rc_play_spec.specs.PlanFault.{first, IsFirstOf, IsPlanFault};
ghost use Rattle.rc_play_spec.specs.declared.plan_fault.PlanKind.{PlanKind};
ghost use Rattle.rc_play_spec.specs.declared.plan_fault.PlanKind.TheVariants as kinds;
ghost use Rattle.rc_play_spec.specs.PlanStands.{PlanStands};
ghost use Rattle.rc_play_spec.specs.declared.plan_fault.PlanFault.{PlanFault};

/// The faults of a form are listed in the order in which they are told, where the offsets of its parts rise in the
/// order of the text; so the first of the list is told.
pub fn faults_are_in_order()
    ensures { (players : ℕ) (form : Tree) (size : ℕ) (fault : PlanFault) → IsPlaced size form
        → first (plan_faults players form) ≡ Some fault → IsFirstOf (plan_faults players form) fault }
{}

/// A form is that of one plan at most.
pub fn a_form_has_one_plan()
    ensures { (plan other : Plan) (form : Tree) → PlanStands plan form → PlanStands other form → plan ≡ other }
{}

/// A form with a plan that stands within the limits has no fault where there are as many players as strategies, and no
/// other fault than that where there aren't.
pub fn plans_have_no_faults()
    ensures none { (plan : Plan) (form : Tree) → PlanStands plan form → IsWithinLimits plan
        → plan_faults (length plan.strategies) form ≡ [] }
    ensures seats { (plan : Plan) (form : Tree) (players : ℕ) → PlanStands plan form → IsWithinLimits plan
        → All (λ fault. fault.kind ≡ kinds.Seats) (plan_faults players form) }
{}

/// A form without a fault for 1 to 8 players stands for a plan within the limits, which has a strategy for each of
/// them.
pub fn a_faultless_form_has_a_plan()
    ensures { (form : Tree) (players : ℕ) → 1 ≤ players → players ≤ 8 → plan_faults players form ≡ []
        → (plan : Plan) × PlanStands plan form × IsWithinLimits plan × (length plan.strategies ≡ players) }
{}

/// A form that has faults has exactly one first fault.
pub fn a_form_has_one_fault()
    ensures some { (form : Tree) (players : ℕ) → (plan_faults players form ≡ [] → ⊥)
        → (fault : PlanFault) × IsPlanFault form players fault.kind fault.at }
    ensures one { (form : Tree) (players at other_at : ℕ) (kind other : PlanKind)
        → IsPlanFault form players kind at → IsPlanFault form players other other_at
        → (kind ≡ other) × (at ≡ other_at) }
{}

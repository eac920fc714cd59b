//! The first fault of the second round.
ghost use Rattle.std.specs.Prelude.{◌≡◌, ℕ, [], Some, IfOk, IfErr};
ghost use Rattle.rc_base.specs.Placed.{IsPlaced};
ghost use Rattle.rc_form.specs.Form.{tree_of};
ghost use Rattle.rc_check.specs.Faults.{faults, first};
ghost use Rattle.rc_check.specs.FirstOf.{IsFirstOf};
ghost use Rattle.rc_check.specs.Checks.{IfSheetFault};
ghost use Rattle.rc_check.specs.SecondFaults.{second_faults};
ghost use Rattle.rc_check.specs.SecondParts as parts_spec;
ghost use Rattle.rc_check.specs.Summary as spec;

use crate::Symbol;
use crate::around::Around;
use crate::fail::SheetFail;
use crate::role::Role;
use crate::standing::Setting;
use crate::walk::Walk;
use crate::whole::Whole;
use rc_form::Form;
use std::alloc::Global;

/// Looks at what a form means whose shape is right. The error is the fault with the smallest offset of the second
/// round, or that there was no memory: what stands a second time, is unknown, is of the wrong kind or is one too many,
/// and a form without cards. Of two faults of one part it is the one that stands earlier in that row.
///
/// One walk learns what the whole form gives, and a second looks at its parts in the order of the text and stops at the
/// first fault. Both take time in line with the form, but for look-ups: in an ordered index of the names that the setup
/// gives, in a face's attributes, and among at most 256 names.
pub fn check_semantics(alloc: Global, form: &Form) -> Result<(), SheetFail>
    requires shaped { faults Symbol.Sheet (tree_of form.now) ≡ [] }
    ensures fine { IfOk result (λ _. second_faults (tree_of form.now) ≡ []) }
    ensures found { IfErr result (λ fail. IfSheetFault fail
        (λ fault. first (second_faults (tree_of form.now)) ≡ Some fault)) }
    // In a form that stands in a text, no other fault of the list comes before it.
    ensures least { IfErr result (λ fail. IfSheetFault fail (λ fault. (size : ℕ) → IsPlaced size (tree_of form.now)
        → IsFirstOf (second_faults (tree_of form.now)) fault)) }
{
    let whole = Whole::of(alloc, form)?;
    check_parts(alloc, &whole, form)
}

/// Looks at the parts of a form, of which this is known as a whole.
fn check_parts<'a>(alloc: Global, whole: &Whole<'a>, form: &Form<'a>) -> Result<(), SheetFail>
    requires known { whole.now ≡ spec.whole_of (parts_spec.parts_of (tree_of form.now)) }
    ensures fine { IfOk result (λ _. second_faults (tree_of form.now) ≡ []) }
    ensures found { IfErr result (λ fail. IfSheetFault fail
        (λ fault. first (second_faults (tree_of form.now)) ≡ Some fault)) }
{
    let around = Around::outside(alloc);
    let at = Setting {
        place: Symbol::Sheet,
        role: Role::No,
        beside: &[],
        around: &around,
    };
    Walk::new(alloc).part(whole, &at, form)
}

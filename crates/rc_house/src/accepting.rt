//! Sheets that are accepted.
ghost use Rattle.std.specs.Prelude.{◌≡◌, ℕ, IfOk, IfErr};
ghost use Rattle.rc_base.specs.Placed.{IsPlaced};
ghost use Rattle.rc_form.specs.Form.{tree_of, IsPrintable};
ghost use Rattle.rc_form.specs.SameForm.{IsOfAtoms};
ghost use Rattle.rc_sheet.specs.Accepted.{IsAccepted};
ghost use Rattle.rc_house.specs.Accepted.{HasFirstFault, IfSourceFault};

use crate::status::SourceKind;
use rc_flow::{Checked, Unseen, check_sight};
use rc_form::Form;
use rc_sheet::{SheetFail, sheet_of};
use std::alloc::Global;

/// Why a form isn't accepted as a sheet.
#[derive(Clone, Copy, Debug, PartialEq, Eq)]
pub enum SourceFail {
    /// Its first fault, with the offset where it stands.
    Fault { kind: SourceKind, at: u32 },
    /// There was no memory.
    Memory,
}

impl From<SheetFail> for SourceFail {
    ghost use Rattle.std.specs.Prelude.{◌≡◌};
    ghost use Rattle.rc_house.specs.Accepted.{source_fail};

    ghost from_gives = { λ found fail. fail ≡ source_fail found };

    fn from(found: SheetFail) -> SourceFail {
        match found {
            SheetFail::Fault(fault) => SourceFail::Fault {
                kind: SourceKind::from(fault.kind),
                at: fault.at,
            },
            SheetFail::Memory => SourceFail::Memory,
        }
    }
}

impl From<Unseen> for SourceFail {
    ghost use Rattle.std.specs.Prelude.{◌≡◌};
    ghost use Rattle.rc_house.specs.declared.accepting.SourceFail.TheVariants as fails;
    ghost use Rattle.rc_house.specs.declared.status.SourceKind.TheVariants as kinds;

    ghost from_gives = { λ unseen fail. fail ≡ fails.Fault kinds.Unseen unseen.at };

    fn from(unseen: Unseen) -> SourceFail {
        SourceFail::Fault {
            kind: SourceKind::Unseen,
            at: unseen.at,
        }
    }
}

/// The sheet of a form, if the form has no fault and the sheet keeps the sight rule.
pub fn accept(alloc: Global, form: &Form) -> Result<Checked, SourceFail>
    requires placed { (size : ℕ) × IsPlaced size (tree_of form.now) }
    requires printable { IsPrintable (tree_of form.now) }
    requires of_atoms { IsOfAtoms (tree_of form.now) }
    ensures accepted { IfOk result (λ checked. IsAccepted (tree_of form.now) checked) }

    // It is refused with its first fault, unless memory ran out.
    ensures refused { IfErr result (λ fail. IfSourceFault fail (HasFirstFault (tree_of form.now))) }
{
    let sheet = sheet_of(alloc, form)?;
    let checked = check_sight(sheet)?;
    Ok(checked)
}

//! The first location of a sheet that breaks the rule.
ghost use Rattle.std.specs.Prelude.{IfSome, IfNone};
ghost use Rattle.rc_sheet_spec.specs.Sight.{IsInSight, IsUnseen};
ghost use Rattle.rc_ast.specs.Sheet.{sheet_seen};

use crate::alternatives::in_items;
use rc_ast::Sheet;

/// Its offset, where there is one.
pub fn first_unseen(sheet: &Sheet) -> Option<u32>
    ensures sight { IfNone result (IsInSight (sheet_seen sheet.now)) }
    ensures unseen { IfSome result (λ at. IsUnseen (sheet_seen sheet.now) at) }
{
    in_items(&sheet.locs, &sheet.items, None)
}

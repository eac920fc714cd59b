//! Prints alternatives and items, each with a space before it.
ghost use Rattle.std.specs.Prelude.{◌≡◌, ◌∷◌, ◌++◌, [], map, OnOk};
ghost use Rattle.rc_base.specs.Tree.{printed, printed_behind};
ghost use Rattle.rc_sheet_spec.specs.Printing.{packed, alt_form, class_form, item_form, item_forms};
ghost use Rattle.rc_ast.specs.Items.{alt_seen, alts_seen, item_seen, items_seen};
ghost use Rattle.rc_print.specs.Printing.{naming_seen, bound_seen};

use crate::effects::{push_effects, push_guarded};
use crate::expressions::{push_domain, push_test};
use crate::printer::Printer;
use crate::words::{Variable, behind, push_binder};
use rc_ast::{Alt, Class, Sheet, SheetItem};
use std::alloc::AllocError;

fn push_alt(
    out: &mut Printer,
    sheet: &Sheet,
    bound: &[Variable],
    alt: &Alt,
) -> Result<(), AllocError>
    ensures { OnOk result (out.new.bytes.items ≡ out.old.bytes.items
        ++ 32 ∷ printed (alt_form (naming_seen sheet.now) (bound_seen sheet.now bound.now) (alt_seen alt.now))) }
{
    match alt {
        Alt::Do(effects) => {
            out.open_part("do")?;
            push_effects(out, sheet, bound, effects)?;
            out.close()
        }
        Alt::If(guard, effects) => push_guarded(out, sheet, bound, effects, guard),
        Alt::Any(domain, var, inner) => {
            let within = behind(out, sheet, bound, *var)?;
            out.open_part("any")?;
            push_domain(out, sheet, bound, domain)?;
            push_binder(out, sheet, *var)?;
            push_alt(out, sheet, &within, inner)?;
            out.close()
        }
    }
}

fn push_alts(out: &mut Printer, sheet: &Sheet, alts: &Vec<Alt>) -> Result<(), AllocError>
    ensures { OnOk result (out.new.bytes.items ≡ out.old.bytes.items
        ++ printed_behind (packed (map (alt_form (naming_seen sheet.now) []) (alts_seen alts.now.items)))) }
{
    for alt in alts {
        push_alt(out, sheet, &[], alt)?;
    }
    Ok(())
}

fn push_class(out: &mut Printer, class: Class) -> Result<(), AllocError>
    ensures { OnOk result (out.new.bytes.items ≡ out.old.bytes.items ++ 32 ∷ printed (class_form class)) }
{
    match class {
        Class::Game => out.keyword(" game"),
        Class::Player => out.keyword(" player"),
        Class::Team => out.keyword(" team"),
    }
}

#[cycle(items)]
fn push_item(out: &mut Printer, sheet: &Sheet, item: &SheetItem) -> Result<(), AllocError>
    ensures { OnOk result (out.new.bytes.items ≡ out.old.bytes.items
        ++ 32 ∷ printed (item_form (naming_seen sheet.now) (item_seen item.now))) }
{
    match item {
        SheetItem::Do(effects) => {
            out.open_part("do")?;
            push_effects(out, sheet, &[], effects)?;
            out.close()
        }
        SheetItem::Stage {
            class,
            end,
            body,
            ..
        } => {
            out.open_part("stage")?;
            push_class(out, *class)?;
            out.open_part("end")?;
            push_test(out, sheet, &[], end)?;
            out.close()?;
            push_items(out, sheet, body)?;
            out.close()
        }
        SheetItem::Choice { alts, .. } => {
            out.open_part("choice")?;
            push_alts(out, sheet, alts)?;
            out.close()
        }
    }
}

#[cycle(items)]
pub fn push_items(
    out: &mut Printer,
    sheet: &Sheet,
    items: &Vec<SheetItem>,
) -> Result<(), AllocError>
    ensures { OnOk result (out.new.bytes.items ≡ out.old.bytes.items
        ++ printed_behind (packed (item_forms (naming_seen sheet.now) (items_seen items.now.items)))) }
{
    for item in items {
        push_item(out, sheet, item)?;
    }
    Ok(())
}

//! Prints deck trees and entries of point maps.
ghost use Rattle.std.specs.Prelude.{◌≡◌, ◌++◌, map, OnOk};
ghost use Rattle.rc_base.specs.Tree.{printed, printed_parts, printed_behind};
ghost use Rattle.rc_deck.specs.Tree.{attr_of, value_of, branches_of, inner_of, groups_in, branches_in};
ghost use Rattle.rc_deck.specs.Points.{entry_of};
ghost use Rattle.rc_sheet_spec.specs.Printing.{packed, named, group_form, branch_form, group_forms, branch_forms, entry_form};
ghost use Rattle.rc_print.specs.Printing.{naming_seen};

use crate::printer::Printer;
use crate::words::push_named;
use rc_ast::Sheet;
use rc_deck::{Branch, Group, PointEntry};
use std::alloc::AllocError;

/// Adds the word of an attribute.
fn push_attr(out: &mut Printer, sheet: &Sheet, attr: u16) -> Result<(), AllocError>
    ensures { OnOk result (out.new.bytes.items ≡ out.old.bytes.items
        ++ printed (named (naming_seen sheet.now).names.attrs attr)) }
{
    push_named(out, &sheet.names.attrs, usize::from(attr))
}

/// Adds the word of a value.
fn push_value(out: &mut Printer, sheet: &Sheet, value: u16) -> Result<(), AllocError>
    ensures { OnOk result (out.new.bytes.items ≡ out.old.bytes.items
        ++ printed (named (naming_seen sheet.now).names.values value)) }
{
    push_named(out, &sheet.names.values, usize::from(value))
}

#[cycle(decks)]
fn push_group(out: &mut Printer, sheet: &Sheet, group: &Group) -> Result<(), AllocError>
    ensures { OnOk result (out.new.bytes.items ≡ out.old.bytes.items
        ++ printed (group_form (named (naming_seen sheet.now).names.attrs (attr_of group.now)) (branch_forms
        (naming_seen sheet.now) (branches_of group.now)))) }
{
    out.begin()?;
    push_attr(out, sheet, group.attr)?;
    out.space()?;
    out.begin()?;
    push_branches(out, sheet, &group.values)?;
    out.close()?;
    out.close()
}

/// Adds each with a space before it.
#[cycle(decks)]
pub fn push_groups(out: &mut Printer, sheet: &Sheet, groups: &Vec<Group>) -> Result<(), AllocError>
    ensures { OnOk result (out.new.bytes.items ≡ out.old.bytes.items
        ++ printed_behind (packed (group_forms (naming_seen sheet.now) (groups_in groups.now.items)))) }
{
    for group in groups {
        out.space()?;
        push_group(out, sheet, group)?;
    }
    Ok(())
}

#[cycle(decks)]
fn push_branch(out: &mut Printer, sheet: &Sheet, branch: &Branch) -> Result<(), AllocError>
    ensures { OnOk result (out.new.bytes.items ≡ out.old.bytes.items
        ++ printed (branch_form (named (naming_seen sheet.now).names.values (value_of branch.now)) (group_forms
        (naming_seen sheet.now) (inner_of branch.now)))) }
{
    if branch.groups.is_empty() {
        return push_value(out, sheet, branch.value);
    }
    out.begin()?;
    push_value(out, sheet, branch.value)?;
    push_groups(out, sheet, &branch.groups)?;
    out.close()
}

/// Adds each with a space between them.
#[cycle(decks)]
fn push_branches(out: &mut Printer, sheet: &Sheet, branches: &[Branch]) -> Result<(), AllocError>
    ensures { OnOk result (out.new.bytes.items ≡ out.old.bytes.items
        ++ printed_parts (packed (branch_forms (naming_seen sheet.now) (branches_in branches.now)))) }
{
    let Some((first, others)) = branches.split_first() else {
        return Ok(());
    };
    push_branch(out, sheet, first)?;
    for branch in others {
        out.space()?;
        push_branch(out, sheet, branch)?;
    }
    Ok(())
}

/// Adds the words of values with a space between them.
fn push_values(out: &mut Printer, sheet: &Sheet, values: &[u16]) -> Result<(), AllocError>
    ensures { OnOk result (out.new.bytes.items ≡ out.old.bytes.items
        ++ printed_parts (packed (map (named (naming_seen sheet.now).names.values) values.now))) }
{
    let Some((first, others)) = values.split_first() else {
        return Ok(());
    };
    push_value(out, sheet, *first)?;
    for value in others {
        out.space()?;
        push_value(out, sheet, *value)?;
    }
    Ok(())
}

fn push_entry(out: &mut Printer, sheet: &Sheet, entry: &PointEntry) -> Result<(), AllocError>
    ensures { OnOk result (out.new.bytes.items
        ≡ out.old.bytes.items ++ printed (entry_form (naming_seen sheet.now) (entry_of entry.now))) }
{
    out.begin()?;
    push_attr(out, sheet, entry.attr)?;
    out.space()?;
    out.begin()?;
    push_values(out, sheet, &entry.values)?;
    out.close()?;
    out.space()?;
    out.number(entry.points)?;
    out.close()
}

/// Adds each with a space between them.
pub fn push_entries(
    out: &mut Printer,
    sheet: &Sheet,
    entries: &[PointEntry],
) -> Result<(), AllocError>
    ensures { OnOk result (out.new.bytes.items ≡ out.old.bytes.items
        ++ printed_parts (packed (map (entry_form (naming_seen sheet.now)) (map entry_of entries.now)))) }
{
    let Some((first, others)) = entries.split_first() else {
        return Ok(());
    };
    push_entry(out, sheet, first)?;
    for entry in others {
        out.space()?;
        push_entry(out, sheet, entry)?;
    }
    Ok(())
}

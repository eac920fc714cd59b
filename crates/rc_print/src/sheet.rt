//! Prints a whole sheet.
ghost use Rattle.std.specs.Prelude.{◌≡◌, ◌++◌, IfOk, OnOk};
ghost use Rattle.rc_base.specs.Tree.{printed, printed_behind};
ghost use Rattle.rc_sheet_spec.specs.Printing.{packed, setup_forms, scoring_form, best_form, printed_sheet};
ghost use Rattle.rc_ast.specs.Sheet.{sheet_seen, best_seen};

use crate::expressions::push_int;
use crate::items::push_items;
use crate::printer::Printer;
use crate::setup::{push_decks, push_maps, push_players, push_teams};
use crate::words::Variable;
use rc_ast::{Best, Sheet};
use rc_deck::Memory;
use std::alloc::{AllocError, Global};

/// The text of a sheet on one line, without the line's end: one space between parts and none elsewhere, the lines of
/// the setup in the order players, teams, decks, points, and numbers without leading zeros.
///
/// # Errors
///
/// No memory is left.
pub fn print_sheet(alloc: Global, sheet: &Sheet) -> Result<Vec<u8>, Memory>
    ensures bytes { IfOk result (λ bytes. bytes.items ≡ printed_sheet (sheet_seen sheet.now)) }
{
    let mut out = Printer {
        alloc,
        bytes: Vec::new(alloc),
    };
    out.open("game (setup")?;
    push_setup(&mut out, sheet)?;
    out.close()?;
    push_items(&mut out, sheet, &sheet.items)?;
    out.space()?;
    push_scoring(&mut out, sheet)?;
    out.close()?;
    let Printer { bytes, .. } = out;
    Ok(bytes)
}

/// Adds the lines of the setup, each with a space before it.
fn push_setup(out: &mut Printer, sheet: &Sheet) -> Result<(), AllocError>
    ensures { OnOk result (out.new.bytes.items ≡ out.old.bytes.items
        ++ printed_behind (packed (setup_forms (sheet_seen sheet.now)))) }
{
    out.space()?;
    push_players(out, sheet.players)?;
    push_teams(out, &sheet.teams)?;
    push_decks(out, sheet, &sheet.decks)?;
    push_maps(out, sheet, &sheet.points)
}

fn push_best(out: &mut Printer, best: Best) -> Result<(), AllocError>
    ensures { OnOk result (out.new.bytes.items ≡ out.old.bytes.items ++ printed (best_form (best_seen best))) }
{
    match best {
        Best::Max => out.keyword("max"),
        Best::Min => out.keyword("min"),
    }
}

fn push_scoring(out: &mut Printer, sheet: &Sheet) -> Result<(), AllocError>
    ensures { OnOk result (out.new.bytes.items ≡ out.old.bytes.items ++ printed (scoring_form (sheet_seen sheet.now))) }
{
    out.open("scoring")?;
    out.space()?;
    push_best(out, sheet.best)?;
    push_int(out, sheet, &[Variable::Own], &sheet.score)?;
    out.close()
}

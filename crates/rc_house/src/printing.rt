//! Sheets as they are printed.
ghost use Rattle.std.specs.Prelude.{◌≡◌, IfOk};
ghost use Rattle.rc_base.specs.Transcript.{line};
ghost use Rattle.rc_sheet_spec.specs.Printing.{printed_sheet};
ghost use Rattle.rc_ast.specs.Sheet.{sheet_seen};

use rc_ast::Sheet;
use rc_deck::Memory;
use rc_print::print_sheet;
use std::alloc::Global;

/// A sheet as it is printed on a line. Memory may run out.
pub fn print_line(alloc: Global, sheet: &Sheet) -> Result<Vec<u8>, Memory>
    ensures { IfOk result (λ bytes. bytes.items ≡ line (printed_sheet (sheet_seen sheet.now))) }
{
    let mut bytes = print_sheet(alloc, sheet)?;
    bytes.push(b'\n')?;
    Ok(bytes)
}

//! Code of sheets.
ghost use Rattle.std.specs.Prelude.{◌≡◌, IfOk};
ghost use Rattle.rc_code.specs.Seen.{code_seen};
ghost use Rattle.rc_code.specs.Stands.{StandsFor};

use crate::code::Code;
use crate::items::push_items;
use rc_deck::Memory;
use rc_flow::Checked;
use std::alloc::Global;

/// Code that stands for the sheet.
pub fn compile(alloc: Global, checked: &Checked) -> Result<Code, Memory>
    ensures { IfOk result (λ code. StandsFor checked.now (code_seen code)) }
{
    let mut list = Vec::new(alloc);
    let mut outer = Vec::new(alloc);
    let mut sites = Vec::new(alloc);
    match push_items(
        alloc,
        &checked.sheet().items,
        &mut list,
        &mut outer,
        &mut sites,
    ) {
        Ok(()) => Ok(Code { list, sites }),
        Err(Memory) => Err(Memory),
    }
}

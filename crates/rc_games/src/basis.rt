//! What matches of a sheet share.
ghost use Rattle.std.specs.Prelude.{◌≡◌, IfOk};
ghost use Rattle.rc_play_spec.specs.Shape.{shape_of as shape_for};

use crate::sheets::{NoGame, checked_sheet, sheet_in};
use rc_deck::Memory;
use rc_flow::Checked;
use rc_rules::shape_of;
use rc_table::Shape;
use std::alloc::Global;
use std::sync::Arc;

/// A checked sheet, and the shape of its tables.
#[derive(Drop)]
pub struct Basis {
    pub checked: Arc<Checked>,
    pub shape: Arc<Shape>,
}

impl Basis {
    /// What matches of this sheet share.
    pub fn new(alloc: Global, checked: Checked) -> Result<Basis, Memory>
        ensures { IfOk result (λ basis. basis.shape.value ≡ shape_for basis.checked.value) }
    {
        let shape = shape_of(alloc, checked.sheet())?;
        let shape = Arc::new(alloc, shape)?;
        let checked = Arc::new(alloc, checked)?;
        Ok(Basis { checked, shape })
    }
}

/// What matches of the sheet in a text share.
pub fn basis_in(alloc: Global, text: &[u8]) -> Result<Basis, NoGame>
    ensures { IfOk result (λ basis. basis.shape.value ≡ shape_for basis.checked.value) }
{
    let sheet = sheet_in(alloc, text)?;
    let checked = checked_sheet(sheet)?;
    Ok(Basis::new(alloc, checked)?)
}

//! Totals of playouts.
ghost use Rattle.std.specs.Prelude.{◌≡◌, IfOk};

use rc_deck::Memory;
use std::alloc::Global;

/// What each item of a menu gains over all rounds, in rank points.
#[derive(Debug, Drop)]
pub struct Tally {
    pub totals: Vec<u32>,
}

impl Tally {
    /// The same tally once more. Memory may run out.
    pub fn copy(&self, alloc: Global) -> Result<Tally, Memory>
        ensures { IfOk result (λ copy. copy.totals.items ≡ self.now.totals.items) }
    {
        let totals = Vec::from_slice(alloc, &self.totals)?;
        Ok(Tally { totals })
    }
}

//! Legends of sheets.
ghost use Rattle.std.specs.Prelude.{◌≡◌, [], IfOk};
ghost use Rattle.rc_play_spec.specs.Reading.{lines_in};
ghost use Rattle.rc_house.specs.Legend.{HasLegend, IsLegend};

use crate::options::Format;
use rc_deck::Memory;
use rc_flow::Checked;
use rc_play_spec::legends_are_cut;
use rc_rules::shape_of;
use rc_text::legend;
use std::alloc::Global;

/// The legend of a sheet: its faces by their numbers. Memory may run out.
pub(crate) fn legend_of(alloc: Global, checked: &Checked) -> Result<Vec<u8>, Memory>
    ensures { IfOk result (λ bytes. IsLegend checked.now bytes.items) }
{
    legends_are_cut();
    let sheet = checked.sheet();
    let shape = shape_of(alloc, sheet)?;
    legend(alloc, sheet, &shape)
}

/// The legend that a transcript of this format has: that of the sheet, or none. Memory may run out.
pub fn legend_for(alloc: Global, format: Format, checked: &Checked) -> Result<Vec<u8>, Memory>
    ensures legend { IfOk result (λ bytes. HasLegend format checked.now bytes.items) }

    // It has whole lines alone.
    ensures cut { IfOk result (λ bytes. (lines_in bytes.items).1 ≡ []) }
{
    match format {
        Format::Plain => Ok(Vec::new(alloc)),
        Format::Named => legend_of(alloc, checked),
    }
}

//! What a machine starts from: what its match is played by, and the site at which it stands.
ghost use Rattle.std.specs.Prelude.{◌≡◌, IsSome, IfOk, Some};
ghost use Rattle.rc_play_spec.specs.Shape.{shape_of};

use rc_deck::Memory;
use rc_flow::Checked;
use rc_rules::{About, Control};
use rc_table::Shape;
use std::alloc::Global;
use std::sync::Arc;

/// What the match of a checked sheet is played by, with so many turns at most.
///
/// # Errors
///
/// There is no memory.
pub fn about_of(
    alloc: Global,
    checked: &Arc<Checked>,
    shape: &Arc<Shape>,
    turns: u32,
) -> Result<About, Memory>
    requires { shape.now.value ≡ shape_of checked.now.value }
    ensures { IfOk result (λ about. about
        ≡ record { sheet = checked.now.value; shape = shape.now.value; turns = turns }) }
{
    let checked = Arc::try_clone(checked)?;
    let shape = Arc::try_clone(shape)?;
    About::new(alloc, checked, shape, turns)
}

/// The site of a control that has one.
pub fn site_of(control: &Control) -> u8
    requires { IsSome control.now.site }
    ensures { control.now.site ≡ Some result }
{
    match control.site {
        Some(site) => site,
        None => unreachable!(),
    }
}

//! What the matches of a sheet are played by, shared by all that play them.
ghost use Rattle.std.specs.Prelude.{◌≡◌, IfOk};
ghost use Rattle.rc_play_spec.specs.About.{about_of};

use crate::{About, shape_of};
use rc_deck::Memory;
use rc_flow::Checked;
use std::alloc::Global;
use std::sync::Arc;

/// What the matches of a checked sheet are played by. Memory may run out.
pub fn shared_about(alloc: Global, checked: Checked, turns: u32) -> Result<Arc<About>, Memory>
    ensures { IfOk result (λ about. about.value ≡ about_of checked turns) }
{
    let shape = shape_of(alloc, checked.sheet())?;
    let shape = Arc::new(alloc, shape)?;
    let checked = Arc::new(alloc, checked)?;
    let about = About::new(alloc, checked, shape, turns)?;
    Ok(Arc::new(alloc, about)?)
}

//! Code that is shared by what plays on it.
ghost use Rattle.std.specs.Prelude.{IfOk};
ghost use Rattle.rc_code.specs.Seen.{code_seen};
ghost use Rattle.rc_code.specs.Stands.{StandsFor};

use rc_code::{Code, compile};
use rc_deck::Memory;
use rc_rules::About;
use std::alloc::Global;
use std::sync::Arc;

/// The code of what matches are played by. It stands for the sheet. Memory may run out.
pub fn shared_code(alloc: Global, about: &About) -> Result<Arc<Code>, Memory>
    ensures { IfOk result (λ code. StandsFor about.now.sheet (code_seen code.value)) }
{
    let code = compile(alloc, about.checked_sheet())?;
    Ok(Arc::new(alloc, code)?)
}

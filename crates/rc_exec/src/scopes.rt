//! One variable more.
ghost use Rattle.std.specs.Prelude.{◌≡◌, ◌<◌, [], ◌∷◌, ◌++◌, length};
ghost use Rattle.rc_value.specs.Seen.{bind_seen};

use rc_value::{Bind, Bindings};

/// These variables and one more inside them. Most often there is none outside, and then none is copied.
#[inline(always)]
pub fn one_more<'g>(scope: &Bindings<'g>, bind: Bind<'g>) -> Bindings<'g>
    requires { length scope.now < 5 }
    ensures { result ≡ scope.now ++ bind_seen bind.entry ∷ [] }
{
    if scope.len() == 0 {
        return Bindings::empty().with(bind);
    }
    scope.with(bind)
}

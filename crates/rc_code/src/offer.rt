//! Alternatives of a choice, of which menus are made again and again.

use crate::guards::{Guard, guard_of};
use rc_ast::Alt;
use std::marker::Model;

/// An alternative of a choice outside all binders, with its guard in parts if it has such a one.
pub struct Offer {
    alt: Alt,
    guard: Option<Guard>,
}

impl Drop for Offer {
    // a derived drop is proved again wherever an alternative is dropped, and this one once
    fn drop(self) {
        let Offer {
            alt: _alt,
            guard: _guard,
        } = self;
    }
}

impl Model for Offer {
    ghost use Rattle.std.specs.Prelude.{◌≡◌, is_some, IfSome};
    ghost use Rattle.rc_sheet_spec.specs.Sheet.{Alt as PureAlt};
    ghost use Rattle.rc_ast.specs.Items.{alt_seen};
    ghost use Rattle.rc_code.specs.Codes.{coded_alt};
    ghost use Rattle.rc_code.specs.Guards.{IsGuardOf};
    ghost use Rattle.rc_code.specs.GuardParts.{has_guard};

    ghost Value = { PureAlt };

    ghost coded = { coded_alt };

    ghost view = { λ o. alt_seen o.alt };

    ghost invariant = { λ o. IfSome o.guard (IsGuardOf (alt_seen o.alt))
        × (is_some o.guard ≡ has_guard (alt_seen o.alt)) };
}

impl Offer {
    ghost use Rattle.std.specs.Prelude.{◌≡◌, is_some, IfSome};
    ghost use Rattle.rc_ast.specs.Items.{alt_seen};
    ghost use Rattle.rc_code.specs.Guards.{IsGuardOf};
    ghost use Rattle.rc_code.specs.GuardParts.{has_guard};

    /// An alternative of which menus are to be made.
    pub fn new(alt: Alt) -> Offer
        ensures { result ≡ alt_seen alt }
    {
        let guard = guard_of(&alt);
        Offer { alt, guard }
    }

    /// The alternative.
    #[inline(always)]
    pub fn alt(&self) -> &Alt
        ensures { alt_seen result.now ≡ self.now }
    {
        &self.alt
    }

    /// Its guard in parts, if it has such a one.
    #[inline(always)]
    pub fn guard(&self) -> Option<&Guard>
        ensures meaning { IfSome result (λ guard. IsGuardOf self.now guard.now) }
        ensures found { is_some result ≡ has_guard self.now }
    {
        match &self.guard {
            Some(guard) => Some(guard),
            None => None,
        }
    }
}

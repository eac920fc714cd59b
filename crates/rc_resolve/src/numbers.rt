//! The numbers of attributes and values.
ghost use Rattle.std.specs.Prelude.{◌≡◌};
ghost use Rattle.rc_form.specs.Form.{tree_of};
ghost use Rattle.rc_resolve.specs.NamedNumbers.{number_of};

use rc_form::Form;

/// What gives numbers to the attributes and the values that forms name, of which there are at most 65,536 each.
pub trait Numbers {
    ghost use Rattle.rc_resolve.specs.NamedNumbers.{DeckNames};
    ghost use Rattle.rc_resolve.specs.NamedNumbers.{AreFew};

    ghost words: { Self → DeckNames };

    /// The number of the attribute that a form is.
    fn attr_number(&self, form: &Form) -> Option<u16>
        requires { AreFew (words self.now) }
        ensures { result ≡ number_of (words self.now).attrs (tree_of form.now) };

    /// The number of the value that a form is.
    fn value_number(&self, form: &Form) -> Option<u16>
        requires { AreFew (words self.now) }
        ensures { result ≡ number_of (words self.now).values (tree_of form.now) };
}

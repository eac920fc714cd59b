//! Tests that are asked again and again.

use crate::flat::{FlatTest, flat_of};
use rc_ast::Test;
use std::marker::Model;

/// A test, with its flat form if it has one.
pub struct CompiledTest {
    test: Test,
    flat: Option<FlatTest>,
}

impl Drop for CompiledTest {
    // a derived drop is proved again wherever such a test is dropped, and this one once
    fn drop(self) {
        let CompiledTest {
            test: _test,
            flat: _flat,
        } = self;
    }
}

impl Model for CompiledTest {
    ghost use Rattle.rc_sheet_spec.specs.Sheet.{Test as PureTest};
    ghost use Rattle.rc_ast.specs.Expressions.{test_seen};
    ghost use Rattle.rc_flow.specs.Codes.{coded_test};
    ghost use Rattle.std.specs.Prelude.{◌≡◌, is_some};
    ghost use Rattle.rc_code.specs.FlatMeaning.{IsFlatForm};
    ghost use Rattle.rc_code.specs.Flatness.{has_flat_form};

    ghost Value = { PureTest };

    ghost coded = { coded_test };

    ghost view = { λ a. test_seen a.test };

    ghost invariant = { λ a. IsFlatForm (test_seen a.test) a.flat
        × (is_some a.flat ≡ has_flat_form (test_seen a.test)) };
}

impl CompiledTest {
    ghost use Rattle.std.specs.Prelude.{◌≡◌, is_some, IfSome};
    ghost use Rattle.rc_ast.specs.Expressions.{test_seen};
    ghost use Rattle.rc_code.specs.FlatMeaning.{flat_meant};
    ghost use Rattle.rc_code.specs.Flatness.{has_flat_form};

    /// A test that is to be asked.
    pub fn new(test: Test) -> CompiledTest
        ensures { result ≡ test_seen test }
    {
        let flat = flat_of(&test);
        CompiledTest { test, flat }
    }

    /// The test.
    #[inline(always)]
    pub fn test(&self) -> &Test
        ensures { test_seen result.now ≡ self.now }
    {
        &self.test
    }

    /// Its flat form, if it has one.
    #[inline(always)]
    pub fn flat(&self) -> Option<&FlatTest>
        ensures same { IfSome result (λ flat. flat_meant flat.now ≡ self.now) }
        ensures found { is_some result ≡ has_flat_form self.now }
    {
        match &self.flat {
            Some(flat) => Some(flat),
            None => None,
        }
    }
}

//! Tests with no other test inside them.
ghost use Rattle.std.specs.Prelude.{◌≡◌, ◌&&◌, is_some, IfSome};
ghost use Rattle.rc_sheet_spec.specs.Sheet.{eq_attr};
ghost use Rattle.rc_ast.specs.Expressions.{card_seen, int_seen, test_seen};
ghost use Rattle.rc_code.specs.FlatMeaning.{comparison_meant, compared};
ghost use Rattle.rc_code.specs.Flatness.{is_top, is_at_hand, is_comparison};

use crate::amounts::{Amount, amount_of, topped_by};
use rc_ast::{CardExpr, IntExpr, Loc, Test};

/// How a number is to compare with another.
#[derive(Clone, Copy)]
pub enum Comparator {
    Equal,
    Less,
    AtMost,
    More,
    AtLeast,
}

/// A comparison of two numbers, or of the values that the top cards of two locations have for an attribute each.
#[derive(Clone, Copy)]
pub enum Comparison {
    Compare {
        how: Comparator,
        one: Amount,
        other: Amount,
    },
    Same {
        one: Loc,
        name: u16,
        other: Loc,
        other_name: u16,
    },
}

fn compare_of(how: Comparator, a: &IntExpr, b: &IntExpr) -> Option<Comparison>
    ensures same { IfSome result (λ comparison. comparison_meant comparison
        ≡ compared how (int_seen a.now) (int_seen b.now)) }
    ensures found { is_some result ≡ is_at_hand (int_seen a.now) && is_at_hand (int_seen b.now) }
{
    match amount_of(a) {
        Some(one) => match amount_of(b) {
            Some(other) => Some(Comparison::Compare { how, one, other }),
            None => None,
        },
        None => None,
    }
}

fn same_of(a: &CardExpr, name: u16, b: &CardExpr, other_name: u16) -> Option<Comparison>
    ensures same { IfSome result (λ comparison. comparison_meant comparison
        ≡ eq_attr (card_seen a.now) name (card_seen b.now) other_name) }
    ensures found { is_some result ≡ is_top (card_seen a.now) && is_top (card_seen b.now) }
{
    match topped_by(a) {
        Some(one) => match topped_by(b) {
            Some(other) => Some(Comparison::Same {
                one,
                name,
                other,
                other_name,
            }),
            None => None,
        },
        None => None,
    }
}

/// A test in flat form, if it has no other test inside it and has one.
pub(crate) fn comparison_of(test: &Test) -> Option<Comparison>
    ensures same { IfSome result (λ comparison. comparison_meant comparison ≡ test_seen test.now) }
    ensures found { is_some result ≡ is_comparison (test_seen test.now) }
{
    match test {
        Test::EqInt(a, b) => compare_of(Comparator::Equal, a, b),
        Test::Less(a, b) => compare_of(Comparator::Less, a, b),
        Test::LessEq(a, b) => compare_of(Comparator::AtMost, a, b),
        Test::More(a, b) => compare_of(Comparator::More, a, b),
        Test::MoreEq(a, b) => compare_of(Comparator::AtLeast, a, b),
        Test::EqAttr(a, name, b, other) => same_of(a, *name, b, *other),
        _ => None,
    }
}

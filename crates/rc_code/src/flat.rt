//! Tests in flat form.
ghost use Rattle.std.specs.Prelude.{◌≡◌, ◌&&◌, is_some, IfSome};
ghost use Rattle.rc_sheet_spec.specs.Sheet.{all_of, and_of, cards_in, each_player, eq_int, literal, size_of};
ghost use Rattle.rc_ast.specs.Names.{loc_seen};
ghost use Rattle.rc_ast.specs.Expressions.{coll_seen, domain_seen, int_seen, test_seen, tests_seen};
ghost use Rattle.rc_code.specs.FlatMeaning.{flat_meant, IsFlatForm};
ghost use Rattle.rc_code.specs.Flatness.{are_players, are_two_comparisons, counts_own, has_flat_form, is_comparison, is_outermost, is_own, is_own_size, is_written_out};

use crate::atoms::{Comparison, comparison_of};
use rc_ast::{CollExpr, Domain, IntExpr, Loc, Test, Who};

/// A test in flat form: one comparison, two that are both to hold, or whether each player has so many cards in a
/// location of his, outside all binders. Beside that stand the number of its variable's word and the offset of the
/// location's form.
#[derive(Clone, Copy)]
pub enum FlatTest {
    One(Comparison),
    Both(Comparison, Comparison),
    EachHas {
        bound: u32,
        name: u16,
        at: u32,
        count: i64,
    },
}

fn both_of(tests: &Vec<Test>) -> Option<FlatTest>
    ensures same { IfSome result (λ flat. flat_meant flat ≡ and_of (tests_seen tests.now.items)) }
    ensures found { is_some result ≡ are_two_comparisons (tests_seen tests.now.items) }
{
    if tests.len() != 2 {
        return None;
    }
    match comparison_of(&tests[0]) {
        Some(one) => match comparison_of(&tests[1]) {
            Some(other) => Some(FlatTest::Both(one, other)),
            None => None,
        },
        None => None,
    }
}

// So many in a location of the player that the outermost variable stands for.
fn each_has(bound: u32, loc: &Loc, count: i64) -> Option<FlatTest>
    ensures same { IfSome result (λ flat. flat_meant flat
        ≡ all_of each_player bound (eq_int (size_of (cards_in (loc_seen loc.now))) (literal count))) }
    ensures found { is_some result ≡ is_outermost (loc_seen loc.now).who }
{
    match loc.who {
        Who::Var(0) => Some(FlatTest::EachHas {
            bound,
            name: loc.name,
            at: loc.at,
            count,
        }),
        _ => None,
    }
}

// As many as a number, if it is a literal.
fn each_has_literal(bound: u32, loc: &Loc, expr: &IntExpr) -> Option<FlatTest>
    ensures same { IfSome result (λ flat. flat_meant flat
        ≡ all_of each_player bound (eq_int (size_of (cards_in (loc_seen loc.now))) (int_seen expr.now))) }
    ensures found { is_some result ≡ is_outermost (loc_seen loc.now).who && is_written_out (int_seen expr.now) }
{
    match expr {
        IntExpr::Lit(count) => each_has(bound, loc, *count),
        _ => None,
    }
}

fn each_size(bound: u32, cards: &CollExpr, expr: &IntExpr) -> Option<FlatTest>
    ensures same { IfSome result (λ flat. flat_meant flat
        ≡ all_of each_player bound (eq_int (size_of (coll_seen cards.now)) (int_seen expr.now))) }
    ensures found { is_some result ≡ is_own (coll_seen cards.now) && is_written_out (int_seen expr.now) }
{
    match cards {
        CollExpr::Loc(loc) => each_has_literal(bound, loc, expr),
        _ => None,
    }
}

fn each_equal(bound: u32, a: &IntExpr, b: &IntExpr) -> Option<FlatTest>
    ensures same { IfSome result (λ flat. flat_meant flat
        ≡ all_of each_player bound (eq_int (int_seen a.now) (int_seen b.now))) }
    ensures found { is_some result ≡ is_own_size (int_seen a.now) && is_written_out (int_seen b.now) }
{
    match a {
        IntExpr::Size(cards) => each_size(bound, cards, b),
        _ => None,
    }
}

fn of_each(bound: u32, test: &Test) -> Option<FlatTest>
    ensures same { IfSome result (λ flat. flat_meant flat ≡ all_of each_player bound (test_seen test.now)) }
    ensures found { is_some result ≡ counts_own (test_seen test.now) }
{
    match test {
        Test::EqInt(a, b) => each_equal(bound, a, b),
        _ => None,
    }
}

// A test of all members of a domain in flat form, if they are the players and it has one.
fn all_in(domain: &Domain, bound: u32, test: &Test) -> Option<FlatTest>
    ensures same { IfSome result (λ flat. flat_meant flat
        ≡ all_of (domain_seen domain.now) bound (test_seen test.now)) }
    ensures found { is_some result ≡ are_players (domain_seen domain.now) && counts_own (test_seen test.now) }
{
    match domain {
        Domain::Players => of_each(bound, test),
        _ => None,
    }
}

fn one_of(test: &Test) -> Option<FlatTest>
    ensures same { IfSome result (λ flat. flat_meant flat ≡ test_seen test.now) }
    ensures found { is_some result ≡ is_comparison (test_seen test.now) }
{
    match comparison_of(test) {
        Some(comparison) => Some(FlatTest::One(comparison)),
        None => None,
    }
}

/// A test in flat form, if it has one.
pub(crate) fn flat_of(test: &Test) -> Option<FlatTest>
    ensures same { IsFlatForm (test_seen test.now) result }
    ensures found { is_some result ≡ has_flat_form (test_seen test.now) }
{
    match test {
        Test::And(tests) => both_of(tests),
        Test::All(domain, bound, inner) => all_in(domain, *bound, inner),
        _ => one_of(test),
    }
}

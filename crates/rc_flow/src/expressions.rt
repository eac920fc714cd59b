//! The locations of expressions and tests. Each function gives the least of the offset that was found before and those
//! of the expression's locations out of sight.
ghost use Rattle.std.specs.Prelude.{◌≡◌, map};
ghost use Rattle.rc_sheet_spec.specs.Sight.{locs_in_card, locs_in_coll, locs_in_colls, locs_in_int, locs_in_test, locs_in_tests, locs_in_domain};
ghost use Rattle.rc_ast.specs.Names.{loc_name_seen};
ghost use Rattle.rc_ast.specs.Expressions.{card_seen, coll_seen, colls_seen, int_seen, test_seen, tests_seen, domain_seen};
ghost use Rattle.rc_flow.specs.Least.{least_with};

use crate::location::in_loc;
use rc_ast::{CardExpr, CollExpr, Domain, IntExpr, LocName, Test};

#[cycle(expressions)]
fn in_card(names: &[LocName], card: &CardExpr, found: Option<u32>) -> Option<u32>
    ensures { result ≡ least_with (map loc_name_seen names.now) found (locs_in_card (card_seen card.now)) }
{
    match card {
        CardExpr::Var(_) => found,
        CardExpr::Top(cards) => in_coll(names, cards, found),
        CardExpr::Bottom(cards) => in_coll(names, cards, found),
        CardExpr::Max(cards, _) => in_coll(names, cards, found),
        CardExpr::Min(cards, _) => in_coll(names, cards, found),
    }
}

#[cycle(expressions)]
#[tactic(auto, using(crate::proofs::LeastLemmas::least_append))]
fn in_coll(names: &[LocName], cards: &CollExpr, found: Option<u32>) -> Option<u32>
    ensures { result ≡ least_with (map loc_name_seen names.now) found (locs_in_coll (coll_seen cards.now)) }
{
    match cards {
        CollExpr::Var(_) => found,
        CollExpr::Loc(loc) => in_loc(names, loc, found),
        CollExpr::Filter(cards, _, test) => in_test(names, test, in_coll(names, cards, found)),
        CollExpr::Union(parts) => in_colls(names, parts, found),
        CollExpr::Known(_) => found,
    }
}

#[cycle(expressions)]
fn in_colls(names: &[LocName], parts: &Vec<CollExpr>, found: Option<u32>) -> Option<u32>
    ensures { result ≡ least_with (map loc_name_seen names.now) found (locs_in_colls (colls_seen parts.now.items)) }
{
    let mut least = found;
    for cards in parts {
        least = in_coll(names, cards, least);
    }
    least
}

#[cycle(expressions)]
#[tactic(auto, using(crate::proofs::LeastLemmas::least_append))]
fn in_int(names: &[LocName], int: &IntExpr, found: Option<u32>) -> Option<u32>
    ensures { result ≡ least_with (map loc_name_seen names.now) found (locs_in_int (int_seen int.now)) }
{
    match int {
        IntExpr::Lit(_) => found,
        IntExpr::Num(_) => found,
        IntExpr::Size(cards) => match &**cards {
            CollExpr::Loc(_) => found,
            inner => in_coll(names, inner, found),
        },
        IntExpr::Sum(cards, _) => in_coll(names, cards, found),
        IntExpr::Points(card, _) => in_card(names, card, found),
        IntExpr::Add(a, b) => in_int(names, b, in_int(names, a, found)),
        IntExpr::Sub(a, b) => in_int(names, b, in_int(names, a, found)),
        IntExpr::Mul(a, b) => in_int(names, b, in_int(names, a, found)),
    }
}

#[cycle(expressions)]
#[tactic(auto, using(crate::proofs::LeastLemmas::least_append))]
pub fn in_test(names: &[LocName], test: &Test, found: Option<u32>) -> Option<u32>
    ensures { result ≡ least_with (map loc_name_seen names.now) found (locs_in_test (test_seen test.now)) }
{
    match test {
        Test::EqInt(a, b) => in_int(names, b, in_int(names, a, found)),
        Test::EqCard(a, b) => in_card(names, b, in_card(names, a, found)),
        Test::EqAttr(a, _, b, _) => in_card(names, b, in_card(names, a, found)),
        Test::EqWho(_, _) => found,
        Test::Ne(inner) => in_test(names, inner, found),
        Test::Less(a, b) => in_int(names, b, in_int(names, a, found)),
        Test::LessEq(a, b) => in_int(names, b, in_int(names, a, found)),
        Test::More(a, b) => in_int(names, b, in_int(names, a, found)),
        Test::MoreEq(a, b) => in_int(names, b, in_int(names, a, found)),
        Test::Is(card, _, _) => in_card(names, card, found),
        Test::And(tests) => in_tests(names, tests, found),
        Test::Or(tests) => in_tests(names, tests, found),
        Test::Not(inner) => in_test(names, inner, found),
        Test::All(domain, _, inner) => in_test(names, inner, in_domain(names, domain, found)),
        Test::Any(domain, _, inner) => in_test(names, inner, in_domain(names, domain, found)),
    }
}

#[cycle(expressions)]
fn in_tests(names: &[LocName], tests: &Vec<Test>, found: Option<u32>) -> Option<u32>
    ensures { result ≡ least_with (map loc_name_seen names.now) found (locs_in_tests (tests_seen tests.now.items)) }
{
    let mut least = found;
    for test in tests {
        least = in_test(names, test, least);
    }
    least
}

#[cycle(expressions)]
pub fn in_domain(names: &[LocName], domain: &Domain, found: Option<u32>) -> Option<u32>
    ensures { result ≡ least_with (map loc_name_seen names.now) found (locs_in_domain (domain_seen domain.now)) }
{
    match domain {
        Domain::Players => found,
        Domain::Coll(cards) => in_coll(names, cards, found),
        Domain::Parts(cards, _) => in_coll(names, cards, found),
    }
}

//! Whether an expression reads a variable, by the variable's place among those in scope.
ghost use Rattle.std.specs.Prelude.{◌≡◌};
ghost use Rattle.rc_ast.specs.Names.{who_seen};
ghost use Rattle.rc_ast.specs.Expressions.{card_seen, coll_seen, colls_seen, int_seen, test_seen, tests_seen, domain_seen};
ghost use Rattle.rc_flow.specs.Reads.{reads_who, reads_card, reads_coll, reads_colls, reads_int, reads_test, reads_tests, reads_domain};

use rc_ast::{CardExpr, CollExpr, Domain, IntExpr, Test, Who};

#[inline(always)]
fn owner_reads(who: Who, place: usize) -> bool
    ensures { result ≡ reads_who place (who_seen who) }
{
    match who {
        Who::Game => false,
        Who::CurrentPlayer => false,
        Who::CurrentTeam => false,
        Who::TeamOfCurrent => false,
        Who::TeamOfVar(var) => var as usize == place,
        Who::Var(var) => var as usize == place,
    }
}

/// Whether a card's expression reads the variable.
#[cycle(reading)]
pub fn card_reads(expr: &CardExpr, place: usize) -> bool
    ensures { result ≡ reads_card place (card_seen expr.now) }
{
    match expr {
        CardExpr::Var(var) => *var as usize == place,
        CardExpr::Top(cards) => cards_read(cards, place),
        CardExpr::Bottom(cards) => cards_read(cards, place),
        CardExpr::Max(cards, _) => cards_read(cards, place),
        CardExpr::Min(cards, _) => cards_read(cards, place),
    }
}

// Most collections are those of a variable or of a location: these take no call.
#[cycle(reading)]
#[inline(always)]
fn cards_read(expr: &CollExpr, place: usize) -> bool
    ensures { result ≡ reads_coll place (coll_seen expr.now) }
{
    match expr {
        CollExpr::Var(var) => *var as usize == place,
        CollExpr::Loc(loc) => owner_reads(loc.who, place),
        _ => gathered_read(expr, place),
    }
}

#[cycle(reading)]
#[inline(never)]
fn gathered_read(expr: &CollExpr, place: usize) -> bool
    ensures { result ≡ reads_coll place (coll_seen expr.now) }
{
    match expr {
        CollExpr::Var(var) => *var as usize == place,
        CollExpr::Loc(loc) => owner_reads(loc.who, place),
        CollExpr::Filter(cards, _, test) => cards_read(cards, place) || test_reads(test, place),
        CollExpr::Union(parts) => some_part_reads(parts, place),
        CollExpr::Known(loc) => owner_reads(loc.who, place),
    }
}

#[cycle(reading)]
#[inline(never)]
fn some_part_reads(parts: &Vec<CollExpr>, place: usize) -> bool
    ensures { result ≡ reads_colls place (colls_seen parts.now.items) }
{
    for part in parts {
        if cards_read(part, place) {
            return true;
        }
    }
    false
}

#[cycle(reading)]
#[inline(always)]
fn number_reads(expr: &IntExpr, place: usize) -> bool
    ensures { result ≡ reads_int place (int_seen expr.now) }
{
    match expr {
        IntExpr::Lit(_) => false,
        IntExpr::Num(num) => owner_reads(num.who, place),
        IntExpr::Size(cards) => cards_read(cards, place),
        _ => calculated_reads(expr, place),
    }
}

#[cycle(reading)]
#[inline(never)]
fn calculated_reads(expr: &IntExpr, place: usize) -> bool
    ensures { result ≡ reads_int place (int_seen expr.now) }
{
    match expr {
        IntExpr::Lit(_) => false,
        IntExpr::Num(num) => owner_reads(num.who, place),
        IntExpr::Size(cards) => cards_read(cards, place),
        IntExpr::Sum(cards, _) => cards_read(cards, place),
        IntExpr::Points(card, _) => card_reads(card, place),
        IntExpr::Add(a, b) => number_reads(a, place) || number_reads(b, place),
        IntExpr::Sub(a, b) => number_reads(a, place) || number_reads(b, place),
        IntExpr::Mul(a, b) => number_reads(a, place) || number_reads(b, place),
    }
}

/// Whether a test reads the variable.
#[cycle(reading)]
pub fn test_reads(expr: &Test, place: usize) -> bool
    ensures { result ≡ reads_test place (test_seen expr.now) }
{
    match expr {
        Test::EqInt(a, b) => number_reads(a, place) || number_reads(b, place),
        Test::EqCard(a, b) => card_reads(a, place) || card_reads(b, place),
        Test::EqAttr(a, _, b, _) => card_reads(a, place) || card_reads(b, place),
        Test::EqWho(a, b) => owner_reads(*a, place) || owner_reads(*b, place),
        Test::Ne(inner) => test_reads(inner, place),
        Test::Less(a, b) => number_reads(a, place) || number_reads(b, place),
        Test::LessEq(a, b) => number_reads(a, place) || number_reads(b, place),
        Test::More(a, b) => number_reads(a, place) || number_reads(b, place),
        Test::MoreEq(a, b) => number_reads(a, place) || number_reads(b, place),
        Test::Is(card, _, _) => card_reads(card, place),
        Test::And(tests) => some_test_reads(tests, place),
        Test::Or(tests) => some_test_reads(tests, place),
        Test::Not(inner) => test_reads(inner, place),
        Test::All(domain, _, inner) => domain_reads(domain, place) || test_reads(inner, place),
        Test::Any(domain, _, inner) => domain_reads(domain, place) || test_reads(inner, place),
    }
}

#[cycle(reading)]
#[inline(never)]
fn some_test_reads(tests: &Vec<Test>, place: usize) -> bool
    ensures { result ≡ reads_tests place (tests_seen tests.now.items) }
{
    for test in tests {
        if test_reads(test, place) {
            return true;
        }
    }
    false
}

#[cycle(reading)]
#[inline(never)]
fn domain_reads(domain: &Domain, place: usize) -> bool
    ensures { result ≡ reads_domain place (domain_seen domain.now) }
{
    match domain {
        Domain::Players => false,
        Domain::Coll(cards) => cards_read(cards, place),
        Domain::Parts(cards, _) => cards_read(cards, place),
    }
}

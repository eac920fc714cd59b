//! Copies of the operands of instructions: the same tree once more, in memory of its own.
ghost use Rattle.std.specs.Prelude.{◌≡◌, map, IfOk};
ghost use Rattle.rc_ast.specs.Expressions.{card_seen, coll_seen, int_seen, test_seen, domain_seen};

use rc_ast::{CardExpr, CollExpr, Domain, IntExpr, Test};
use rc_deck::Memory;
use std::alloc::Global;

/// The same card once more.
#[cycle(copies)]
pub(crate) fn copy_card(alloc: Global, card: &CardExpr) -> Result<CardExpr, Memory>
    ensures { IfOk result (λ copy. card_seen copy ≡ card_seen card.now) }
{
    match card {
        CardExpr::Var(var) => Ok(CardExpr::Var(*var)),
        CardExpr::Top(cards) => Ok(CardExpr::Top(boxed_coll(alloc, cards)?)),
        CardExpr::Bottom(cards) => Ok(CardExpr::Bottom(boxed_coll(alloc, cards)?)),
        CardExpr::Max(cards, map) => Ok(CardExpr::Max(boxed_coll(alloc, cards)?, *map)),
        CardExpr::Min(cards, map) => Ok(CardExpr::Min(boxed_coll(alloc, cards)?, *map)),
    }
}

#[cycle(copies)]
fn boxed_card(alloc: Global, card: &CardExpr) -> Result<Box<CardExpr>, Memory>
    ensures { IfOk result (λ copy. card_seen copy.value ≡ card_seen card.now) }
{
    let copy = copy_card(alloc, card)?;
    Ok(Box::new(alloc, copy)?)
}

/// The same list of cards once more.
#[cycle(copies)]
pub(crate) fn copy_coll(alloc: Global, cards: &CollExpr) -> Result<CollExpr, Memory>
    ensures { IfOk result (λ copy. coll_seen copy ≡ coll_seen cards.now) }
{
    match cards {
        CollExpr::Var(var) => Ok(CollExpr::Var(*var)),
        CollExpr::Loc(loc) => Ok(CollExpr::Loc(*loc)),
        CollExpr::Filter(cards, bound, test) => {
            let cards = boxed_coll(alloc, cards)?;
            let test = boxed_test(alloc, test)?;
            Ok(CollExpr::Filter(cards, *bound, test))
        }
        CollExpr::Union(parts) => Ok(CollExpr::union_of(copy_colls(alloc, parts)?)),
        CollExpr::Known(loc) => Ok(CollExpr::Known(*loc)),
    }
}

#[cycle(copies)]
fn boxed_coll(alloc: Global, cards: &CollExpr) -> Result<Box<CollExpr>, Memory>
    ensures { IfOk result (λ copy. coll_seen copy.value ≡ coll_seen cards.now) }
{
    let copy = copy_coll(alloc, cards)?;
    Ok(Box::new(alloc, copy)?)
}

#[cycle(copies)]
fn copy_colls(alloc: Global, parts: &Vec<CollExpr>) -> Result<Vec<CollExpr>, Memory>
    ensures { IfOk result (λ copy. map coll_seen copy.items ≡ map coll_seen parts.now.items) }
{
    let mut copies = Vec::with_capacity(alloc, parts.len())?;
    for cards in parts {
        let copy = copy_coll(alloc, cards)?;
        copies.push(copy)?;
    }
    Ok(copies)
}

/// The same number once more.
#[cycle(copies)]
pub(crate) fn copy_int(alloc: Global, int: &IntExpr) -> Result<IntExpr, Memory>
    ensures { IfOk result (λ copy. int_seen copy ≡ int_seen int.now) }
{
    match int {
        IntExpr::Lit(value) => Ok(IntExpr::Lit(*value)),
        IntExpr::Num(num) => Ok(IntExpr::Num(*num)),
        IntExpr::Size(cards) => Ok(IntExpr::Size(boxed_coll(alloc, cards)?)),
        IntExpr::Sum(cards, map) => Ok(IntExpr::Sum(boxed_coll(alloc, cards)?, *map)),
        IntExpr::Points(card, map) => Ok(IntExpr::Points(boxed_card(alloc, card)?, *map)),
        IntExpr::Add(a, b) => Ok(IntExpr::Add(boxed_int(alloc, a)?, boxed_int(alloc, b)?)),
        IntExpr::Sub(a, b) => Ok(IntExpr::Sub(boxed_int(alloc, a)?, boxed_int(alloc, b)?)),
        IntExpr::Mul(a, b) => Ok(IntExpr::Mul(boxed_int(alloc, a)?, boxed_int(alloc, b)?)),
    }
}

#[cycle(copies)]
fn boxed_int(alloc: Global, int: &IntExpr) -> Result<Box<IntExpr>, Memory>
    ensures { IfOk result (λ copy. int_seen copy.value ≡ int_seen int.now) }
{
    let copy = copy_int(alloc, int)?;
    Ok(Box::new(alloc, copy)?)
}

/// The same test once more.
#[cycle(copies)]
pub(crate) fn copy_test(alloc: Global, test: &Test) -> Result<Test, Memory>
    ensures { IfOk result (λ copy. test_seen copy ≡ test_seen test.now) }
{
    match test {
        Test::EqInt(a, b) => Ok(Test::EqInt(boxed_int(alloc, a)?, boxed_int(alloc, b)?)),
        Test::EqCard(a, b) => Ok(Test::EqCard(boxed_card(alloc, a)?, boxed_card(alloc, b)?)),
        Test::EqAttr(a, attr, b, other) => {
            let a = boxed_card(alloc, a)?;
            Ok(Test::EqAttr(a, *attr, boxed_card(alloc, b)?, *other))
        }
        Test::EqWho(a, b) => Ok(Test::EqWho(*a, *b)),
        Test::Ne(inner) => Ok(Test::Ne(boxed_test(alloc, inner)?)),
        Test::Less(a, b) => Ok(Test::Less(boxed_int(alloc, a)?, boxed_int(alloc, b)?)),
        Test::LessEq(a, b) => Ok(Test::LessEq(boxed_int(alloc, a)?, boxed_int(alloc, b)?)),
        Test::More(a, b) => Ok(Test::More(boxed_int(alloc, a)?, boxed_int(alloc, b)?)),
        Test::MoreEq(a, b) => Ok(Test::MoreEq(boxed_int(alloc, a)?, boxed_int(alloc, b)?)),
        Test::Is(card, attr, value) => Ok(Test::Is(boxed_card(alloc, card)?, *attr, *value)),
        Test::And(tests) => Ok(Test::and_of(copy_tests(alloc, tests)?)),
        Test::Or(tests) => Ok(Test::or_of(copy_tests(alloc, tests)?)),
        Test::Not(inner) => Ok(Test::Not(boxed_test(alloc, inner)?)),
        Test::All(domain, bound, inner) => {
            let inner = boxed_test(alloc, inner)?;
            Ok(Test::All(copy_domain(alloc, domain)?, *bound, inner))
        }
        Test::Any(domain, bound, inner) => {
            let inner = boxed_test(alloc, inner)?;
            Ok(Test::Any(copy_domain(alloc, domain)?, *bound, inner))
        }
    }
}

/// The same test once more, in a box.
#[cycle(copies)]
pub(crate) fn boxed_test(alloc: Global, test: &Test) -> Result<Box<Test>, Memory>
    ensures { IfOk result (λ copy. test_seen copy.value ≡ test_seen test.now) }
{
    let copy = copy_test(alloc, test)?;
    Ok(Box::new(alloc, copy)?)
}

#[cycle(copies)]
fn copy_tests(alloc: Global, tests: &Vec<Test>) -> Result<Vec<Test>, Memory>
    ensures { IfOk result (λ copy. map test_seen copy.items ≡ map test_seen tests.now.items) }
{
    let mut copies = Vec::with_capacity(alloc, tests.len())?;
    for test in tests {
        let copy = copy_test(alloc, test)?;
        copies.push(copy)?;
    }
    Ok(copies)
}

/// The same domain once more.
#[cycle(copies)]
pub(crate) fn copy_domain(alloc: Global, domain: &Domain) -> Result<Domain, Memory>
    ensures { IfOk result (λ copy. domain_seen copy ≡ domain_seen domain.now) }
{
    match domain {
        Domain::Players => Ok(Domain::Players),
        Domain::Coll(cards) => Ok(Domain::Coll(copy_coll(alloc, cards)?)),
        Domain::Parts(cards, attr) => Ok(Domain::Parts(copy_coll(alloc, cards)?, *attr)),
    }
}

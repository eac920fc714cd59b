//! Sides of equations.
ghost use Rattle.std.specs.Prelude.{◌≡◌, Option, Err, IfOk, OnErr};
ghost use Rattle.rc_ast.specs.Names.{who_seen};
ghost use Rattle.rc_ast.specs.Expressions.{card_seen, int_seen, test_seen};
ghost use Rattle.rc_sheet.specs.ReadExpressions as reading;
ghost use Rattle.rc_sheet.specs.ReadExpressions.{Side as PureSide};
ghost use Rattle.rc_sheet.specs.ReadNames.{◌>>=◌ as and_then};
ghost use Rattle.rc_sheet.specs.ReadExpressions.{number_side, card_side, value_side, owner_side};
ghost use Rattle.rc_sheet.specs.declared.fail.Unread.TheVariants.{Memory};
ghost use Rattle.rc_sheet.specs.Sides.{side_seen};
ghost use Rattle.rc_sheet.specs.Gives.{Gives};

use crate::fail::Unread;
use crate::locations::class_of;
use crate::scope::Scope;
use rc_ast::{CardExpr, IntExpr, Sort, Test, Who};
use rc_check::is_variable;
use rc_form::integer;
use std::alloc::Global;

/// A side of an equation: a number, a card, a card's value of an attribute, or an owner.
#[derive(Drop)]
pub enum Side {
    Number(IntExpr),
    Card(CardExpr),
    Value(CardExpr, u16),
    Owner(Who),
}

/// The side that an atom is: a variable for a player or a card, or a number.
#[tactic(auto, unfolding(crate::specs::ReadExpressions::side_word))]
pub fn side_word(scope: &Scope, word: &[u8]) -> Result<Side, Unread>
    ensures { Gives side_seen result (reading.side_word scope.now word.now) }
{
    if !is_variable(word) {
        return match integer(word) {
            Some(value) => Ok(Side::Number(IntExpr::Lit(value))),
            None => Err(Unread::Meaningless),
        };
    }
    let Some(place) = scope.place_of(word) else {
        return Err(Unread::Meaningless);
    };
    match scope.sort_at(place) {
        Some(Sort::Player) => Ok(Side::Owner(Who::Var(place))),
        Some(Sort::Card) => Ok(Side::Card(CardExpr::Var(place))),
        _ => Err(Unread::Meaningless),
    }
}

/// What two sides of one sort make, where they were read.
pub fn equal_read(alloc: Global, read: Result<(Side, Side), Unread>) -> Result<Test, Unread>
    ensures { (said : Option (PureSide × PureSide)) → Gives (λ p. (side_seen p.0, side_seen p.1)) read said
        → Gives test_seen result (and_then said (λ p. reading.equal_test p.0 p.1)) }
{
    match read {
        Ok((a, b)) => equal_test(alloc, a, b),
        Err(why) => Err(why),
    }
}

/// What two sides of one sort make.
fn equal_test(alloc: Global, a: Side, b: Side) -> Result<Test, Unread>
    ensures { Gives test_seen result (reading.equal_test (side_seen a) (side_seen b)) }
{
    match a {
        Side::Number(a) => equal_numbers(alloc, a, b),
        Side::Card(a) => equal_cards(alloc, a, b),
        Side::Value(a, attr) => equal_values(alloc, a, attr, b),
        Side::Owner(a) => equal_owners(a, b),
    }
}

/// The equality of a number and this side.
fn equal_numbers(alloc: Global, a: IntExpr, b: Side) -> Result<Test, Unread>
    ensures { Gives test_seen result (reading.equal_test (number_side (int_seen a)) (side_seen b)) }
{
    let Side::Number(b) = b else {
        return Err(Unread::Meaningless);
    };
    let (a, b) = box_pair(alloc, a, b)?;
    Ok(Test::EqInt(a, b))
}

/// The equality of a card and this side.
fn equal_cards(alloc: Global, a: CardExpr, b: Side) -> Result<Test, Unread>
    ensures { Gives test_seen result (reading.equal_test (card_side (card_seen a)) (side_seen b)) }
{
    let Side::Card(b) = b else {
        return Err(Unread::Meaningless);
    };
    let (a, b) = box_pair(alloc, a, b)?;
    Ok(Test::EqCard(a, b))
}

/// The equality of a card's value of an attribute and this side.
fn equal_values(alloc: Global, a: CardExpr, attr: u16, b: Side) -> Result<Test, Unread>
    ensures { Gives test_seen result (reading.equal_test (value_side (card_seen a) attr) (side_seen b)) }
{
    let Side::Value(b, other) = b else {
        return Err(Unread::Meaningless);
    };
    let (a, b) = box_pair(alloc, a, b)?;
    Ok(Test::EqAttr(a, attr, b, other))
}

/// The equality of an owner and this side.
fn equal_owners(a: Who, b: Side) -> Result<Test, Unread>
    ensures { Gives test_seen result (reading.equal_test (owner_side (who_seen a)) (side_seen b)) }
{
    let Side::Owner(b) = b else {
        return Err(Unread::Meaningless);
    };
    if class_of(a) != class_of(b) {
        return Err(Unread::Meaningless);
    }
    Ok(Test::EqWho(a, b))
}

/// Two values, each in a box.
fn box_pair<A: Drop, B: Drop>(alloc: Global, a: A, b: B) -> Result<(Box<A>, Box<B>), Unread>
    ensures first { IfOk result (λ boxes. boxes.0.value ≡ a) }
    ensures second { IfOk result (λ boxes. boxes.1.value ≡ b) }
    ensures memory { OnErr result (result ≡ Err Memory) }
{
    let a = Box::new(alloc, a)?;
    let b = Box::new(alloc, b)?;
    Ok((a, b))
}

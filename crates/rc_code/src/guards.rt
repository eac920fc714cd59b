//! Guards of the cards of one location, in parts.
ghost use Rattle.std.specs.Prelude.{◌≡◌, ℕ, true, ◌&&◌, ◌||◌, map, All, is_some, IfSome, if◌then◌else◌};
ghost use Rattle.rc_sheet_spec.specs.Sheet.{any_alt, cards_in, card_var, each_card, eq_attr, has_value, top_card};
ghost use Rattle.rc_ast.specs.Names.{loc_seen, who_seen};
ghost use Rattle.rc_ast.specs.Expressions.{card_seen, coll_seen, domain_seen, test_seen, tests_seen};
ghost use Rattle.rc_ast.specs.Items.{alt_seen};
ghost use Rattle.rc_code.specs.Guards.{in_sense, over_domain, part_meant, joined_tests, guard_meant, IsFixedWho, IsFixedLoc, IsFixedAmount, IsFixedComparison, IsFixedPart, IsFixedGuard, IsGuardTestOf, IsPartOf, IsGuardOf, IsCardTestOf};
ghost use Rattle.rc_code.specs.GuardParts.{is_fixed_who, is_fixed_location, is_fixed_top, is_fixed_domain, is_fixed_number, is_fixed_comparison, is_fixed_guard_test, is_the_variable, is_card_test, is_guard_test, in_some_sense, are_few_parts, is_in_parts, is_guarded, has_guard};
ghost use Rattle.rc_code.specs.FlatMeaning.{amount_meant, comparison_meant};

use crate::amounts::Amount;
use crate::atoms::{Comparison, comparison_of};
use crate::following::follows;
use arrayvec::ArrayVec;
use rc_ast::{Alt, CardExpr, CollExpr, Domain, Loc, Test, Who};

/// Whether a test is asked as it is, or its opposite, in either of the two ways in which a sheet says so.
#[derive(Clone, Copy)]
pub enum Sense {
    Plain,
    Ne,
    Not,
}

/// A test of a card: whether it has a value for an attribute, or for one the value that the top card of a location has
/// for one.
#[derive(Clone, Copy)]
pub enum CardTest {
    Value { name: u16, value: u16 },
    Against { name: u16, against: Loc, other: u16 },
}

/// A test that is asked with no walk over a tree, where no variable owns any of its locations: a comparison;
/// whether the innermost variable's card passes a test; whether the top card of a location has a value; or whether one
/// of the cards of a location, or each of them, passes a test or its opposite. How the top card is asked stands apart
/// from comparisons, which effects ask too, and which took longer with it.
#[derive(Clone, Copy)]
pub enum GuardTest {
    Known(Comparison),
    OfCard(CardTest),
    Top {
        at: Loc,
        name: u16,
        value: u16,
    },
    Among {
        any: bool,
        among: Loc,
        bound: u32,
        sense: Sense,
        card_test: CardTest,
    },
}

/// A part of a guard.
#[derive(Clone, Copy)]
pub struct GuardPart {
    pub sense: Sense,
    pub guard_test: GuardTest,
}

impl Default for GuardPart {
    fn default() -> GuardPart {
        GuardPart {
            sense: Sense::Plain,
            guard_test: GuardTest::OfCard(CardTest::Value { name: 0, value: 0 }),
        }
    }
}

/// The parts of a guard, few of them.
pub type FewParts = ArrayVec<GuardPart, 4>;

/// How the parts of a guard are joined: a sole one is the guard itself, all are to hold, or one is enough.
#[derive(Clone, Copy)]
pub enum Joint {
    Sole,
    All,
    Any,
}

/// A guard of the cards of a location. No variable owns any of its locations. It is known to follow where its last two
/// parts say that a card passes a test, or that none of the location's cards does.
#[derive(Drop)]
pub struct Guard {
    pub loc: Loc,
    pub joint: Joint,
    pub parts: FewParts,
    pub follows: bool,
}

// Whether no variable stands for an owner.
fn is_fixed_owner(who: Who) -> bool
    ensures fixed { result ≡ true → IsFixedWho (who_seen who) }
    ensures told { result ≡ is_fixed_who (who_seen who) }
{
    match who {
        Who::Game => true,
        Who::CurrentPlayer => true,
        Who::CurrentTeam => true,
        Who::TeamOfCurrent => true,
        _ => false,
    }
}

// Whether no variable owns a location.
fn is_fixed(loc: &Loc) -> bool
    ensures fixed { result ≡ true → IsFixedLoc (loc_seen loc.now) }
    ensures told { result ≡ is_fixed_who (loc_seen loc.now).who }
{
    is_fixed_owner(loc.who)
}

// Whether no variable owns what a number is read off.
fn is_fixed_amount(amount: &Amount) -> bool
    ensures fixed { result ≡ true → IsFixedAmount amount.now }
    ensures told { result ≡ is_fixed_number (amount_meant amount.now) }
{
    match amount {
        Amount::Literal(_) => true,
        Amount::Number(num) => is_fixed_owner(num.who),
        Amount::Size(loc) => is_fixed(loc),
        Amount::Worth(loc, _) => is_fixed(loc),
    }
}

fn is_comparison_fixed(comparison: &Comparison) -> bool
    ensures fixed { result ≡ true → IsFixedComparison comparison.now }
    ensures told { result ≡ is_fixed_comparison (comparison_meant comparison.now) }
{
    match comparison {
        Comparison::Compare { how: _, one, other } => is_fixed_amount(one)
            && is_fixed_amount(other),
        Comparison::Same {
            one,
            name: _,
            other,
            other_name: _,
        } => is_fixed(one) && is_fixed(other),
    }
}

// The location, where a collection is one that no variable owns.
fn fixed_location(cards: &CollExpr) -> Option<Loc>
    ensures same { IfSome result (λ loc. cards_in (loc_seen loc) ≡ coll_seen cards.now) }
    ensures fixed { IfSome result (λ loc. IsFixedLoc (loc_seen loc)) }
    ensures found { is_some result ≡ is_fixed_location (coll_seen cards.now) }
{
    match cards {
        CollExpr::Loc(loc) => { if is_fixed(loc) { Some(*loc) } else { None } }
        _ => None,
    }
}

// The location, where a card is the top one of one that no variable owns.
fn fixed_top(card: &CardExpr) -> Option<Loc>
    ensures same { IfSome result (λ loc. top_card (cards_in (loc_seen loc)) ≡ card_seen card.now) }
    ensures fixed { IfSome result (λ loc. IsFixedLoc (loc_seen loc)) }
    ensures found { is_some result ≡ is_fixed_top (card_seen card.now) }
{
    match card {
        CardExpr::Top(cards) => fixed_location(cards),
        _ => None,
    }
}

// The location, where a domain is the cards of one that no variable owns.
fn fixed_domain(domain: &Domain) -> Option<Loc>
    ensures same { IfSome result (λ loc. each_card (cards_in (loc_seen loc)) ≡ domain_seen domain.now) }
    ensures fixed { IfSome result (λ loc. IsFixedLoc (loc_seen loc)) }
    ensures found { is_some result ≡ is_fixed_domain (domain_seen domain.now) }
{
    match domain {
        Domain::Coll(cards) => fixed_location(cards),
        _ => None,
    }
}

// Whether a card is the variable at this place.
fn is_variable(card: &CardExpr, place: u8) -> bool
    ensures same { result ≡ true → card_seen card.now ≡ card_var place }
    ensures told { result ≡ is_the_variable place (card_seen card.now) }
{
    match card {
        CardExpr::Var(var) => *var == place,
        _ => false,
    }
}

// The test of the card of the variable at this place, where that is what two cards' values are compared for.
fn card_test_between(
    a: &CardExpr,
    name: u16,
    b: &CardExpr,
    other: u16,
    place: u8,
) -> Option<CardTest>
    ensures meaning { IfSome result (IsCardTestOf place (eq_attr (card_seen a.now) name (card_seen b.now) other)) }
    ensures found { is_some result ≡ is_the_variable place (card_seen a.now) && is_fixed_top (card_seen b.now) }
{
    if !is_variable(a, place) {
        return None;
    }
    match fixed_top(b) {
        Some(against) => Some(CardTest::Against {
            name,
            against,
            other,
        }),
        None => None,
    }
}

// The same where a card is asked for a value.
fn card_test_named(card: &CardExpr, name: u16, value: u16, place: u8) -> Option<CardTest>
    ensures meaning { IfSome result (IsCardTestOf place (has_value (card_seen card.now) name value)) }
    ensures found { is_some result ≡ is_the_variable place (card_seen card.now) }
{
    if is_variable(card, place) {
        return Some(CardTest::Value { name, value });
    }
    None
}

fn card_test_of(test: &Test, place: u8) -> Option<CardTest>
    ensures meaning { IfSome result (IsCardTestOf place (test_seen test.now)) }
    ensures found { is_some result ≡ is_card_test place (test_seen test.now) }
{
    match test {
        Test::EqAttr(a, name, b, other) => card_test_between(a, *name, b, *other, place),
        Test::Is(card, name, value) => card_test_named(card, *name, *value, place),
        _ => None,
    }
}

fn known_of(test: &Test) -> Option<GuardTest>
    ensures meaning { IfSome result (IsGuardTestOf (test_seen test.now)) }
    ensures found { is_some result ≡ is_fixed_comparison (test_seen test.now) }
{
    match comparison_of(test) {
        Some(comparison) => {
            if is_comparison_fixed(&comparison) {
                Some(GuardTest::Known(comparison))
            } else {
                None
            }
        }
        None => None,
    }
}

// Whether the top card of a location has a value.
fn top_of(card: &CardExpr, name: u16, value: u16) -> Option<GuardTest>
    ensures meaning { IfSome result (IsGuardTestOf (has_value (card_seen card.now) name value)) }
    ensures found { is_some result ≡ is_fixed_top (card_seen card.now) }
{
    match fixed_top(card) {
        Some(at) => Some(GuardTest::Top { at, name, value }),
        None => None,
    }
}

// The test that one of the cards of a location, or each, passes a test.
fn among_in_sense(
    any: bool,
    among: Loc,
    bound: u32,
    sense: Sense,
    inner: &Test,
) -> Option<GuardTest>
    requires { IsFixedLoc (loc_seen among) }
    ensures meaning { IfSome result (IsGuardTestOf (over_domain any (each_card (cards_in (loc_seen among))) bound
        (in_sense sense (test_seen inner.now)))) }
    ensures found { is_some result ≡ is_card_test 1 (test_seen inner.now) }
{
    match card_test_of(inner, 1) {
        Some(card_test) => Some(GuardTest::Among {
            any,
            among,
            bound,
            sense,
            card_test,
        }),
        None => None,
    }
}

fn among_in(any: bool, among: Loc, bound: u32, inner: &Test) -> Option<GuardTest>
    requires { IsFixedLoc (loc_seen among) }
    ensures meaning { IfSome result (IsGuardTestOf
        (over_domain any (each_card (cards_in (loc_seen among))) bound (test_seen inner.now))) }
    ensures found { is_some result ≡ in_some_sense (is_card_test 1) (test_seen inner.now) }
{
    match inner {
        Test::Ne(plain) => among_in_sense(any, among, bound, Sense::Ne, plain),
        Test::Not(plain) => among_in_sense(any, among, bound, Sense::Not, plain),
        _ => among_in_sense(any, among, bound, Sense::Plain, inner),
    }
}

fn among_of(any: bool, domain: &Domain, bound: u32, inner: &Test) -> Option<GuardTest>
    ensures meaning { IfSome result (IsGuardTestOf
        (over_domain any (domain_seen domain.now) bound (test_seen inner.now))) }
    ensures found { is_some result
        ≡ is_fixed_domain (domain_seen domain.now) && in_some_sense (is_card_test 1) (test_seen inner.now) }
{
    match fixed_domain(domain) {
        Some(among) => among_in(any, among, bound, inner),
        None => None,
    }
}

// A test of no variable's card.
fn fixed_guard_test(test: &Test) -> Option<GuardTest>
    ensures meaning { IfSome result (IsGuardTestOf (test_seen test.now)) }
    ensures found { is_some result ≡ is_fixed_guard_test (test_seen test.now) }
{
    match test {
        Test::Any(domain, bound, inner) => among_of(true, domain, *bound, inner),
        Test::All(domain, bound, inner) => among_of(false, domain, *bound, inner),
        Test::Is(card, name, value) => top_of(card, *name, *value),
        _ => known_of(test),
    }
}

fn guard_test_of(test: &Test) -> Option<GuardTest>
    ensures meaning { IfSome result (IsGuardTestOf (test_seen test.now)) }
    ensures found { is_some result ≡ is_guard_test (test_seen test.now) }
{
    match card_test_of(test, 0) {
        Some(card_test) => Some(GuardTest::OfCard(card_test)),
        None => fixed_guard_test(test),
    }
}

fn part_in_sense(sense: Sense, test: &Test) -> Option<GuardPart>
    ensures meaning { IfSome result (IsPartOf (in_sense sense (test_seen test.now))) }
    ensures found { is_some result ≡ is_guard_test (test_seen test.now) }
{
    match guard_test_of(test) {
        Some(guard_test) => Some(GuardPart { sense, guard_test }),
        None => None,
    }
}

fn part_of(test: &Test) -> Option<GuardPart>
    ensures meaning { IfSome result (IsPartOf (test_seen test.now)) }
    ensures found { is_some result ≡ in_some_sense is_guard_test (test_seen test.now) }
{
    match test {
        Test::Ne(inner) => part_in_sense(Sense::Ne, inner),
        Test::Not(inner) => part_in_sense(Sense::Not, inner),
        _ => part_in_sense(Sense::Plain, test),
    }
}

fn parts_of(tests: &Vec<Test>) -> Option<FewParts>
    ensures same { IfSome result (λ parts. map part_meant parts.items ≡ map test_seen tests.now.items) }
    ensures fixed { IfSome result (λ parts. All IsFixedPart parts.items) }
    ensures found { is_some result ≡ are_few_parts (tests_seen tests.now.items) }
{
    if tests.len() > 4 {
        return None;
    }
    let mut parts = FewParts::new();
    for test in tests {
        match part_of(test) {
            Some(part) => parts.push(part),
            None => return None,
        }
    }
    Some(parts)
}

// The guard of a location's cards that joins these tests.
fn joined_guard(loc: Loc, joint: Joint, tests: &Vec<Test>) -> Option<Guard>
    requires { IsFixedLoc (loc_seen loc) }
    ensures place { IfSome result (λ guard. guard.loc ≡ loc) }
    ensures same { IfSome result (λ guard. guard_meant guard ≡ joined_tests joint (map test_seen tests.now.items)) }
    ensures fixed { IfSome result IsFixedGuard }
    ensures found { is_some result ≡ are_few_parts (tests_seen tests.now.items) }
{
    match parts_of(tests) {
        Some(parts) => {
            let follows = follows(&loc, joint, parts.as_slice());
            Some(Guard {
                loc,
                joint,
                parts,
                follows,
            })
        }
        None => None,
    }
}

// The guard that is a sole part.
fn sole_guard(loc: Loc, test: &Test) -> Option<Guard>
    requires { IsFixedLoc (loc_seen loc) }
    ensures place { IfSome result (λ guard. guard.loc ≡ loc) }
    ensures same { IfSome result (λ guard. guard_meant guard ≡ test_seen test.now) }
    ensures fixed { IfSome result IsFixedGuard }
    ensures found { is_some result ≡ in_some_sense is_guard_test (test_seen test.now) }
{
    match part_of(test) {
        Some(part) => {
            let mut parts = FewParts::new();
            parts.push(part);
            Some(Guard {
                loc,
                joint: Joint::Sole,
                parts,
                follows: false,
            })
        }
        None => None,
    }
}

#[tactic(auto, using(rc_ast::proofs::ViewLemmas::and_seen, rc_ast::proofs::ViewLemmas::or_seen))]
fn guard_by(loc: Loc, test: &Test) -> Option<Guard>
    requires { IsFixedLoc (loc_seen loc) }
    ensures place { IfSome result (λ guard. guard.loc ≡ loc) }
    ensures same { IfSome result (λ guard. guard_meant guard ≡ test_seen test.now) }
    ensures fixed { IfSome result IsFixedGuard }
    ensures found { is_some result ≡ is_in_parts (test_seen test.now) }
{
    match test {
        Test::Or(tests) => joined_guard(loc, Joint::Any, tests),
        Test::And(tests) => joined_guard(loc, Joint::All, tests),
        _ => sole_guard(loc, test),
    }
}

fn guard_in(loc: Loc, alt: &Alt) -> Option<Guard>
    requires { IsFixedLoc (loc_seen loc) }
    ensures meaning { IfSome result (λ guard. (bound : ℕ)
        → IsGuardOf (any_alt (each_card (cards_in (loc_seen loc))) bound (alt_seen alt.now)) guard) }
    ensures found { is_some result ≡ is_guarded (alt_seen alt.now) }
{
    match alt {
        Alt::If(guard, _) => guard_by(loc, guard),
        _ => None,
    }
}

fn guard_among(domain: &Domain, alt: &Alt) -> Option<Guard>
    ensures meaning { IfSome result (λ guard. (bound : ℕ)
        → IsGuardOf (any_alt (domain_seen domain.now) bound (alt_seen alt.now)) guard) }
    ensures found { is_some result ≡ is_fixed_domain (domain_seen domain.now) && is_guarded (alt_seen alt.now) }
{
    match fixed_domain(domain) {
        Some(loc) => guard_in(loc, alt),
        None => None,
    }
}

/// The guard of an alternative outside all binders that offers the cards of a location, if it is one in such parts.
pub(crate) fn guard_of(alt: &Alt) -> Option<Guard>
    ensures meaning { IfSome result (IsGuardOf (alt_seen alt.now)) }
    ensures found { is_some result ≡ has_guard (alt_seen alt.now) }
{
    match alt {
        Alt::Any(domain, _, inner) => guard_among(domain, inner),
        _ => None,
    }
}

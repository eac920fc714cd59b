//! Guards of one domain, in parts: what doesn't read the variable that runs over it is asked once.
ghost use Rattle.std.specs.Prelude.{◌≡◌, ◌+◌, ◌<◌, ◌≤◌, ◌++◌, ◌∷◌, [], length, map, slice_index_or, if◌then◌else◌, IfSome, Some, None, true, ℕ};
ghost use Rattle.std.specs.List.{list_all};
ghost use Rattle.rc_play_spec.specs.Value.{card_bound, both, nat_same, tests_value};
ghost use Rattle.rc_play_spec.specs.Scene.{CardValue};
ghost use Rattle.rc_ast.specs.Expressions.{test_seen, tests_seen};
ghost use Rattle.rc_menu.specs.Asks.{ask_value, asks_value, met_value, ask_depth, AllFit, joined, told_of, IsJoined, IsInParts};
ghost use Rattle.rc_menu.specs.declared.asks.SoughtCard.TheVariants.{Value, Whole};
ghost use Rattle.rc_value.specs.Cards.{value_seen};
ghost use Rattle.rc_value.specs.Depth.{test_depth, tests_depth};
ghost use Rattle.rc_value.specs.Scene.{scene_seen};
ghost use Rattle.rc_value.specs.Wanted.{meets, IsWanted};

use crate::known::{AtHand, at_hand};
use arrayvec::ArrayVec;
use rc_ast::Test;
use rc_flow::test_reads;
use rc_value::{
    Bind, Bindings, Card, Scene, Sought, SoughtValue, SoughtWorth, is_so, is_worth, sought_of,
    test_of, value_in, worth_once,
};

/// What is asked of each card that the innermost variable stands for: what it is worth, or a test. Most guards ask for
/// values, which stand apart from these: for a value, or as a value is to be or not to be, in the row of all cards'
/// values for an attribute. They stand last, so that one comparison tells them from the rest.
#[derive(Clone, Copy)]
pub(crate) enum SoughtCard<'t> {
    Worth(SoughtWorth),
    Whole(&'t Test),
    Value {
        value: u16,
        row: &'t [Option<u16>],
    },
    CardTest {
        equal: bool,
        value: Option<u16>,
        row: &'t [Option<u16>],
    },
}

impl<'t> Default for SoughtCard<'t> {
    fn default() -> SoughtCard<'t> {
        SoughtCard::Value { value: 0, row: &[] }
    }
}

/// What a guard asks of each card.
pub(crate) type Asks<'t> = ArrayVec<SoughtCard<'t>, 4>;

/// What is known of a guard for all cards: whether it is settled, and, where it isn't, whether one yes is enough. Where
/// it is settled, the second says which way.
#[derive(Clone, Copy)]
pub(crate) struct Parts {
    pub(crate) settled: bool,
    pub(crate) any: bool,
}

/// How a value is wanted, asked by the row of all cards' values.
#[inline(always)]
pub(crate) fn ask_in<'t>(row: &'t [Option<u16>], wanted: SoughtValue) -> SoughtCard<'t>
    ensures value { (id : ℕ) → met_value id result ≡ meets wanted (slice_index_or row.now id None) }
    ensures by_row { asks_value result ≡ true }
{
    match wanted.value {
        Some(value) if wanted.equal => SoughtCard::Value { value, row },
        value => SoughtCard::CardTest {
            equal: wanted.equal,
            value,
            row,
        },
    }
}

// A test of which it is known which value the cards are to have. It is asked by the row of their values, and as a test
// if there is none.
#[inline(always)]
fn ask_by<'t>(
    scene: &'t Scene,
    scope: &Bindings,
    wanted: SoughtValue,
    test: &'t Test,
) -> SoughtCard<'t>
    requires wanted { IsWanted (scene_seen scene.now) scope.now (test_seen test.now) wanted }
    requires deep { length scope.now + (1 + test_depth (test_seen test.now)) ≤ 5 }
    ensures value { (c : CardValue) → told_of (scene_seen scene.now) scope.now (test_seen test.now) c
        ≡ ask_value (scene_seen scene.now) scope.now c result }
    ensures fits { length scope.now + ask_depth result ≤ 5 }
{
    match scene.lookup.values(wanted.name) {
        Some(row) => ask_in(row, wanted),
        None => SoughtCard::Whole(test),
    }
}

fn ask_of<'t>(scene: &'t Scene, scope: &Bindings, test: &'t Test) -> SoughtCard<'t>
    requires deep { length scope.now + (1 + test_depth (test_seen test.now)) ≤ 5 }
    ensures value { (c : CardValue) → told_of (scene_seen scene.now) scope.now (test_seen test.now) c
        ≡ ask_value (scene_seen scene.now) scope.now c result }
    ensures fits { length scope.now + ask_depth result ≤ 5 }
{
    match test {
        Test::EqAttr(_, _, _, _) | Test::Ne(_) | Test::Not(_) => {
            match sought_of(scene, scope, test) {
                Some(Sought::Value(wanted)) => ask_by(scene, scope, wanted, test),
                Some(Sought::Worth(worth)) => SoughtCard::Worth(worth),
                _ => SoughtCard::Whole(test),
            }
        }
        Test::EqInt(_, _)
        | Test::Less(_, _)
        | Test::LessEq(_, _)
        | Test::More(_, _)
        | Test::MoreEq(_, _) => match worth_once(scene, scope, test) {
            Some(worth) => SoughtCard::Worth(worth),
            None => SoughtCard::Whole(test),
        },
        _ => SoughtCard::Whole(test),
    }
}

/// Whether the card with an id has a value.
#[inline(always)]
pub(crate) fn has_value(row: &[Option<u16>], value: u16, id: u16) -> bool
    ensures { result ≡ both nat_same (slice_index_or row.now id None) (Some value) }
{
    value_in(row, id) == Some(value)
}

// The answer for a card.
#[inline(always)]
fn answer(scene: &Scene, scope: &Bindings, ask: &SoughtCard, card: Card) -> bool
    requires fits { length scope.now + ask_depth ask.now ≤ 5 }
    ensures { result ≡ ask_value (scene_seen scene.now) scope.now (value_seen card) ask.now }
{
    match ask {
        SoughtCard::Value { value, row } => has_value(*row, *value, card.id()),
        SoughtCard::CardTest { equal, value, row } => is_so(
            *equal,
            *value,
            value_in(*row, card.id()),
        ),
        SoughtCard::Worth(worth) => is_worth(scene, *worth, card),
        SoughtCard::Whole(test) => holds_for(scene, scope, *test, card),
    }
}

// Whether a test holds for a card. It stands apart from the loop over the cards, which mostly asks for values.
#[inline(never)]
fn holds_for(scene: &Scene, scope: &Bindings, test: &Test, card: Card) -> bool
    requires fits { length scope.now + (1 + test_depth (test_seen test.now)) ≤ 5 }
    ensures { result ≡ told_of (scene_seen scene.now) scope.now (test_seen test.now) (value_seen card) }
{
    test_of(scene, &scope.with(Bind::Card(card)), test)
}

/// All the answers for a card in one.
#[inline(always)]
pub(crate) fn joined_answer(
    scene: &Scene,
    scope: &Bindings,
    asks: &[SoughtCard],
    any: bool,
    card: Card,
) -> bool
    requires fits { AllFit scope.now asks.now }
    ensures { result ≡ joined any (map (ask_value (scene_seen scene.now) scope.now (value_seen card)) asks.now) }
{
    for place in 0..asks.len() {
        if answer(scene, scope, &asks[place], card) == any {
            return any;
        }
    }
    !any
}

// Joins a test to what is asked. Where it doesn't read the variable, it is asked at once, with anything in the
// variable's place, and then it may settle all.
#[inline(always)]
fn settles<'t>(
    scene: &'t Scene,
    scope: &Bindings,
    test: &'t Test,
    any: bool,
    asks: &mut Asks<'t>,
) -> bool
    requires deep { length scope.now + (1 + test_depth (test_seen test.now)) ≤ 5 }
    requires room { length asks.old.items < 4 }
    requires fit { AllFit scope.now asks.old.items }
    ensures joined { IsJoined (scene_seen scene.now) scope.now
        (test_seen test.now) any result asks.old.items asks.new.items }
    ensures count { length asks.new.items ≤ length asks.old.items + 1 }
    ensures fit { AllFit scope.now asks.new.items }
{
    match at_hand(scene, scope, test) {
        AtHand::OfCard(wanted) => {
            asks.push(ask_by(scene, scope, wanted, test));
            false
        }
        AtHand::Holds(holds) => holds == any,
        AtHand::Unclear => settles_whole(scene, scope, test, any, asks),
    }
}

// The same with a test of which nothing is at hand.
#[inline(never)]
fn settles_whole<'t>(
    scene: &'t Scene,
    scope: &Bindings,
    test: &'t Test,
    any: bool,
    asks: &mut Asks<'t>,
) -> bool
    requires deep { length scope.now + (1 + test_depth (test_seen test.now)) ≤ 5 }
    requires room { length asks.old.items < 4 }
    requires fit { AllFit scope.now asks.old.items }
    ensures joined { IsJoined (scene_seen scene.now) scope.now
        (test_seen test.now) any result asks.old.items asks.new.items }
    ensures count { length asks.new.items ≤ length asks.old.items + 1 }
    ensures fit { AllFit scope.now asks.new.items }
{
    if test_reads(test, scope.len()) {
        asks.push(ask_of(scene, scope, test));
        return false;
    }
    test_of(scene, &scope.with(Bind::Player(0)), test) == any
}

// The same with all tests of a list.
#[inline(never)]
fn all_settle<'t>(
    scene: &'t Scene,
    scope: &Bindings,
    tests: &'t Vec<Test>,
    any: bool,
    asks: &mut Asks<'t>,
) -> bool
    requires few { length tests.now.items ≤ 4 }
    requires deep { length scope.now + (1 + tests_depth (tests_seen tests.now.items)) ≤ 5 }
    requires empty { asks.old.items ≡ [] }
    ensures joined { (c : CardValue) → joined any
        (tests_value (scene_seen scene.now) (scope.now ++ card_bound c ∷ []) (tests_seen tests.now.items))
        ≡ (if result then any else joined any (map (ask_value (scene_seen scene.now) scope.now c) asks.new.items)) }
    ensures fit { AllFit scope.now asks.new.items }
{
    for test in tests {
        if settles(scene, scope, test, any, asks) {
            return true;
        }
    }
    false
}

// A guard that is no list of tests, or a long one.
#[inline(never)]
fn single_part<'t>(
    scene: &'t Scene,
    scope: &Bindings,
    guard: &'t Test,
    asks: &mut Asks<'t>,
) -> Parts
    requires deep { length scope.now + (1 + test_depth (test_seen guard.now)) ≤ 5 }
    requires empty { asks.old.items ≡ [] }
    ensures parts { IsInParts (scene_seen scene.now) scope.now (test_seen guard.now) result asks.new.items }
    ensures fit { AllFit scope.now asks.new.items }
{
    Parts {
        settled: settles(scene, scope, guard, true, asks),
        any: true,
    }
}

// The outer parts of a guard.
fn outer_parts<'t>(
    scene: &'t Scene,
    scope: &Bindings,
    guard: &'t Test,
    asks: &mut Asks<'t>,
) -> Parts
    requires deep { length scope.now + (1 + test_depth (test_seen guard.now)) ≤ 5 }
    requires empty { asks.old.items ≡ [] }
    ensures parts { IsInParts (scene_seen scene.now) scope.now (test_seen guard.now) result asks.new.items }
    ensures fit { AllFit scope.now asks.new.items }
{
    match guard {
        Test::Or(tests) => {
            if tests.len() <= 4 {
                return Parts {
                    settled: all_settle(scene, scope, tests, true, asks),
                    any: true,
                };
            }
            single_part(scene, scope, guard, asks)
        }
        Test::And(tests) => {
            if tests.len() <= 4 {
                return Parts {
                    settled: all_settle(scene, scope, tests, false, asks),
                    any: false,
                };
            }
            single_part(scene, scope, guard, asks)
        }
        _ => single_part(scene, scope, guard, asks),
    }
}

/// Whether values are all that is asked.
pub(crate) fn are_sought(asks: &[SoughtCard]) -> bool
    ensures { result ≡ list_all asks_value asks.now }
{
    for place in 0..asks.len() {
        if !is_sought(&asks[place]) {
            return false;
        }
    }
    true
}

#[inline(always)]
fn is_sought(ask: &SoughtCard) -> bool
    ensures { result ≡ asks_value ask.now }
{
    match ask {
        SoughtCard::Value { value: _, row: _ } => true,
        SoughtCard::CardTest {
            equal: _,
            value: _,
            row: _,
        } => true,
        _ => false,
    }
}

/// All the answers for the card with an id in one, where values are all that is asked.
#[inline(always)]
pub(crate) fn joined_met(asks: &[SoughtCard], any: bool, id: u16) -> bool
    ensures { result ≡ joined any (map (met_value id) asks.now) }
{
    for place in 0..asks.len() {
        if is_met(&asks[place], id) == any {
            return any;
        }
    }
    !any
}

#[inline(always)]
fn is_met(ask: &SoughtCard, id: u16) -> bool
    ensures { result ≡ met_value id ask.now }
{
    match ask {
        SoughtCard::Value { value, row } => has_value(*row, *value, id),
        SoughtCard::CardTest { equal, value, row } => is_so(*equal, *value, value_in(*row, id)),
        _ => false,
    }
}

/// The row of values and the value that is asked for in it, where that is all that is asked.
#[inline(always)]
pub(crate) fn sole_value<'t>(asks: &[SoughtCard<'t>]) -> Option<(&'t [Option<u16>], u16)>
    ensures { IfSome result (λ sole. asks.now ≡ Value sole.1 sole.0 ∷ []) }
{
    if asks.len() != 1 {
        return None;
    }
    match asks[0] {
        SoughtCard::Value { value, row } => Some((row, value)),
        _ => None,
    }
}

// The test, where one list of tests is all that is asked.
fn sole_list<'t>(asks: &Asks<'t>) -> Option<&'t Test>
    ensures { IfSome result (λ test. asks.now.items ≡ Whole test ∷ []) }
{
    if asks.len() != 1 {
        return None;
    }
    match asks[0] {
        SoughtCard::Whole(test) => test_if_list(test),
        _ => None,
    }
}

// The test, if it is a list of tests.
fn test_if_list<'t>(test: &'t Test) -> Option<&'t Test>
    ensures { IfSome result (λ same. same ≡ test.entry) }
{
    match test {
        Test::And(_) => Some(test),
        Test::Or(_) => Some(test),
        _ => None,
    }
}

/// A guard in parts, of which those that read the variable are written into an empty list.
pub(crate) fn parts_of<'t>(
    scene: &'t Scene,
    scope: &Bindings,
    guard: &'t Test,
    asks: &mut Asks<'t>,
) -> Parts
    requires deep { length scope.now + (1 + test_depth (test_seen guard.now)) ≤ 5 }
    requires empty { asks.old.items ≡ [] }
    ensures parts { IsInParts (scene_seen scene.now) scope.now (test_seen guard.now) result asks.new.items }
    ensures fit { AllFit scope.now asks.new.items }
{
    let parts = outer_parts(scene, scope, guard, asks);
    if parts.settled {
        return parts;
    }
    match sole_list(&*asks) {
        Some(inner) => {
            asks.clear();
            outer_parts(scene, scope, inner, asks)
        }
        None => parts,
    }
}

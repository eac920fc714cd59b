//! What a seat sees of a match, and the bytes by which a view is known.
ghost use Rattle.std.specs.Prelude.{◌≡◌};
ghost use Rattle.rc_plain.specs.Plain.{config_of};
ghost use Rattle.rc_rules.specs.Machine.{StopsAtDecision};

use crate::expect::expect_same;
use crate::matches::{copied_key, go_on, seen_by, start_of};
use rc_games::{OPEN_CARD, are_same_controls, are_same_menus, are_same_tables};
use rc_plain::PlainMachine;
use rc_rules::{Machine, MatchDealer, Menu};
use rc_table::Table;
use rc_trick::trick_text;
use rc_view::{Sight, View};
use std::process::Abort;
use std::test::Fail;

/// A decision of the first seat: the table, what is offered, what the seat sees, and the bytes by which that is known.
#[derive(Drop)]
struct Decision {
    table: Table,
    menu: Menu,
    view: View,
    key: Vec<u8>,
}

/// The decision at which a match stands.
fn decision_of(rt: &(impl AllocGlobal + Abort), machine: &PlainMachine) -> Result<Decision, Fail>
    requires { StopsAtDecision machine.now.about (config_of machine.now) }
{
    let view = seen_by(rt, machine, 0)?;
    let key = copied_key(rt.alloc(), &view)?;
    let table = machine.table().copy(rt.alloc())?;
    let menu = machine.menu();
    Ok(Decision {
        table,
        menu,
        view,
        key,
    })
}

/// The first decision of a match of the trick game, where the first two seats hold these cards, from bottom to top.
fn dealt_view(
    rt: &(impl AllocGlobal + Abort),
    deal: u64,
    first: &[u16],
    second: &[u16],
) -> Result<Decision, Fail> {
    let mut machine = start_of(rt.alloc(), trick_text())?;
    go_on(&mut machine, &mut MatchDealer::new(deal))?;
    expect_same(rt, machine.table().list(1), first);
    expect_same(rt, machine.table().list(2), second);
    decision_of(rt, &machine)
}

fn are_same_sights(one: &[Sight], other: &[Sight]) -> bool {
    for pair in one.iter().zip(other) {
        let same = match pair {
            (Sight::Faces(one), Sight::Faces(other)) => one.as_slice() == other.as_slice(),
            (Sight::Partly(one), Sight::Partly(other)) => one.as_slice() == other.as_slice(),
            _ => false,
        };
        if !same {
            return false;
        }
    }
    one.len() == other.len()
}

fn are_same_views(one: &View, other: &View) -> bool {
    one.seat == other.seat
        && are_same_controls(&one.control, &other.control)
        && one.numbers.as_slice() == other.numbers.as_slice()
        && are_same_sights(&one.sights, &other.sights)
}

/// The hand of the first seat in the first two deals.
const HAND: &[u16] = &[23, 20, 25, 12, 34, 32];

/// Fails unless all is the same in a deal that differs only in cards which the first seat doesn't see.
fn expect_alike(rt: &(impl AllocGlobal + Abort), one: &Decision) -> Result<(), Fail> {
    let alike = dealt_view(rt, 904_383, HAND, &[10, 27, 9, 22, 16, 33])?;
    assert!(rt; !are_same_tables(&one.table, &alike.table));
    assert!(rt; are_same_menus(&one.menu, &alike.menu));
    assert!(rt; are_same_views(&one.view, &alike.view));
    expect_same(rt, one.key.as_slice(), alike.key.as_slice());
    Ok(())
}

/// Fails unless the view is another one in a deal that differs in a card of the first seat's own.
fn expect_other(rt: &(impl AllocGlobal + Abort), one: &Decision) -> Result<(), Fail> {
    let other = dealt_view(rt, 17_525, &[23, 20, 25, 12, 2, 32], &[28, 3, 13, 10, 5, 6])?;
    assert!(rt; !are_same_views(&one.view, &other.view));
    assert!(rt; one.key.as_slice() != other.key.as_slice());
    Ok(())
}

/// The hands were made by a ChaCha8 written apart from this program.
#[test]
fn a_seat_sees_its_own_cards_alone(rt: HostRuntime) -> Result<(), Fail> {
    let one = dealt_view(&rt, 37_085, HAND, &[8, 16, 22, 31, 14, 13])?;
    expect_same(&rt, one.menu.len(), 6);
    expect_alike(&rt, &one)?;
    expect_other(&rt, &one)
}

/// What the last seat of the game with an open card sees before the match begins.
const KEY_AT_START: &[u8] = &[
    2, // seat
    255, // no site
    0, 0, 0, 0, // turn count
    0, 0, 0, 0, // decisions of seat 0
    0, 0, 0, 0, // of seat 1
    0, 0, 0, 0, // of seat 2
    0, // open stages
    0, 0, 0, 0, // DEBT
    5, 0, // cards in STOCK
    0, 0, // of which it knows none
    0, 0, // in the HAND of seat 0
    0, 0, // of which it knows none
    0, 0, // of seat 1
    0, 0, // of which it knows none
    0, 0, // of seat 2
    0, 0, // in OPEN
    0, 0, // in MARK
];

/// What it sees at the second decision.
const KEY_AT_DECISION: &[u8] = &[
    2, // seat
    1, // site
    3, 0, 0, 0, // turn count: two rounds and a decision
    1, 0, 0, 0, // decisions of seat 0
    0, 0, 0, 0, // of seat 1
    0, 0, 0, 0, // of seat 2
    2, // open stages
    0, 0, // the outer one
    0, // its member
    0, // forward
    255, // no member is named
    1, 0, // the inner one
    0, // its member
    1, // backward
    2, // the member that is named
    213, 254, 255, 255, // DEBT is -299, which is 4,294,966,997 modulo 2^32
    1, 0, // cards in STOCK
    0, 0, // of which it knows none
    1, 0, // in the HAND of seat 0
    0, 0, // of which it knows none
    1, 0, // of seat 1
    0, 0, // of which it knows none
    1, 0, // of seat 2
    1, 0, // the face of its card, by the smallest of the two ids that have it
    1, 0, // cards in OPEN
    1, 0, // the face
    1, 0, // references in MARK
    1, 0, // the face
];

/// Fails unless these are the bytes of what a seat sees of a match.
fn expect_key(
    rt: &(impl AllocGlobal + Abort),
    machine: &PlainMachine,
    seat: u8,
    expected: &[u8],
) -> Result<(), Fail> {
    let view = seen_by(rt, machine, seat)?;
    let key = copied_key(rt.alloc(), &view)?;
    expect_same(rt, key.as_slice(), expected);
    Ok(())
}

/// A match at its start goes on to its second decision.
fn go_on_twice(machine: &mut PlainMachine, dealer: &mut MatchDealer) -> Result<(), Fail> {
    go_on(machine, dealer)?;
    machine.apply(0, dealer)?;
    go_on(machine, dealer)
}

#[test]
fn the_bytes_of_a_view_tell_each_part_in_turn(rt: HostRuntime) -> Result<(), Fail> {
    let mut machine = start_of(rt.alloc(), OPEN_CARD)?;
    expect_key(&rt, &machine, 2, KEY_AT_START)?;
    go_on_twice(&mut machine, &mut MatchDealer::new(0))?;
    expect_key(&rt, &machine, 2, KEY_AT_DECISION)
}

/// Two seats, of which the one whose turn it is is shown the middle card of three.
const SHOWN: &[u8] = b"\
(game
(setup (create players 2)
(create deck (game hloc STOCK) (deck (RANK (1 2 3)))))
(stage player (end (= 0 1))
(do (peek (filter (game hloc STOCK) 'C (is 'C RANK 2)) (current player)))
(choice (any (known (game hloc STOCK)) 'C (do (move 'C (top (game vloc OPEN)))))))
(scoring max 0))";

/// What the seat that was shown the card sees.
const KEY_OF_SHOWN: &[u8] = &[
    0, // seat
    0, // site
    1, 0, 0, 0, // turn count
    0, 0, 0, 0, // decisions of seat 0
    0, 0, 0, 0, // of seat 1
    1, // open stages
    0, 0, // the stage
    0, // its member
    0, // forward
    255, // no member is named
    3, 0, // cards in STOCK
    1, 0, // of which it knows one
    1, 0, // its place
    1, 0, // its face
    0, 0, // cards in OPEN
];

/// What the other one sees.
const KEY_OF_OTHER: &[u8] = &[
    1, // seat
    0, // site
    1, 0, 0, 0, // turn count
    0, 0, 0, 0, // decisions of seat 0
    0, 0, 0, 0, // of seat 1
    1, // open stages
    0, 0, // the stage
    0, // its member
    0, // forward
    255, // no member is named
    3, 0, // cards in STOCK
    0, 0, // of which it knows none
    0, 0, // cards in OPEN
];

#[test]
fn only_the_seat_that_was_shown_a_card_knows_its_place_and_face(
    rt: HostRuntime,
) -> Result<(), Fail> {
    let mut machine = start_of(rt.alloc(), SHOWN)?;
    go_on(&mut machine, &mut MatchDealer::new(0))?;
    expect_same(&rt, machine.menu().len(), 1);
    expect_key(&rt, &machine, 0, KEY_OF_SHOWN)?;
    expect_key(&rt, &machine, 1, KEY_OF_OTHER)
}

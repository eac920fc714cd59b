//! Menus: of a choice that offers more than a menu has, and of guards and domains that don't read the variables around
//! them.
use crate::expect::expect_same;
use crate::largest::{code_on, flat_first};
use crate::matches::{go_on, start_of};
use rc_games::{are_same_menus, basis_in};
use rc_rules::{Machine, MatchDealer, Menu};
use std::process::Abort;
use std::test::Fail;

/// A hundred cards in a pile, where a card's place is its value of A and then its value of B, and a choice of the first
/// of three players. Its alternatives offer: all cards but ten; each group to each of the other players; the one group
/// of which a guard asks; all groups; all players, since the pile is full; none, since it isn't empty; the fifth card
/// of a filter to each player; all cards to each of the other players, of which 129 are among the first 256 items; and
/// behind them what nobody asks.
const OFFERS: &[u8] = b"(game (setup (create players 3)
  (create deck (game vloc PILE) (deck (A (0 1 2 3 4 5 6 7 8 9)) (B (0 1 2 3 4 5 6 7 8 9)))))
  (stage player (end (= 0 1))
    (choice
      (any (game vloc PILE) 'C (if (not (is 'C A 3)) (cycle reverse)))
      (any player 'P (any (partition (game vloc PILE) B) 'G (if (!= 'P (current player)) (cycle reverse))))
      (any (partition (game vloc PILE) A) 'G (if (is (top 'G) A 7) (cycle reverse)))
      (any (partition (game vloc PILE) A) 'G (do (cycle reverse)))
      (any player 'P (if (= (size (game vloc PILE)) 100) (cycle reverse)))
      (any player 'P (if (= (size (game vloc PILE)) 0) (cycle reverse)))
      (any player 'P (any (filter (game vloc PILE) 'X (is 'X B 2)) 'C (if (is 'C A 4) (cycle reverse))))
      (any player 'P (any (game vloc PILE) 'C (if (!= 'P (current player)) (cycle reverse))))
      (any (partition (game vloc PILE) B) 'G (any 'G 'C (do (cycle reverse))))))
  (scoring max (game sto N)))";

/// Fails unless these are the positions of the item at a place, and moves to the next one.
fn expect_next(rt: &impl Abort, menu: &Menu, place: &mut usize, alt: usize, spots: &[u16]) {
    let found = menu.as_slice().get(*place);
    let told = found.map(|item| (item.alt, item.spots.as_slice()));
    expect_same(rt, told, Some((alt, spots)));
    *place = place.wrapping_add(1);
}

/// Fails unless an alternative offers so many positions to a player.
fn expect_each(
    rt: &impl Abort,
    menu: &Menu,
    place: &mut usize,
    alt: usize,
    player: u16,
    count: u16,
) {
    for spot in 0..count {
        expect_next(rt, menu, place, alt, &[player, spot]);
    }
}

/// Fails unless an alternative offers the positions in a range.
fn expect_range(rt: &impl Abort, menu: &Menu, place: &mut usize, alt: usize, from: u16, to: u16) {
    for spot in from..to {
        expect_next(rt, menu, place, alt, &[spot]);
    }
}

/// Fails unless a menu has the first 256 items that the alternatives offer.
fn expect_offers(rt: &impl Abort, menu: &Menu) {
    let mut place = 0;
    expect_range(rt, menu, &mut place, 0, 0, 30);
    expect_range(rt, menu, &mut place, 0, 40, 100);
    expect_each(rt, menu, &mut place, 1, 1, 10);
    expect_each(rt, menu, &mut place, 1, 2, 10);
    expect_range(rt, menu, &mut place, 2, 7, 8);
    expect_range(rt, menu, &mut place, 3, 0, 10);
    expect_range(rt, menu, &mut place, 4, 0, 3);
    for player in 0..3 {
        expect_next(rt, menu, &mut place, 6, &[player, 4]);
    }
    expect_each(rt, menu, &mut place, 7, 1, 100);
    expect_each(rt, menu, &mut place, 7, 2, 29);
    expect_same(rt, (place, menu.len()), (256, 256));
}

/// The same on both machines.
#[test]
fn a_menu_has_the_first_256_items(rt: HostRuntime) -> Result<(), Fail> {
    let mut machine = start_of(rt.alloc(), OFFERS)?;
    go_on(&mut machine, &mut MatchDealer::new(0))?;
    let menu = machine.menu();
    expect_offers(&rt, &menu);
    let basis = basis_in(rt.alloc(), OFFERS)?;
    let code = code_on(rt.alloc(), &basis)?;
    let flat = flat_first(rt.alloc(), &basis, &code, &mut MatchDealer::new(0))?;
    assert!(rt; are_same_menus(&menu, &flat.menu()));
    Ok(())
}

//! Many cards that are moved at once: to the top, to the bottom and into their own location, all of them or some.
use crate::matches::{expect_lists, go_on, start_of};
use rc_rules::{Machine, MatchDealer};
use std::test::Fail;

/// 24 cards, which are moved before the first decision, and by each item.
pub const MOVES: &[u8] = b"\
(game
(setup (create players 2)
(create deck (game vloc PILE) (deck (SUIT (A B C)) (RANK (1 2 3 4 5 6 7 8)))))
(do (move all (game vloc PILE) (bottom (game vloc LEFT)))
(move all (filter (game vloc LEFT) 'C (is 'C SUIT B)) (top (game vloc RIGHT)))
(move all (game vloc RIGHT) (bottom (game vloc RIGHT)))
(move all (filter (game vloc LEFT) 'C (is 'C SUIT A)) (bottom (game vloc LEFT)))
(move all (filter (game vloc LEFT) 'C (is 'C SUIT C)) (top (game vloc LEFT))))
(stage player (end (= 0 1))
(choice (do (move all (game vloc LEFT) (top (game vloc RIGHT))))
(do (move all (union (game vloc RIGHT) (game vloc LEFT)) (bottom (game vloc PILE))))
(do (move all (filter (game vloc PILE) 'C (not (is 'C RANK 1))) (top (game vloc PILE))))
(do (move all (game vloc PILE) (bottom (game vloc LEFT))))))
(scoring max (size (game vloc PILE))))
";

/// What PILE, LEFT and RIGHT hold at the first decision, from bottom to top, by moving one card after another by hand.
///
/// All cards go to the bottom of LEFT, so that it holds them from 23 down to 0. Those from 15 down to 8 go on top of
/// RIGHT, and from there, the lowest first, to its bottom, so that they come to stand the other way round. Those from 7
/// down to 0 go to the bottom of LEFT, and the others there, 23 down to 16, to its top, as they are.
const MOVED: [&[u16]; 3] = [
    &[],
    &[0, 1, 2, 3, 4, 5, 6, 7, 23, 22, 21, 20, 19, 18, 17, 16],
    &[8, 9, 10, 11, 12, 13, 14, 15],
];

#[test]
fn many_cards_go_where_each_by_itself_goes(rt: HostRuntime) -> Result<(), Fail> {
    let mut machine = start_of(rt.alloc(), MOVES)?;
    go_on(&mut machine, &mut MatchDealer::new(0))?;
    expect_lists(&rt, machine.table(), &MOVED);
    Ok(())
}

//! A dealer whose orders are stated, and what a machine makes of them.
ghost use Rattle.std.specs.Prelude.{◌≡◌, length};
ghost use Rattle.rc_play_spec.specs.Table.{taken};
ghost use Rattle.rc_part_tests.specs.Stated.{stated, after_first};

use crate::expect::expect_same;
use crate::matches::{expect_lists, start_of};
use rc_games::ROWS;
use rc_rules::{Dealer, Machine, Stop};
use std::test::Fail;

/// Puts a list of four items into an order: the first list that it is handed into one, and each later list into
/// another. It leaves lists of other lengths as they are.
#[derive(Drop)]
struct Stated {
    later: bool,
}

impl Dealer for Stated {
    ghost dealing = { λ _. stated };

    ghost state = { λ dealer. after_first dealer.later };

    #[tactic(auto, using(crate::proofs::StatedOrders::permutes))]
    fn shuffle(&mut self, list: &mut [u16]) {
        put_four(self.later, list);
        self.later = true;
    }
}

/// Puts a list of four items into its order.
#[tactic(auto, using(crate::proofs::StatedOrders::stays))]
fn put_four(later: bool, list: &mut [u16])
    ensures { list.new ≡ taken (stated.order (after_first later) (length list.old)) list.old }
{
    if list.len() == 4 {
        let [a, b, c, d] = [list[0], list[1], list[2], list[3]];
        let order = if later { [b, c, a, d] } else { [c, a, d, b] };
        list.copy_from_slice(&order);
    }
}

/// Place by place, each row then has the card that stood at the place which the order of its shuffle tells: 2, 0, 3, 1
/// in the first row, of the cards 0 to 3, and 1, 2, 0, 3 in the second one, of the cards 4 to 7.
const SHUFFLED: [&[u16]; 2] = [&[2, 0, 3, 1], &[5, 6, 4, 7]];

#[test]
fn a_place_takes_the_card_at_the_place_that_the_order_tells(rt: HostRuntime) -> Result<(), Fail> {
    let mut machine = start_of(rt.alloc(), ROWS)?;
    match machine.advance(&mut Stated { later: false }) {
        Ok(stop) => expect_same(&rt, stop, Stop::Done),
        Err(_) => return Err("there is memory".into()),
    }
    expect_lists(&rt, machine.table(), &SHUFFLED);
    Ok(())
}

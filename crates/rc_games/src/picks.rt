//! What seats pick in playouts.
ghost use Rattle.std.specs.Prelude.{◌≡◌, ◌<◌, ◌≤◌};

use rc_draw::{key32, pick_by};
use rc_redraw::Need;

/// A strategy that rolls out.
#[derive(Clone, Copy)]
pub struct Rollout {
    pub rounds: u16,
    pub key: u64,
}

/// What all seats pick in the playout of an item in a round: by keys of the seat that rolls out, which are numbered by
/// the picks and shuffles of this playout.
#[derive(Clone, Copy)]
pub struct Picks {
    key: u64,
    seat: u8,
    seed: u64,
    round: u16,
    item: u16,
    made: u32,
}

impl Picks {
    /// Before the first pick.
    pub fn new(need: &Need, key: u64, round: u16, item: u16) -> Picks {
        Picks {
            key,
            seat: need.view.seat,
            seed: need.seed,
            round,
            item,
            made: 0,
        }
    }

    /// The pick of the seat whose turn it is, out of so many items, behind so many shuffles.
    pub fn next(&mut self, size: u16, shuffles: u32) -> u16
        requires { 0 < size }
        ensures { result < size }
    {
        let drawn = self.made.wrapping_add(shuffles);
        let number = (u64::from(self.round) << 48)
            | (u64::from(self.item) << 32)
            | u64::from(drawn);
        self.made = self.made.wrapping_add(1);
        let key = key32(self.key, 256 * u64::from(self.seat) + 4, self.seed, number);
        pick_by(&key, u32::from(size)) as u16
    }
}

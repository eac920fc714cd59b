//! What strategies pick that ask nothing of playouts.
ghost use Rattle.std.specs.Prelude.{◌≡◌, ◌<◌, slice_index, IfSome};
ghost use Rattle.rc_play_spec.specs.Draws.{keyed, picks, drawn_for};
ghost use Rattle.rc_play_spec.specs.Strategy.{scripted_item};
ghost use Rattle.rc_rules.specs.Control.{control_seen};
ghost use Rattle.rc_rules.specs.Offhand.{offhand_of};
ghost use Rattle.rc_rules.specs.Plan.{strategy_seen};

use crate::control::Control;
use crate::plan::Strategy;
use rc_draw::{Purpose, key32, pick_by};

/// The item that a script or a pick by chance takes out of so many, by the seed of the seats, for a seat that decides
/// where the control says; nothing for a rollout. No view is made for it, since of what the seat sees it asks no more
/// than the control.
pub fn offhand_of(
    strategy: &Strategy,
    seed: u64,
    seat: u8,
    control: &Control,
    size: u16,
) -> Option<u16>
    requires { 0 < size }
    ensures item { result ≡ offhand_of (strategy_seen strategy.now) seed seat (control_seen control.now) size }
    ensures below { IfSome result (λ item. item < size) }
{
    match strategy {
        Strategy::Script(numbers) => Some(scripted_item(numbers, made_by(control, seat), size)),
        Strategy::Random { key } => Some(keyed_pick(*key, seed, seat, control.turn, size)),
        Strategy::Rollout { .. } => None,
    }
}

/// How many decisions a seat made.
pub fn made_by(control: &Control, seat: u8) -> u32
    ensures { result ≡ slice_index (control_seen control.now).made seat }
{
    match control.made.get(seat as usize) {
        Some(made) => *made,
        None => 0,
    }
}

/// The script's number for the decision, modulo the size of the menu; behind the last number it is 0.
pub fn scripted_item(numbers: &[u16], decision: u32, size: u16) -> u16
    requires { 0 < size }
    ensures item { result ≡ scripted_item numbers.now decision size }
    ensures below { result < size }
{
    match numbers.get(decision as usize) {
        Some(number) => *number % size,
        None => 0,
    }
}

/// The pick below the size by the key of the strategy's key, the seat, the seed and the turn count.
pub fn keyed_pick(key: u64, seed: u64, seat: u8, turn: u32, size: u16) -> u16
    requires { 0 < size }
    ensures item { result ≡ keyed.pick key (drawn_for seat picks) seed turn size }
    ensures below { result < size }
{
    let key = key32(key, Purpose::Pick.of(seat), seed, turn as u64);
    pick_by(&key, size as u32) as u16
}

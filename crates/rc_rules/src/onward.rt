//! From one decision of a match to the stop behind it.
ghost use Rattle.std.specs.Prelude.{◌≡◌, ◌<◌, false, length, Some, IfOk, OnOk};
ghost use Rattle.rc_play_spec.specs.Play.{stop_behind};
ghost use Rattle.rc_play_spec.specs.Decision.{choose};
ghost use Rattle.rc_play_spec.specs.Keyed.{dealing_of};
ghost use Rattle.rc_rules.specs.Control.{stop_seen, stopped_of};
ghost use Rattle.rc_rules.specs.Machine.{StopsAtDecision, IsWhereItStops, menu_here};

use crate::control::Stop;
use crate::dealer::MatchDealer;
use crate::machine::Machine;
use rc_deck::Memory;

/// Takes an item at a decision, and goes on to the stop behind it.
///
/// # Errors
///
/// No memory is left.
pub fn go_on<M: Machine>(
    machine: &mut M,
    dealer: &mut MatchDealer,
    item: u16,
) -> Result<Stop, Memory>
    requires fresh { M.spent machine.old ≡ false }
    requires decision { StopsAtDecision (M.about machine.old) (M.config machine.old) }
    requires offered { item < length (menu_here (M.about machine.old) (M.config machine.old)) }
    ensures leads { IfOk result (λ stop.
        stop_behind (M.about machine.old) (dealing_of dealer.old.deal)
        (choose (M.about machine.old) (dealing_of dealer.old.deal) dealer.old.count item (M.config machine.old))
        ≡ Some (stopped_of stop (M.config machine.new) dealer.new.count)) }
    ensures stands { IfOk result (λ stop.
        IsWhereItStops (M.about machine.new) (stop_seen stop) (M.config machine.new)) }
    ensures fresh { OnOk result (M.spent machine.new ≡ false) }
    ensures same { M.about machine.new ≡ M.about machine.old }
    ensures dealing { dealing_of dealer.new.deal ≡ dealing_of dealer.old.deal }
{
    machine.apply(item, dealer)?;
    machine.advance(dealer)
}

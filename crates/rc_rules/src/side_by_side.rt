//! Machines side by side: two machines of one about that stand at one configuration come to one configuration.
ghost use Rattle.std.specs.Prelude.{◌≡◌, ◌<◌, false, length, IfOk, OnOk};
ghost use Rattle.rc_rules.specs.Control.{stop_seen};
ghost use Rattle.rc_rules.specs.Machine.{StopsAtDecision, IsWhereItStops, menu_here};

use crate::control::Stop;
use crate::dealer::Dealer;
use crate::machine::Machine;
use rc_deck::Memory;

/// Machines of one about that stand at one configuration, with dealers of one dealing at one state, stop alike: in the
/// same way, at the same configuration, with the dealers at the same state. Answers both stops, where neither machine
/// lacks memory.
pub fn machines_stop_alike<M: Machine, N: Machine, D: Dealer, E: Dealer>(
    one: &mut M,
    other: &mut N,
    dealer: &mut D,
    other_dealer: &mut E,
) -> Result<(Stop, Stop), Memory>
    requires about { M.about one.old ≡ N.about other.old }
    requires config { M.config one.old ≡ N.config other.old }
    requires dealing { D.dealing dealer.old ≡ E.dealing other_dealer.old }
    requires state { D.state dealer.old ≡ E.state other_dealer.old }
    ensures stop { IfOk result (λ stops. stop_seen stops.0 ≡ stop_seen stops.1) }
    ensures config { OnOk result (M.config one.new ≡ N.config other.new) }
    ensures state { OnOk result (D.state dealer.new ≡ E.state other_dealer.new) }
    ensures stands { IfOk result (λ stops. IsWhereItStops (M.about one.new) (stop_seen stops.0)
        (M.config one.new)) }
    ensures fresh { OnOk result (M.spent one.new ≡ false) }
    ensures other_fresh { OnOk result (N.spent other.new ≡ false) }
    ensures same { M.about one.new ≡ M.about one.old }
    ensures other_same { N.about other.new ≡ N.about other.old }
    ensures dealing { D.dealing dealer.new ≡ D.dealing dealer.old }
    ensures other_dealing { E.dealing other_dealer.new ≡ E.dealing other_dealer.old }
{
    let stop = one.advance(dealer);
    let other_stop = other.advance(other_dealer);
    Ok((stop?, other_stop?))
}

/// Machines of one about that stand at one decision, with dealers of one dealing at one state, go alike by the same
/// item: to the same configuration, with the dealers at the same state, where neither machine lacks memory.
pub fn machines_go_alike<M: Machine, N: Machine, D: Dealer, E: Dealer>(
    one: &mut M,
    other: &mut N,
    item: u16,
    dealer: &mut D,
    other_dealer: &mut E,
) -> Result<(), Memory>
    requires about { M.about one.old ≡ N.about other.old }
    requires config { M.config one.old ≡ N.config other.old }
    requires dealing { D.dealing dealer.old ≡ E.dealing other_dealer.old }
    requires state { D.state dealer.old ≡ E.state other_dealer.old }
    requires decision { StopsAtDecision (M.about one.old) (M.config one.old) }
    requires offered { item < length (menu_here (M.about one.old) (M.config one.old)) }
    ensures config { OnOk result (M.config one.new ≡ N.config other.new) }
    ensures state { OnOk result (D.state dealer.new ≡ E.state other_dealer.new) }
    ensures fresh { OnOk result (M.spent one.new ≡ false) }
    ensures other_fresh { OnOk result (N.spent other.new ≡ false) }
    ensures same { M.about one.new ≡ M.about one.old }
    ensures other_same { N.about other.new ≡ N.about other.old }
    ensures dealing { D.dealing dealer.new ≡ D.dealing dealer.old }
    ensures other_dealing { E.dealing other_dealer.new ≡ E.dealing other_dealer.old }
{
    let went = one.apply(item, dealer);
    let other_went = other.apply(item, other_dealer);
    went?;
    other_went
}

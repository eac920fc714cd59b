//! Machines that play a match.
ghost use Rattle.std.specs.Prelude.{◌≡◌, ◌<◌, ◌≤◌, ℕ, Bool, true, false, length, Some, is_err, IfOk, OnOk, OnErr};
ghost use Rattle.rc_base.specs.Limits.{most_items};
ghost use Rattle.rc_play_spec.specs.About.{About as PureAbout};
ghost use Rattle.rc_play_spec.specs.Step.{Config, goes};
ghost use Rattle.rc_play_spec.specs.Stop.{stop_of};
ghost use Rattle.rc_play_spec.specs.Decision.{choose};
ghost use Rattle.rc_play_spec.specs.Scores.{scores_of};
ghost use Rattle.rc_rules.specs.Control.{control_seen, stop_seen};
ghost use Rattle.rc_rules.specs.Dealer.{ShuffledBy};
ghost use Rattle.rc_rules.specs.Bounds.{bounds_seen};
ghost use Rattle.rc_rules.specs.Menu.{menu_seen};
ghost use Rattle.rc_rules.specs.Machine.{StopsAtDecision, IsWhereItStops, bounds_here, menu_here};

use crate::bound::Bounds;
use crate::control::{Control, Stop};
use crate::dealer::Dealer;
use crate::menu::{Menu, Scores};
use rc_deck::Memory;
use rc_table::Table;

/// Plays a match of an about, from stop to stop. No call changes the about. A machine that lacked memory is spent: it
/// answers Memory from then on, and nothing may be asked of it.
pub trait Machine {
    ghost about: { Self → PureAbout };

    ghost config: { Self → Config };

    ghost spent: { Self → Bool };

    /// Goes on to the next stop: a decision at a menu that has an item, below the turn limit; the end, where nothing is
    /// left to run; or the turn limit. At a stop it answers the same and changes nothing. Where it lacks memory the
    /// dealer is in a state that shuffles lead to.
    fn advance<D: Dealer>(&mut self, dealer: &mut D) -> Result<Stop, Memory>
        ensures leads { IfOk result
            (λ stop. stop_of (about self.old) (D.dealing dealer.old) (D.state dealer.old) (config self.old)
            ≡ Some (record { stop = stop_seen stop; config = config self.new; dealer = D.state dealer.new })) }
        ensures stands { IfOk result (λ stop. IsWhereItStops (about self.old) (stop_seen stop) (config self.new)) }
        ensures fresh { OnOk result (spent self.old ≡ false) }
        ensures spent { spent self.new ≡ is_err result }
        ensures shuffled { OnErr result (ShuffledBy D.dealing D.state dealer.old dealer.new) }
        ensures idle { spent self.old ≡ true → D.state dealer.new ≡ D.state dealer.old }
        ensures same { about self.new ≡ about self.old }
        ensures dealing { D.dealing dealer.new ≡ D.dealing dealer.old };

    /// What the mover may pick.
    fn menu(&self) -> Menu
        requires fresh { spent self.now ≡ false }
        requires decision { StopsAtDecision (about self.now) (config self.now) }
        ensures { menu_seen result.items ≡ menu_here (about self.now) (config self.now) };

    /// How many items the mover may pick. `menu` copies them, and this copies nothing.
    fn menu_size(&self) -> usize
        requires fresh { spent self.now ≡ false }
        requires decision { StopsAtDecision (about self.now) (config self.now) }
        ensures count { result ≡ length (menu_here (about self.now) (config self.now)) }
        ensures few { result ≤ most_items };

    /// What an item of the menu binds.
    fn bounds(&self, item: u16) -> Bounds
        requires fresh { spent self.now ≡ false }
        requires decision { StopsAtDecision (about self.now) (config self.now) }
        requires offered { item < length (menu_here (about self.now) (config self.now)) }
        ensures { bounds_seen result ≡ bounds_here (about self.now) item (config self.now) };

    /// Takes an item of the menu and does its effects. The match then stands behind the decision, and `advance` goes
    /// on. Where it lacks memory the dealer is in a state that shuffles lead to. Of a spent machine nothing is asked.
    fn apply<D: Dealer>(&mut self, item: u16, dealer: &mut D) -> Result<(), Memory>
        requires decision { spent self.old ≡ false → StopsAtDecision (about self.old) (config self.old) }
        requires offered { spent self.old ≡ false → item < length (menu_here (about self.old) (config self.old)) }
        ensures leads { OnOk result
            (choose (about self.old) (D.dealing dealer.old) (D.state dealer.old) item (config self.old)
            ≡ goes (D.state dealer.new) (config self.new)) }
        ensures fresh { OnOk result (spent self.old ≡ false) }
        ensures spent { spent self.new ≡ is_err result }
        ensures shuffled { OnErr result (ShuffledBy D.dealing D.state dealer.old dealer.new) }
        ensures idle { spent self.old ≡ true → D.state dealer.new ≡ D.state dealer.old }
        ensures same { about self.new ≡ about self.old }
        ensures dealing { D.dealing dealer.new ≡ D.dealing dealer.old };

    /// Each player's score.
    fn scores(&self) -> Scores
        requires { spent self.now ≡ false }
        ensures { result.items ≡ scores_of (about self.now) (config self.now).table (config self.now).control };

    /// The table.
    fn table(&self) -> &Table
        requires { spent self.now ≡ false }
        ensures { result.now ≡ record { shape = (about self.now).shape; table = (config self.now).table } };

    /// Where the match stands beside its table.
    fn control(&self) -> &Control
        requires { spent self.now ≡ false }
        ensures { control_seen result.now ≡ (config self.now).control };
}

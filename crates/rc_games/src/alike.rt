//! Two machines side by side.
ghost use Rattle.std.specs.Prelude.{◌≡◌, ◌<◌, ◌≤◌, false, length, IfOk, OnOk};
ghost use Rattle.rc_base.specs.Limits.{most_items};
ghost use Rattle.rc_play_spec.specs.Step.{start};
ghost use Rattle.rc_code.specs.Seen.{code_seen};
ghost use Rattle.rc_code.specs.Stands.{StandsFor};
ghost use Rattle.rc_rules.specs.Control.{stop_seen};
ghost use Rattle.rc_rules.specs.Machine.{StopsAtDecision, IsWhereItStops, menu_here};
ghost use Rattle.rc_games.specs.Alike.{AreAlike};

use crate::game::Game;
use crate::same::{are_same_controls, are_same_menus, are_same_tables};
use crate::stray::Stray;
use rc_flat::FlatMachine;
use rc_plain::PlainMachine;
use rc_rules::{
    About, Ended, Machine, MatchDealer, MatchRecord, Pick, Stop, machines_go_alike,
    machines_stop_alike,
};
use std::alloc::Global;

/// A dealer for each machine.
#[derive(Drop)]
pub struct Dealers {
    pub tree: MatchDealer,
    pub other: MatchDealer,
}

impl Dealers {
    /// Dealers of a match with this seed.
    pub fn new(deal: u64) -> Dealers
        ensures tree { result.tree ≡ record { deal = deal; count = 0 } }
        ensures other { result.other ≡ record { deal = deal; count = 0 } }
    {
        Dealers {
            tree: MatchDealer::new(deal),
            other: MatchDealer::new(deal),
        }
    }
}

/// Fails unless both machines came to the same stop, after as many shuffles, and have the same table and control there.
pub fn expect_same_stop<T: Machine, F: Machine>(
    stops: (Stop, Stop),
    tree: &T,
    other: &F,
    dealers: &Dealers,
) -> Result<(), Stray>
    requires tree { T.spent tree.now ≡ false }
    requires other { F.spent other.now ≡ false }
{
    if stops.0 != stops.1 {
        return Err(Stray::Stop);
    }
    if dealers.tree.count() != dealers.other.count() {
        return Err(Stray::Shuffles);
    }
    if !are_same_tables(tree.table(), other.table()) {
        return Err(Stray::Table);
    }
    if !are_same_controls(tree.control(), other.control()) {
        return Err(Stray::Control);
    }
    Ok(())
}

/// How many items both machines offer. Fails unless these are the same.
pub fn items_of_both<T: Machine, F: Machine>(tree: &T, other: &F) -> Result<usize, Stray>
    requires tree { T.spent tree.now ≡ false }
    requires other { F.spent other.now ≡ false }
    requires tree_decides { StopsAtDecision (T.about tree.now) (T.config tree.now) }
    requires other_decides { StopsAtDecision (F.about other.now) (F.config other.now) }
    ensures tree { IfOk result (λ n. n ≡ length (menu_here (T.about tree.now) (T.config tree.now))) }
    ensures other { IfOk result (λ n. n ≡ length (menu_here (F.about other.now) (F.config other.now))) }
    ensures few { IfOk result (λ n. n ≤ most_items) }
{
    let size = tree.menu_size();
    if other.menu_size() != size || !are_same_menus(&tree.menu(), &other.menu()) {
        return Err(Stray::Menu);
    }
    Ok(size)
}

/// Fails unless both machines have the same scores.
pub fn expect_same_scores<T: Machine, F: Machine>(tree: &T, other: &F) -> Result<(), Stray>
    requires tree { T.spent tree.now ≡ false }
    requires other { F.spent other.now ≡ false }
{
    if tree.scores().as_slice() == other.scores().as_slice() {
        Ok(())
    } else {
        Err(Stray::Scores)
    }
}

/// Plays a record's picks once more, on the tree machine and on flat machines, of which one notes nothing, as matches
/// are played, and one notes its edits. Fails unless all come to the stops that the record tells, and have the same
/// tables, controls, menus and scores there.
pub fn replay(alloc: Global, game: &Game, played: &MatchRecord) -> Result<(), Stray>
    requires { StandsFor game.now.about.value.sheet (code_seen game.now.code.value) }
{
    let onward = FlatMachine::onward_start(alloc, &game.code, &game.about)?;
    replay_beside(alloc, &game.about, played, onward)?;
    let noting = FlatMachine::start_of(alloc, &game.code, &game.about)?;
    replay_beside(alloc, &game.about, played, noting)
}

/// The same on the tree machine and on another one, which stands at the start of the match.
fn replay_beside<F: Machine + Drop>(
    alloc: Global,
    about: &About,
    played: &MatchRecord,
    other: F,
) -> Result<(), Stray>
    requires about { F.about other ≡ about.now }
    requires start { F.config other ≡ start about.now }
{
    let mut other = other;
    let mut tree = PlainMachine::start_of(alloc, about)?;
    let mut dealers = Dealers::new(played.deal);
    for pick in &played.picks {
        pick_on_both(&mut tree, &mut other, &mut dealers, pick)?;
    }
    end_both(&mut tree, &mut other, &mut dealers, played)
}

/// Both machines go on to the next stop. Fails unless that is the same.
fn stop_both<T: Machine, F: Machine>(
    tree: &mut T,
    other: &mut F,
    dealers: &mut Dealers,
) -> Result<Stop, Stray>
    requires { AreAlike (T.about tree.old) (F.about other.old) (T.config tree.old)
        (F.config other.old) dealers.old.tree dealers.old.other }
    ensures alike { OnOk result (AreAlike (T.about tree.new) (F.about other.new) (T.config tree.new)
        (F.config other.new) dealers.new.tree dealers.new.other) }
    ensures stands { IfOk result (λ stop. IsWhereItStops (T.about tree.new) (stop_seen stop) (T.config tree.new)) }
    ensures fresh { OnOk result (T.spent tree.new ≡ false) }
    ensures other_fresh { OnOk result (F.spent other.new ≡ false) }
{
    let stops = machines_stop_alike(tree, other, &mut dealers.tree, &mut dealers.other)?;
    expect_same_stop(stops, tree, other, dealers)?;
    Ok(stops.0)
}

/// Both machines go on to the decision of a pick, and make it.
fn pick_on_both<T: Machine, F: Machine>(
    tree: &mut T,
    other: &mut F,
    dealers: &mut Dealers,
    pick: &Pick,
) -> Result<(), Stray>
    requires { AreAlike (T.about tree.old) (F.about other.old) (T.config tree.old)
        (F.config other.old) dealers.old.tree dealers.old.other }
    ensures { OnOk result (AreAlike (T.about tree.new) (F.about other.new) (T.config tree.new)
        (F.config other.new) dealers.new.tree dealers.new.other) }
{
    match stop_both(tree, other, dealers)? {
        Stop::Decide { seat, site } => {
            if (seat, site) != (pick.seat, pick.site) {
                return Err(Stray::Stop);
            }
            take_on_both(tree, other, dealers, pick)
        }
        _ => Err(Stray::Stop),
    }
}

fn take_on_both<T: Machine, F: Machine>(
    tree: &mut T,
    other: &mut F,
    dealers: &mut Dealers,
    pick: &Pick,
) -> Result<(), Stray>
    requires tree { T.spent tree.old ≡ false }
    requires other { F.spent other.old ≡ false }
    requires decides { StopsAtDecision (T.about tree.old) (T.config tree.old) }
    requires alike { AreAlike (T.about tree.old) (F.about other.old) (T.config tree.old)
        (F.config other.old) dealers.old.tree dealers.old.other }
    ensures { OnOk result (AreAlike (T.about tree.new) (F.about other.new) (T.config tree.new)
        (F.config other.new) dealers.new.tree dealers.new.other) }
{
    let size = items_of_both(tree, other)?;
    if size != usize::from(pick.size) || usize::from(pick.item) >= size {
        return Err(Stray::Menu);
    }
    Ok(machines_go_alike(
        tree,
        other,
        pick.item,
        &mut dealers.tree,
        &mut dealers.other,
    )?)
}

/// Both machines go on to the end of a record.
fn end_both<T: Machine, F: Machine>(
    tree: &mut T,
    other: &mut F,
    dealers: &mut Dealers,
    played: &MatchRecord,
) -> Result<(), Stray>
    requires { AreAlike (T.about tree.old) (F.about other.old) (T.config tree.old)
        (F.config other.old) dealers.old.tree dealers.old.other }
{
    let stop = stop_both(tree, other, dealers)?;
    expect_same_scores(tree, other)?;
    expect_end(stop, tree, dealers.tree.count(), played)
}

/// Fails unless a machine stands at the end of a record, after as many shuffles.
fn expect_end<T: Machine>(
    stop: Stop,
    tree: &T,
    shuffles: u32,
    played: &MatchRecord,
) -> Result<(), Stray>
    requires { T.spent tree.now ≡ false }
{
    let end = match played.stop {
        Ended::Done => Stop::Done,
        Ended::Limit => Stop::Limit,
    };
    if stop != end || tree.control().turn != played.turn {
        return Err(Stray::Stop);
    }
    if shuffles != played.shuffles {
        return Err(Stray::Shuffles);
    }
    let scores = tree.scores();
    for (score, told) in scores.as_slice().iter().zip(&played.scores) {
        if *score != told.score {
            return Err(Stray::Scores);
        }
    }
    Ok(())
}

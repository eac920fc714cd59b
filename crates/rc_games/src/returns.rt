//! Playouts that go back to where they were begun.
ghost use Rattle.std.specs.Prelude.{◌≡◌, ◌<◌, true, false, length, IfOk, OnOk};
ghost use Rattle.rc_code.specs.Seen.{code_seen};
ghost use Rattle.rc_code.specs.Stands.{StandsFor};
ghost use Rattle.rc_flat.specs.Machine.{KeepsTables};
ghost use Rattle.rc_plain.specs.Plain.{config_of};
ghost use Rattle.rc_redraw.specs.Need.{need_seen, IsNeed};
ghost use Rattle.rc_rules.specs.Machine.{CanDecide, StopsAtDecision, menu_here};

use crate::alike::{Dealers, expect_same_scores, expect_same_stop, items_of_both};
use crate::observed::Observer;
use crate::picks::{Picks, Rollout};
use crate::stray::Stray;
use crate::there::{There, flat_at, home_at, redrawn_table, tree_at};
use rc_code::Code;
use rc_deck::Memory;
use rc_flat::{FlatMachine, HomeMachine};
use rc_plain::PlainMachine;
use rc_redraw::Need;
use rc_rules::{Machine, MatchDealer, Menu, Stop, Strategy};
use rc_table::Table;
use std::alloc::Global;
use std::sync::Arc;

/// How many playouts came back, and how often they shuffled.
#[derive(Clone, Copy, Debug, PartialEq, Eq)]
pub struct Playouts {
    pub made: u32,
    pub shuffles: u32,
}

/// Makes the playouts of each rollout that it sees, from the redrawn table of each round: on a machine that goes home,
/// side by side with the tree machine, and on one that goes back to a mark. Behind each playout they are to stand at
/// the decision again.
#[derive(Drop)]
pub struct Returns {
    seen: Result<Playouts, Stray>,
}

impl Returns {
    /// Before the first decision.
    pub fn new() -> Returns {
        Returns {
            seen: Ok(Playouts {
                made: 0,
                shuffles: 0,
            }),
        }
    }

    /// How many playouts came back, unless one did not.
    pub fn playouts_seen(&self) -> Result<Playouts, Stray> {
        self.seen
    }
}

impl Observer for Returns {
    fn see(&mut self, alloc: Global, need: &Need, code: &Arc<Code>) {
        if let (Ok(playouts), Strategy::Rollout { rounds, key }) = (self.seen, &need.strategy) {
            let rollout = Rollout {
                rounds: *rounds,
                key: *key,
            };
            self.seen = with_playouts(alloc, need, code, rollout, playouts);
        }
    }
}

/// The playouts of a rollout, and those before them.
fn with_playouts(
    alloc: Global,
    need: &Need,
    code: &Arc<Code>,
    rollout: Rollout,
    before: Playouts,
) -> Result<Playouts, Stray>
    requires need { IsNeed (need_seen need.now) }
    requires code { StandsFor (need_seen need.now).about.sheet (code_seen code.now.value) }
{
    let first = redrawn_table(alloc, need, rollout.key, 0)?;
    let mut home = home_at(alloc, need, code, &first)?;
    let mut playouts = before;
    for round in 0..rollout.rounds {
        let more = round_of(alloc, need, code, rollout.key, round, &mut home)?;
        playouts = sum_of(playouts, more);
    }
    Ok(playouts)
}

fn sum_of(one: Playouts, other: Playouts) -> Playouts {
    Playouts {
        made: one.made.saturating_add(other.made),
        shuffles: one.shuffles.saturating_add(other.shuffles),
    }
}

/// The playouts of a round. The home of the machine is the decision with the table of another one.
fn round_of(
    alloc: Global,
    need: &Need,
    code: &Arc<Code>,
    key: u64,
    round: u16,
    home: &mut HomeMachine,
) -> Result<Playouts, Stray>
    requires need { IsNeed (need_seen need.now) }
    requires code { StandsFor (need_seen need.now).about.sheet (code_seen code.now.value) }
    requires about { home.old.about ≡ (need_seen need.now).about }
    requires control { home.old.home.control ≡ (need_seen need.now).view.control }
    ensures about { home.new.about ≡ (need_seen need.now).about }
    ensures control { home.new.home.control ≡ (need_seen need.now).view.control }
{
    let table = redrawn_table(alloc, need, key, round)?;
    home.move_home(&table);
    let mut flat = flat_at(alloc, need, code, &table)?;
    playouts_from(alloc, need, &table, (key, round), &mut flat, home)
}

/// The playouts of all items from a table, on both machines.
fn playouts_from(
    alloc: Global,
    need: &Need,
    table: &Table,
    draws: (u64, u16),
    flat: &mut FlatMachine,
    home: &mut HomeMachine,
) -> Result<Playouts, Stray>
    requires laid { table.now.shape ≡ (need_seen need.now).about.shape }
    requires decides { CanDecide (need_seen need.now).about table.now.table (need_seen need.now).view.control }
    requires notes { flat.old.notes ≡ true }
    ensures about { home.new.about ≡ home.old.about }
    ensures home { home.new.home ≡ home.old.home }
{
    let mut shuffles = 0u32;
    for item in 0..need.menu {
        let picks = Picks::new(need, draws.0, draws.1, item);
        let mut tree = tree_at(alloc, need, table)?;
        let menu = first_menu(&mut tree)?;
        let there = There { table, need, menu };
        shuffles = shuffles.saturating_add(comes_home(&there, item, picks, &mut tree, home)?);
        goes_back(&there, item, picks, flat)?;
    }
    Ok(Playouts {
        made: u32::from(need.menu),
        shuffles,
    })
}

/// What the tree machine offers where it stands.
fn first_menu(tree: &mut PlainMachine) -> Result<Menu, Stray>
    ensures decision { IfOk result (λ _. StopsAtDecision tree.new.about (config_of tree.new)) }
{
    match tree.advance(&mut MatchDealer::new(0))? {
        Stop::Decide { .. } => Ok(tree.menu()),
        _ => Err(Stray::Stop),
    }
}

/// Plays out an item on the tree machine and on the machine that is at home, side by side, and goes home. How often
/// they shuffled.
fn comes_home(
    there: &There<'_>,
    item: u16,
    picks: Picks,
    tree: &mut PlainMachine,
    home: &mut HomeMachine,
) -> Result<u32, Stray>
    requires decision { StopsAtDecision tree.old.about (config_of tree.old) }
    ensures about { home.new.about ≡ home.old.about }
    ensures home { home.new.home ≡ home.old.home }
{
    let mut dealers = Dealers::new(0);
    begin_at_home(there, item, tree, home, &mut dealers)?;
    play_out_on_both(there, picks, tree, home, &mut dealers)?;
    home.go_home();
    there.expect_at(home)?;
    Ok(dealers.tree.count())
}

/// Both machines take an item at the decision.
fn begin_at_home(
    there: &There<'_>,
    item: u16,
    tree: &mut PlainMachine,
    home: &mut HomeMachine,
    dealers: &mut Dealers,
) -> Result<(), Stray>
    requires decision { StopsAtDecision tree.old.about (config_of tree.old) }
    ensures about { home.new.about ≡ home.old.about }
    ensures home { home.new.home ≡ home.old.home }
{
    let Stop::Decide { .. } = home.advance(&mut dealers.other)? else {
        return Err(Stray::Stop);
    };
    there.expect_offered(home)?;
    take_at_home(item, tree, home, dealers)
}

/// Both machines take an item where they stand.
fn take_at_home(
    item: u16,
    tree: &mut PlainMachine,
    home: &mut HomeMachine,
    dealers: &mut Dealers,
) -> Result<(), Stray>
    requires fresh { home.old.spent ≡ false }
    requires decision { StopsAtDecision tree.old.about (config_of tree.old) }
    requires other { StopsAtDecision home.old.about home.old.config }
    ensures about { home.new.about ≡ home.old.about }
    ensures home { home.new.home ≡ home.old.home }
{
    let size = items_of_both(tree, home)?;
    if usize::from(item) >= size {
        return Err(Stray::Menu);
    }
    tree.apply(item, &mut dealers.tree)?;
    home.apply(item, &mut dealers.other)?;
    Ok(())
}

/// Both machines play on to the end.
fn play_out_on_both(
    there: &There<'_>,
    picks: Picks,
    tree: &mut PlainMachine,
    home: &mut HomeMachine,
    dealers: &mut Dealers,
) -> Result<(), Stray>
    ensures about { home.new.about ≡ home.old.about }
    ensures home { home.new.home ≡ home.old.home }
{
    let mut picks = picks;
    for _ in 0..=u64::from(there.need.about.turns()) {
        if is_over_on_both(&mut picks, tree, home, dealers)? {
            return Ok(());
        }
    }
    Err(Stray::Endless)
}

/// Both machines go on to the next stop, and behind it, unless it is the end.
fn is_over_on_both(
    picks: &mut Picks,
    tree: &mut PlainMachine,
    home: &mut HomeMachine,
    dealers: &mut Dealers,
) -> Result<bool, Stray>
    ensures about { home.new.about ≡ home.old.about }
    ensures home { home.new.home ≡ home.old.home }
{
    let stop = tree.advance(&mut dealers.tree)?;
    let stops = (stop, home.advance(&mut dealers.other)?);
    expect_same_stop(stops, tree, home, dealers)?;
    match stops {
        (Stop::Decide { .. }, Stop::Decide { .. }) => {
            let size = items_of_both(tree, home)?;
            let item = picks.next(size as u16, dealers.tree.count());
            take_at_home(item, tree, home, dealers)?;
            Ok(false)
        }
        _ => {
            expect_same_scores(tree, home)?;
            Ok(true)
        }
    }
}

/// Plays out an item from a mark, and goes back to it.
fn goes_back(
    there: &There<'_>,
    item: u16,
    picks: Picks,
    flat: &mut FlatMachine,
) -> Result<(), Stray>
    requires { flat.old.notes ≡ true }
    ensures { flat.new.notes ≡ true }
{
    let mut dealer = MatchDealer::new(0);
    stand_at_decision(there, item, flat, &mut dealer)?;
    let mark = flat.mark();
    play_item(there, item, picks, flat, &mut dealer)?;
    flat.undo_to(mark);
    there.expect_at(flat)?;
    stand_at_decision(there, item, flat, &mut dealer)
}

/// Fails unless the machine stands at the decision, where this item is offered.
fn stand_at_decision(
    there: &There<'_>,
    item: u16,
    flat: &mut FlatMachine,
    dealer: &mut MatchDealer,
) -> Result<(), Stray>
    ensures keeps { KeepsTables flat.old flat.new }
    ensures fresh { OnOk result (flat.new.spent ≡ false) }
    ensures decision { OnOk result (StopsAtDecision flat.new.about flat.new.config) }
    ensures offered { OnOk result (item < length (menu_here flat.new.about flat.new.config)) }
{
    let Stop::Decide { .. } = flat.advance(dealer)? else {
        return Err(Stray::Stop);
    };
    there.expect_offered(flat)?;
    if usize::from(item) >= flat.menu_size() {
        return Err(Stray::Menu);
    }
    Ok(())
}

/// Takes an item and plays on to the end.
fn play_item(
    there: &There<'_>,
    item: u16,
    picks: Picks,
    flat: &mut FlatMachine,
    dealer: &mut MatchDealer,
) -> Result<(), Stray>
    requires decision { StopsAtDecision flat.old.about flat.old.config }
    requires offered { item < length (menu_here flat.old.about flat.old.config) }
    ensures { KeepsTables flat.old flat.new }
{
    flat.apply(item, dealer)?;
    let mut picks = picks;
    for _ in 0..=u64::from(there.need.about.turns()) {
        if is_over(&mut picks, flat, dealer)? {
            return Ok(());
        }
    }
    Err(Stray::Endless)
}

/// Goes on to the next stop, and behind it, unless it is the end.
fn is_over(
    picks: &mut Picks,
    flat: &mut FlatMachine,
    dealer: &mut MatchDealer,
) -> Result<bool, Stray>
    ensures { KeepsTables flat.old flat.new }
{
    let Stop::Decide { .. } = flat.advance(dealer)? else {
        return Ok(true);
    };
    take_next(picks, flat, dealer)?;
    Ok(false)
}

/// Takes the item that is picked where the machine stands.
fn take_next(
    picks: &mut Picks,
    flat: &mut FlatMachine,
    dealer: &mut MatchDealer,
) -> Result<(), Memory>
    requires fresh { flat.old.spent ≡ false }
    requires decision { StopsAtDecision flat.old.about flat.old.config }
    ensures { KeepsTables flat.old flat.new }
{
    let size = flat.menu_size();
    let item = picks.next(size as u16, dealer.count());
    flat.apply(item, dealer)
}

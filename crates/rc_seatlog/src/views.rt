//! What a seat sees at each decision of a match, by its record.
ghost use Rattle.std.specs.Prelude.{◌≡◌, ◌<◌, length, map, take, false, Some, IfOk, OnOk};
ghost use Rattle.rc_play_spec.specs.Step.{start};
ghost use Rattle.rc_play_spec.specs.Keyed.{dealing_of};
ghost use Rattle.rc_rules.specs.Record.{pick_seen};
ghost use Rattle.rc_view.specs.Seen.{view_seen};
ghost use Rattle.rc_log_spec.specs.Log.{most_told};
ghost use Rattle.rc_log_spec.specs.Views.{views_in};
ghost use Rattle.rc_log_spec.specs.Plays.{IsPlayOf};

use crate::told::first_told;
use rc_deck::Memory;
use rc_rules::{Machine, MatchDealer, MatchRecord, Pick, go_on};
use rc_table::Shape;
use rc_view::{View, view_of};
use std::alloc::Global;

/// What the seat saw at each decision, on a machine that stands at the start of the match. The record is that of a play
/// with the shuffles of its deal.
///
/// # Errors
///
/// No memory is left.
pub fn views_of<M: Machine + Drop>(
    alloc: Global,
    shape: &Shape,
    played: &MatchRecord,
    machine: M,
    seat: u8,
) -> Result<Vec<View>, Memory>
    requires fresh { M.spent machine ≡ false }
    requires start { M.config machine ≡ start (M.about machine) }
    requires shape { (M.about machine).shape ≡ shape.now }
    requires seat { seat < shape.now.players }
    requires legal { IsPlayOf (M.about machine) (dealing_of played.now.deal) (map pick_seen played.now.picks.items) }
    ensures { IfOk result (λ views. map view_seen views.items
        ≡ views_in (M.about machine) (dealing_of played.now.deal) seat (map pick_seen played.now.picks.items)) }
{
    views_at(alloc, shape, played.deal, &played.picks, machine, seat)
}

/// What the seat saw at the first decisions, as many as a log tells. The match isn't gone along behind them, and no
/// view is kept that the log leaves out.
///
/// # Errors
///
/// No memory is left.
pub fn first_views_of<M: Machine + Drop>(
    alloc: Global,
    shape: &Shape,
    played: &MatchRecord,
    machine: M,
    seat: u8,
) -> Result<Vec<View>, Memory>
    requires fresh { M.spent machine ≡ false }
    requires start { M.config machine ≡ start (M.about machine) }
    requires shape { (M.about machine).shape ≡ shape.now }
    requires seat { seat < shape.now.players }
    requires legal { IsPlayOf (M.about machine) (dealing_of played.now.deal) (map pick_seen played.now.picks.items) }
    ensures { IfOk result (λ views. map view_seen views.items
        ≡ take most_told (views_in (M.about machine) (dealing_of played.now.deal) seat
        (map pick_seen played.now.picks.items))) }
{
    views_at(
        alloc,
        shape,
        played.deal,
        first_told(&played.picks),
        machine,
        seat,
    )
}

// What the seat saw where these choices were made one after another.
fn views_at<M: Machine + Drop>(
    alloc: Global,
    shape: &Shape,
    deal: u64,
    picks: &[Pick],
    mut machine: M,
    seat: u8,
) -> Result<Vec<View>, Memory>
    requires fresh { M.spent machine ≡ false }
    requires start { M.config machine ≡ start (M.about machine) }
    requires shape { (M.about machine).shape ≡ shape.now }
    requires seat { seat < shape.now.players }
    requires legal { IsPlayOf (M.about machine) (dealing_of deal) (map pick_seen picks.now) }
    ensures { IfOk result (λ views. map view_seen views.items
        ≡ views_in (M.about machine) (dealing_of deal) seat (map pick_seen picks.now)) }
{
    let mut dealer = MatchDealer::new(deal);
    machine.advance(&mut dealer)?;
    let mut views = Vec::new(alloc);
    for pick in picks {
        views.push(view_of(alloc, shape, machine.table(), machine.control(), seat)?)?;
        go_on(&mut machine, &mut dealer, pick.item)?;
    }
    Ok(views)
}

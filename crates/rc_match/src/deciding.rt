//! What is picked at a stop of a match that is played at once.
ghost use Rattle.std.specs.Prelude.{◌≡◌, ◌<◌, ◌++◌, false, length, Some, IfSome, IfOk, OnOk, OnErr};
ghost use Rattle.rc_play_spec.specs.About.{About as PureAbout};
ghost use Rattle.rc_play_spec.specs.Owners.{mover};
ghost use Rattle.rc_redraw.specs.Choosing.{AsksAll, AsksSome, Chooses, ChoiceLacks};
ghost use Rattle.rc_redraw.specs.Need.{IsNeed};
ghost use Rattle.rc_rules.specs.Bounds.{match_bounds};
ghost use Rattle.rc_rules.specs.Control.{stop_seen};
ghost use Rattle.rc_rules.specs.Machine.{StopsAtDecision, IsWhereItStops, menu_here};
ghost use Rattle.rc_rules.specs.Record.{record_seen};
ghost use Rattle.rc_match.specs.Chosen.{Chosen, IsChoice, IsOffhand, asked_at};
ghost use Rattle.rc_match.specs.Job.{of_job, IsInPlan, HasStrategies};
ghost use Rattle.rc_match.specs.Named.{noted_here};
ghost use Rattle.rc_match.specs.Lane.{asks, need_at, notes_at, phase_at};

use crate::ending::complete;
use crate::job::{Job, deal_of, strategy_of};
use crate::stepping::need_of;
use rc_base::Steps;
use rc_deck::Memory;
use rc_redraw::Chooser;
use rc_rules::{Bounds, Ended, Machine, MatchDealer, MatchRecord, Stop, offhand_of};
use std::alloc::Global;
use std::sync::ledger::Ledger;

/// The item that is picked at a decision, and nothing at an end, where the record is completed. What the item binds is
/// noted, where that is asked for.
pub(crate) fn picked_at<M: Machine, C: Chooser, L: Ledger>(
    alloc: Global,
    job: &Job,
    stop: Stop,
    machine: &M,
    dealer: &MatchDealer,
    notes: &mut MatchRecord,
    noted: bool,
    bounds: &mut Vec<Bounds>,
    chooser: &mut C,
    steps: &mut Steps<L>,
) -> Result<Option<u16>, Memory>
    requires number { IsInPlan job.now }
    requires seats { HasStrategies job.now }
    requires about { M.about machine.now ≡ job.now.about.value }
    requires fresh { M.spent machine.now ≡ false }
    requires stands { IsWhereItStops job.now.about.value (stop_seen stop) (M.config machine.now) }
    requires plays { mover job.now.about.value.sheet (M.config machine.now).control.frames
        < job.now.about.value.sheet.players }
    requires asks { IsChoice (C.serves chooser.old) (of_job job.now phase_at (stop_seen stop) (M.config machine.now)) }
    ensures chosen { IfOk result
        (λ pick. Chosen (of_job job.now phase_at (stop_seen stop) (M.config machine.now)) pick) }
    ensures notes { OnOk result (record_seen notes.new
        ≡ notes_at job.now.about.value (record_seen notes.old) (stop_seen stop)
        (M.config machine.now) dealer.now.count) }
    ensures bounds { IfOk result (λ pick. match_bounds bounds.new
        ≡ match_bounds bounds.old ++ noted_here noted job.now.about.value (M.config machine.now) pick) }
    ensures asked { OnOk result (AsksAll
        (asked_at (of_job job.now phase_at (stop_seen stop) (M.config machine.now)))
        (C.counts chooser.old) (C.counts chooser.new) steps.old steps.new) }
    ensures lacking { OnErr result (AsksSome
        (asked_at (of_job job.now phase_at (stop_seen stop) (M.config machine.now)))
        (C.counts chooser.old) (C.counts chooser.new) steps.old steps.new) }
    ensures same { (about : PureAbout) → C.serves chooser.old about → C.serves chooser.new about }
    ensures named { C.name chooser.new ≡ C.name chooser.old }
{
    match stop {
        Stop::Decide { seat, .. } => {
            let item = item_of(alloc, job, seat, machine, chooser, steps)?;
            note(noted, machine, item, bounds)?;
            Ok(Some(item))
        }
        Stop::Done => {
            complete(alloc, &job.about, machine, dealer, Ended::Done, notes)?;
            Ok(None)
        }
        Stop::Limit => {
            complete(alloc, &job.about, machine, dealer, Ended::Limit, notes)?;
            Ok(None)
        }
    }
}

// Notes what an item of the menu binds, where that is asked for.
#[inline(always)]
fn note<M: Machine>(
    noted: bool,
    machine: &M,
    item: u16,
    bounds: &mut Vec<Bounds>,
) -> Result<(), Memory>
    requires fresh { M.spent machine.now ≡ false }
    requires decides { StopsAtDecision (M.about machine.now) (M.config machine.now) }
    requires offered { item < length (menu_here (M.about machine.now) (M.config machine.now)) }
    ensures { OnOk result (match_bounds bounds.new
        ≡ match_bounds bounds.old ++ noted_here noted (M.about machine.now) (M.config machine.now) (Some item)) }
{
    if noted {
        bounds.push(machine.bounds(item))?;
    }
    Ok(())
}

// The item that the strategy of the seat that decides chooses. The chooser is asked where the strategy is a rollout.
// What others pick is taken at once, since for them no view has to be made.
fn item_of<M: Machine, C: Chooser, L: Ledger>(
    alloc: Global,
    job: &Job,
    seat: u8,
    machine: &M,
    chooser: &mut C,
    steps: &mut Steps<L>,
) -> Result<u16, Memory>
    requires number { IsInPlan job.now }
    requires seats { HasStrategies job.now }
    requires about { M.about machine.now ≡ job.now.about.value }
    requires fresh { M.spent machine.now ≡ false }
    requires decides { StopsAtDecision job.now.about.value (M.config machine.now) }
    requires plays { seat < job.now.about.value.sheet.players }
    requires served { C.serves chooser.old job.now.about.value }
    requires need { IsNeed (of_job job.now need_at seat (M.config machine.now)) }
    ensures chosen { IfOk result
        (λ item. Chosen (asks (of_job job.now need_at seat (M.config machine.now))) (Some item)) }
    ensures asked { OnOk result (Chooses (of_job job.now need_at seat (M.config machine.now))
        (C.counts chooser.old) (C.counts chooser.new) steps.old steps.new) }
    ensures lacking { OnErr result (ChoiceLacks (of_job job.now need_at seat (M.config machine.now))
        (C.counts chooser.old) (C.counts chooser.new) steps.old steps.new) }
    ensures same { (about : PureAbout) → C.serves chooser.old about → C.serves chooser.new about }
    ensures named { C.name chooser.new ≡ C.name chooser.old }
{
    match offhand_at(job, seat, machine) {
        Some(item) => Ok(item),
        None => {
            let need = need_of(alloc, job, seat, machine)?;
            chooser.choose(alloc, need, steps)
        }
    }
}

// The item where the strategy asks nothing of playouts, and nothing where it does.
fn offhand_at<M: Machine>(job: &Job, seat: u8, machine: &M) -> Option<u16>
    requires number { IsInPlan job.now }
    requires seats { HasStrategies job.now }
    requires about { M.about machine.now ≡ job.now.about.value }
    requires fresh { M.spent machine.now ≡ false }
    requires decides { StopsAtDecision job.now.about.value (M.config machine.now) }
    requires plays { seat < job.now.about.value.sheet.players }
    requires need { IsNeed (of_job job.now need_at seat (M.config machine.now)) }
    ensures { IfSome result (IsOffhand (of_job job.now need_at seat (M.config machine.now))) }
{
    // what an about keeps
    let _sheet = job.about.sheet();
    offhand_of(
        strategy_of(&job.plan, job.number, seat),
        deal_of(&job.plan, job.number).seats,
        seat,
        machine.control(),
        machine.menu_size() as u16,
    )
}

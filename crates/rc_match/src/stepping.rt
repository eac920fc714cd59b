//! The step of a match from one stop to the next.
ghost use Rattle.std.specs.Prelude.{◌≡◌, ◌<◌, false, length, Some, IfSome, IfOk, OnOk, OnErr};
ghost use Rattle.rc_play_spec.specs.Owners.{mover};
ghost use Rattle.rc_play_spec.specs.Step.{goes};
ghost use Rattle.rc_play_spec.specs.Stop.{stop_of};
ghost use Rattle.rc_play_spec.specs.Decision.{choose};
ghost use Rattle.rc_play_spec.specs.Keyed.{dealing_of};
ghost use Rattle.rc_rules.specs.Control.{stop_seen};
ghost use Rattle.rc_rules.specs.Record.{pick_seen, ending_seen, record_seen};
ghost use Rattle.rc_rules.specs.Machine.{StopsAtDecision, IsWhereItStops, menu_here};
ghost use Rattle.rc_redraw.specs.Need.{need_seen};
ghost use Rattle.rc_match.specs.Job.{of_job, DealsFor, IsInPlan, HasStrategies};
ghost use Rattle.rc_match.specs.Lane.{ready, over, lane_of, phase_seen, pick_here, noted, next_stop, need_at};
ghost use Rattle.rc_match.specs.Lane.{stopped_at, lane_at, completed, notes_at, phase_at, stepped};
ghost use Rattle.rc_match.specs.Way.{IsOnWay, HasMorePicks};

use crate::ending::complete;
use crate::job::{Job, deal_of, strategy_of};
use crate::lane::Phase;
use rc_base::Class;
use rc_deck::Memory;
use rc_redraw::Need;
use rc_rules::{About, Ended, Machine, MatchDealer, MatchRecord, Pick, Stop, current_in};
use rc_view::view_of;
use std::alloc::Global;
use std::sync::Arc;

/// Applies the pick, if there is one, and goes on to the next stop: what the match waits for there.
pub(crate) fn go_on<M: Machine>(
    alloc: Global,
    job: &Job,
    pick: Option<u16>,
    machine: &mut M,
    dealer: &mut MatchDealer,
    notes: &mut MatchRecord,
) -> Result<Phase, Memory>
    requires number { IsInPlan job.now }
    requires seats { HasStrategies job.now }
    requires about { M.about machine.old ≡ job.now.about.value }
    requires deal { DealsFor job.now dealer.old }
    requires fresh { M.spent machine.old ≡ false }
    requires way { of_job job.now IsOnWay (lane_of (M.config machine.old) dealer.old notes.old (ready pick)) }
    ensures stepped { IfOk result (λ phase.
        of_job job.now stepped (lane_of (M.config machine.old) dealer.old notes.old (ready pick))
        ≡ Some (lane_of (M.config machine.new) dealer.new notes.new (phase_seen phase))) }
    ensures way { IfOk result
        (λ phase. of_job job.now IsOnWay (lane_of (M.config machine.new) dealer.new notes.new (phase_seen phase))) }
    ensures about { M.about machine.new ≡ job.now.about.value }
    ensures deal { DealsFor job.now dealer.new }
    ensures fresh { OnOk result (M.spent machine.new ≡ false) }
    ensures kept { OnErr result (HasMorePicks (record_seen notes.old) (record_seen notes.new)) }
{
    let stop = go_to_stop(job, pick, machine, dealer, notes)?;
    arrive(alloc, job, stop, machine, dealer, notes)
}

/// Applies the pick, if there is one, and goes on to the next stop.
pub(crate) fn go_to_stop<M: Machine>(
    job: &Job,
    pick: Option<u16>,
    machine: &mut M,
    dealer: &mut MatchDealer,
    notes: &mut MatchRecord,
) -> Result<Stop, Memory>
    requires about { M.about machine.old ≡ job.now.about.value }
    requires deal { DealsFor job.now dealer.old }
    requires fresh { M.spent machine.old ≡ false }
    requires way { of_job job.now IsOnWay (lane_of (M.config machine.old) dealer.old notes.old (ready pick)) }
    ensures stepped { IfOk result (λ stop.
        of_job job.now stepped (lane_of (M.config machine.old) dealer.old notes.old (ready pick))
        ≡ Some (of_job job.now lane_at (record_seen notes.new)
        (stopped_at (stop_seen stop) (M.config machine.new) dealer.new))) }
    ensures way { IfOk result (λ stop. of_job job.now IsOnWay (of_job job.now lane_at (record_seen notes.new)
        (stopped_at (stop_seen stop) (M.config machine.new) dealer.new))) }
    ensures stands { IfOk result (λ stop. IsWhereItStops job.now.about.value (stop_seen stop)
        (M.config machine.new)) }
    ensures plays { OnOk result (mover job.now.about.value.sheet (M.config machine.new).control.frames
        < job.now.about.value.sheet.players) }
    ensures about { M.about machine.new ≡ job.now.about.value }
    ensures deal { DealsFor job.now dealer.new }
    ensures fresh { OnOk result (M.spent machine.new ≡ false) }
    ensures picks { HasMorePicks (record_seen notes.old) (record_seen notes.new) }
{
    // what an about keeps
    let _sheet = job.about.sheet();
    take_any(&job.about, pick, machine, dealer, notes)?;
    let stop = machine.advance(dealer)?;
    Ok(stop)
}

// Notes the pick and does its effects, if there is one.
fn take_any<M: Machine>(
    about: &About,
    pick: Option<u16>,
    machine: &mut M,
    dealer: &mut MatchDealer,
    notes: &mut MatchRecord,
) -> Result<(), Memory>
    requires about { M.about machine.old ≡ about.now }
    requires fresh { M.spent machine.old ≡ false }
    requires decides { IfSome pick (λ item. StopsAtDecision about.now (M.config machine.old)) }
    requires offered { IfSome pick (λ item. item < length (menu_here about.now (M.config machine.old))) }
    ensures leads { OnOk result
        (next_stop about.now (dealing_of dealer.old.deal) dealer.old.count (M.config machine.old) pick
        ≡ stop_of about.now (dealing_of dealer.old.deal) dealer.new.count (M.config machine.new)) }
    ensures noted { OnOk result (record_seen notes.new
        ≡ noted about.now (M.config machine.old) (record_seen notes.old) pick) }
    ensures about { M.about machine.new ≡ about.now }
    ensures deal { dealing_of dealer.new.deal ≡ dealing_of dealer.old.deal }
    ensures fresh { OnOk result (M.spent machine.new ≡ false) }
    ensures picks { HasMorePicks (record_seen notes.old) (record_seen notes.new) }
{
    match pick {
        Some(item) => take(about, item, machine, dealer, notes),
        None => Ok(()),
    }
}

// Notes a pick and does its effects.
fn take<M: Machine>(
    about: &About,
    item: u16,
    machine: &mut M,
    dealer: &mut MatchDealer,
    notes: &mut MatchRecord,
) -> Result<(), Memory>
    requires about { M.about machine.old ≡ about.now }
    requires fresh { M.spent machine.old ≡ false }
    requires decides { StopsAtDecision about.now (M.config machine.old) }
    requires offered { item < length (menu_here about.now (M.config machine.old)) }
    ensures leads { OnOk result
        (choose about.now (dealing_of dealer.old.deal) dealer.old.count item (M.config machine.old)
        ≡ goes dealer.new.count (M.config machine.new)) }
    ensures noted { OnOk result (record_seen notes.new
        ≡ noted about.now (M.config machine.old) (record_seen notes.old) (Some item)) }
    ensures about { M.about machine.new ≡ about.now }
    ensures deal { dealing_of dealer.new.deal ≡ dealing_of dealer.old.deal }
    ensures fresh { OnOk result (M.spent machine.new ≡ false) }
    ensures picks { HasMorePicks (record_seen notes.old) (record_seen notes.new) }
{
    let pick = pick_of(about, machine, item);
    notes.picks.push(pick)?;
    machine.apply(item, dealer)
}

// The pick of an item where the mover decides.
fn pick_of<M: Machine>(about: &About, machine: &M, item: u16) -> Pick
    requires about { M.about machine.now ≡ about.now }
    requires fresh { M.spent machine.now ≡ false }
    requires decides { StopsAtDecision about.now (M.config machine.now) }
    ensures { pick_seen result ≡ pick_here about.now (M.config machine.now) item }
{
    // what an about keeps
    let _sheet = about.sheet();
    let control = machine.control();
    Pick {
        seat: current_in(about, Class::Player, control.frames.as_slice()),
        site: control.site.unwrap_or(0),
        item,
        size: machine.menu_size() as u16,
    }
}

// What the match waits for at a stop.
fn arrive<M: Machine>(
    alloc: Global,
    job: &Job,
    stop: Stop,
    machine: &M,
    dealer: &MatchDealer,
    notes: &mut MatchRecord,
) -> Result<Phase, Memory>
    requires number { IsInPlan job.now }
    requires seats { HasStrategies job.now }
    requires about { M.about machine.now ≡ job.now.about.value }
    requires fresh { M.spent machine.now ≡ false }
    requires stands { IsWhereItStops job.now.about.value (stop_seen stop) (M.config machine.now) }
    requires plays { mover job.now.about.value.sheet (M.config machine.now).control.frames
        < job.now.about.value.sheet.players }
    ensures phase { IfOk result
        (λ phase. phase_seen phase ≡ of_job job.now phase_at (stop_seen stop) (M.config machine.now)) }
    ensures notes { OnOk result (record_seen notes.new
        ≡ notes_at job.now.about.value (record_seen notes.old) (stop_seen stop)
        (M.config machine.now) dealer.now.count) }
    ensures kept { OnErr result (notes.new ≡ notes.old) }
{
    match stop {
        Stop::Decide { seat, .. } => Ok(Phase::Asks(need_of(alloc, job, seat, machine)?)),
        Stop::Done => end(alloc, job, Ended::Done, machine, dealer, notes),
        Stop::Limit => end(alloc, job, Ended::Limit, machine, dealer, notes),
    }
}

/// What the strategy of the seat that decides is to choose by.
pub(crate) fn need_of<M: Machine>(
    alloc: Global,
    job: &Job,
    seat: u8,
    machine: &M,
) -> Result<Need, Memory>
    requires number { IsInPlan job.now }
    requires seats { HasStrategies job.now }
    requires about { M.about machine.now ≡ job.now.about.value }
    requires fresh { M.spent machine.now ≡ false }
    requires decides { StopsAtDecision job.now.about.value (M.config machine.now) }
    requires plays { seat < job.now.about.value.sheet.players }
    ensures { IfOk result (λ need. need_seen need ≡ of_job job.now need_at seat (M.config machine.now)) }
{
    // what an about keeps
    let _sheet = job.about.sheet();
    let view = view_of(
        alloc,
        job.about.shape(),
        machine.table(),
        machine.control(),
        seat,
    )?;
    let strategy = strategy_of(&job.plan, job.number, seat).copy(alloc)?;
    let about = Arc::try_clone(&job.about)?;
    Ok(Need {
        about,
        strategy,
        seed: deal_of(&job.plan, job.number).seats,
        menu: machine.menu_size() as u16,
        view,
    })
}

// Completes the record at an end.
fn end<M: Machine>(
    alloc: Global,
    job: &Job,
    stop: Ended,
    machine: &M,
    dealer: &MatchDealer,
    notes: &mut MatchRecord,
) -> Result<Phase, Memory>
    requires about { M.about machine.now ≡ job.now.about.value }
    requires fresh { M.spent machine.now ≡ false }
    ensures phase { IfOk result (λ phase. phase_seen phase ≡ over) }
    ensures notes { OnOk result (record_seen notes.new
        ≡ completed job.now.about.value (record_seen notes.old) (ending_seen stop)
        (M.config machine.now) dealer.now.count) }
    ensures kept { OnErr result (notes.new ≡ notes.old) }
{
    complete(alloc, &job.about, machine, dealer, stop, notes)?;
    Ok(Phase::Over)
}

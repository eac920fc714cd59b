//! Matches in which a search plays for one strategy.
ghost use Rattle.std.specs.Prelude.{◌≡◌, ◌<◌, ◌≤◌, ◌==◌, false, length, Some, IfOk, IsTrue, ◌↔◌};
ghost use Rattle.rc_ast.specs.Sheet.{sheet_seen};
ghost use Rattle.rc_code.specs.Seen.{code_seen};
ghost use Rattle.rc_code.specs.Stands.{StandsFor};
ghost use Rattle.rc_play_spec.specs.About.{About as PureAbout};
ghost use Rattle.rc_play_spec.specs.Plan.{strategy_held};
ghost use Rattle.rc_play_spec.specs.Step.{start};
ghost use Rattle.rc_play_spec.specs.Strategy as strategy;
ghost use Rattle.rc_redraw.specs.Need.{need_seen, IsNeed};
ghost use Rattle.rc_rules.specs.Plan.{plan_seen};
ghost use Rattle.rc_rules.specs.Record.{record_seen};
ghost use Rattle.rc_play_spec.specs.SearchLaws.{HasTwoTeams};
ghost use Rattle.rc_play_spec.specs.Rivals.{rival_choice, rival_match};
ghost use Rattle.rc_play_spec.specs.Search.{searched as searched_for, totals};
ghost use Rattle.rc_view.specs.Seen.{view_seen};
ghost use Rattle.rc_search.specs.Rival.{rival_seen, CanBeSearched, IsRival};
ghost use Rattle.rc_match.specs.Job.{of_job, IsInPlan, HasStrategies};
ghost use Rattle.rc_match.specs.Lane.{phase_seen, ready};
ghost use Rattle.rc_search.specs.Chosen.{Chosen, IsAsked, IsOfMatch};

use crate::rival::{Found, Rival, Seen};
use crate::totals::{plain_totals, pruned_totals};
use rc_ast::Sheet;
use rc_base::Steps;
use rc_code::Code;
use rc_deck::Memory;
use rc_match::{Job, Phase, begin, held_by, lane_step};
use rc_redraw::{Chooser, Need};
use rc_rollout::first_largest;
use rc_rules::{Machine, MatchRecord};
use std::alloc::Global;
use std::mem::replace;
use std::sync::Arc;
use std::sync::ledger::Ledger;

/// Plays a match on a machine that stands at its start, and records it. At each decision of the seat that has the
/// rival's strategy it searches from what the seat sees, on code that stands for the sheet. The items of all other
/// seats are asked of the chooser. Memory may run out.
pub fn play_rival<M: Machine + Drop, C: Chooser, L: Ledger>(
    alloc: Global,
    job: &Job,
    code: &Arc<Code>,
    rival: &Rival,
    machine: M,
    chooser: &mut C,
    steps: &mut Steps<L>,
) -> Result<MatchRecord, Memory>
    requires about { M.about machine ≡ job.now.about.value }
    requires start { M.config machine ≡ start job.now.about.value }
    requires fresh { M.spent machine ≡ false }
    requires number { IsInPlan job.now }
    requires seats { HasStrategies job.now }
    requires served { C.serves chooser.old job.now.about.value }
    requires code { StandsFor job.now.about.value.sheet (code_seen code.now.value) }
    requires rival { IsRival rival.now }

    // The record is the one that the definitions give for this match of the plan, in which the seat with the rival's
    // strategy searches.
    ensures record { IfOk result (λ r.
        rival_match job.now.about.value (rival_seen rival.now) (plan_seen job.now.plan.value) job.now.number
        ≡ Some (record_seen r)) }
    ensures each { IfOk result (λ r. length r.scores.items ≡ job.now.about.value.sheet.players) }

    // The chooser still serves whatever it served.
    ensures same { (about : PureAbout) → C.serves chooser.old about → C.serves chooser.new about }
{
    // what an about keeps
    let _sheet = job.about.sheet();
    let mut lane = begin(alloc, job, machine)?;
    loop {
        lane_step(alloc, &mut lane, job)?;
        let phase = replace(&mut lane.phase, Phase::Spent);
        match next_item(alloc, job, code, rival, phase, chooser, steps)? {
            Some(item) => make_ready(&mut lane.phase, item),
            None => return Ok(lane.notes),
        }
    }
}

// Makes a pick ready.
fn make_ready(phase: &mut Phase, item: u16)
    ensures { phase_seen phase.new ≡ ready (Some item) }
{
    *phase = Phase::Ready(Some(item));
}

// The item that is chosen at a stop of the match, and none where it is over.
fn next_item<C: Chooser, L: Ledger>(
    alloc: Global,
    job: &Job,
    code: &Arc<Code>,
    rival: &Rival,
    phase: Phase,
    chooser: &mut C,
    steps: &mut Steps<L>,
) -> Result<Option<u16>, Memory>
    requires seats { HasStrategies job.now }
    requires some { 1 ≤ job.now.about.value.sheet.players }
    requires served { C.serves chooser.old job.now.about.value }
    requires code { StandsFor job.now.about.value.sheet (code_seen code.now.value) }
    requires rival { IsRival rival.now }
    requires asked { of_job job.now IsAsked (phase_seen phase) }
    ensures chosen { IfOk result (Chosen job.now.about.value (rival_seen rival.now)
        (plan_seen job.now.plan.value) job.now.number
        (phase_seen phase)) }
    ensures same { (about : PureAbout) → C.serves chooser.old about → C.serves chooser.new about }
{
    match phase {
        Phase::Asks(need) => {
            let item = item_of(alloc, job, code, rival, need, chooser, steps)?;
            Ok(Some(item))
        }
        _ => Ok(None),
    }
}

// The item that is chosen at a decision of the match.
fn item_of<C: Chooser, L: Ledger>(
    alloc: Global,
    job: &Job,
    code: &Arc<Code>,
    rival: &Rival,
    need: Need,
    chooser: &mut C,
    steps: &mut Steps<L>,
) -> Result<u16, Memory>
    requires seats { HasStrategies job.now }
    requires some { 1 ≤ job.now.about.value.sheet.players }
    requires served { C.serves chooser.old job.now.about.value }
    requires code { StandsFor job.now.about.value.sheet (code_seen code.now.value) }
    requires rival { IsRival rival.now }
    requires need { IsNeed (need_seen need) }
    requires of { of_job job.now IsOfMatch (need_seen need) }
    ensures choice { IfOk result (λ item. item
        ≡ rival_choice job.now.about.value (rival_seen rival.now) (plan_seen job.now.plan.value) job.now.number
        need.view.seat (view_seen need.view)) }
    ensures same { (about : PureAbout) → C.serves chooser.old about → C.serves chooser.new about }
{
    if holds(job, need.view.seat, rival.strategy) {
        search_item(alloc, code, rival, &need, steps)
    } else {
        chooser.choose(alloc, need, steps)
    }
}

// Whether a seat has the strategy with this number.
fn holds(job: &Job, seat: u8, strategy: u8) -> bool
    requires { 0 < length job.now.plan.value.strategies.items }
    ensures { result ≡ (strategy_held (plan_seen job.now.plan.value) job.now.number seat == strategy) }
{
    held_by(&job.plan, job.number, seat) == strategy as usize
}

// The item that the search chooses.
fn search_item<L: Ledger>(
    alloc: Global,
    code: &Arc<Code>,
    rival: &Rival,
    need: &Need,
    steps: &mut Steps<L>,
) -> Result<u16, Memory>
    requires need { IsNeed (need_seen need.now) }
    requires code { StandsFor (need_seen need.now).about.sheet (code_seen code.now.value) }
    requires rival { IsRival rival.now }
    ensures { IfOk result (λ item. item
        ≡ searched_for (need_seen need.now).about (rival_seen rival.now) (need_seen need.now).seed
        (need_seen need.now).view) }
{
    let seen = seen_of(alloc, code, need)?;
    let found = found_in(alloc, &seen, rival, steps)?;
    Ok(best_item(&found.totals, need.menu))
}

// The item with the first of the largest totals, of a menu of so many.
fn best_item(totals: &[u32], menu: u16) -> u16
    requires { length totals.now ≡ menu }
    ensures { result ≡ strategy.first_largest totals.now }
{
    first_largest(totals) as u16
}

// What is to be searched.
fn seen_of(alloc: Global, code: &Arc<Code>, need: &Need) -> Result<Seen, Memory>
    ensures about { IfOk result (λ seen. seen.about.value ≡ (need_seen need.now).about) }
    ensures code { IfOk result (λ seen. seen.code.value ≡ code.now.value) }
    ensures seed { IfOk result (λ seen. seen.seed ≡ (need_seen need.now).seed) }
    ensures view { IfOk result (λ seen. view_seen seen.view ≡ (need_seen need.now).view) }
{
    let about = Arc::try_clone(&need.about)?;
    let code = Arc::try_clone(code)?;
    let view = need.view.copy(alloc)?;
    Ok(Seen {
        about,
        code,
        seed: need.seed,
        view,
    })
}

// What a search finds. In a game of two teams it leaves items out.
fn found_in<L: Ledger>(
    alloc: Global,
    seen: &Seen,
    rival: &Rival,
    steps: &mut Steps<L>,
) -> Result<Found, Memory>
    requires searched { CanBeSearched seen.now }
    requires rival { IsRival rival.now }
    ensures { IfOk result (λ found. found.totals.items
        ≡ totals seen.now.about.value (rival_seen rival.now) seen.now.seed (view_seen seen.now.view)) }
{
    if has_two_teams(seen.about.sheet()) {
        pruned_totals(alloc, seen, rival, steps)
    } else {
        plain_totals(alloc, seen, rival, steps)
    }
}

/// Whether the sheet has two teams. Without teams each player is one.
pub fn has_two_teams(sheet: &Sheet) -> bool
    ensures { IsTrue result ↔ HasTwoTeams (sheet_seen sheet.now) }
{
    match &sheet.teams {
        Some(teams) => teams.list.len() == 2,
        None => sheet.players == 2,
    }
}

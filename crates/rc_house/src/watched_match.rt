//! What a seat sees of a match that is played by itself.
ghost use Rattle.std.specs.Prelude.{◌≡◌, ◌<◌, ◌≤◌, length, Some, IfOk};
ghost use Rattle.rc_play_spec.specs.About.{about_of};
ghost use Rattle.rc_play_spec.specs.Keyed.{dealing_of, keyed_match};
ghost use Rattle.rc_play_spec.specs.Limits.{IsWithinLimits};
ghost use Rattle.rc_code.specs.Seen.{code_seen};
ghost use Rattle.rc_code.specs.Stands.{StandsFor};
ghost use Rattle.rc_rules.specs.Plan.{plan_seen, IsPlanFor};
ghost use Rattle.rc_rules.specs.Record.{record_seen};
ghost use Rattle.rc_log_spec.specs.Laws.{AllCount};
ghost use Rattle.rc_log_spec.specs.Log.{log};
ghost use Rattle.rc_log_spec.specs.Plays.{IsPlayOf};
ghost use Rattle.rc_log_spec.specs.Views.{views_in, log_of};

use rc_base::Steps;
use rc_code::Code;
use rc_deck::Memory;
use rc_flat::FlatMachine;
use rc_flow::Checked;
use rc_log_spec::{records_tell_views, views_of_matches_count};
use rc_rollout::{Blank, Choices, shared_code};
use rc_rules::{About, MatchRecord, Plan, shared_about};
use rc_seatlog::{first_views_of, write_first};
use rc_series::record_of;
use std::alloc::Global;
use std::marker::Brand;
use std::sync::ledger::Ledger;
use std::sync::{Arc, ledger};

/// The log of a seat in a match of a plan. That match is played for a checked sheet, and no other one is. The plan is
/// within the limits, and has a strategy for each player. Memory may run out.
pub fn watched_log(
    alloc: Global,
    checked: Checked,
    plan: Plan,
    seat: u8,
    number: u32,
) -> Result<Vec<u8>, Memory>
    requires within { IsWithinLimits (plan_seen plan) }
    requires seats { length (plan_seen plan).strategies ≡ checked.players }
    requires seat { seat < checked.players }
    requires number { number < length (plan_seen plan).matches }

    // The bytes are the log that the definitions give of what the seat sees in that match.
    ensures { IfOk result (λ bytes. bytes.items ≡ log_of (about_of checked plan.turns) (plan_seen plan) number seat) }
{
    let about = shared_about(alloc, checked, plan.turns)?;
    let code = shared_code(alloc, &about)?;
    let plan = Arc::new(alloc, plan)?;
    watched_alone::<Brand>(
        alloc,
        ledger::Blank::new(1),
        &about,
        &plan,
        &code,
        seat,
        number,
    )
}

// The log of a seat in a match of a plan, on a ledger that no type stands for yet.
fn watched_alone<L: Ledger>(
    alloc: Global,
    blank: ledger::Blank,
    about: &Arc<About>,
    plan: &Arc<Plan>,
    code: &Arc<Code>,
    seat: u8,
    number: u32,
) -> Result<Vec<u8>, Memory>
    requires name { blank.name ≡ L.name }
    requires parts { blank.parts ≡ L.parts }
    requires some { 0 < blank.parts }
    requires code { StandsFor about.now.value.sheet (code_seen code.now.value) }
    requires seats { IsPlanFor about.now.value plan.now.value }
    requires seat { seat < about.now.value.sheet.players }
    requires number { number < length plan.now.value.matches.items }
    ensures { IfOk result (λ bytes. bytes.items ≡ log_of about.now.value (plan_seen plan.now.value) number seat) }
{
    records_tell_views();
    views_of_matches_count();
    // what an about keeps
    let _sheet = about.sheet();
    let _turns = about.turns();
    let played = record_alone::<L>(alloc, blank, about, plan, code, number)?;
    log_of_record(alloc, about, code, &played, seat, number)
}

// The record of a match that no other is played beside. Within one match no view is asked for twice, since the turn
// count rises: so what rollouts find is kept in no book.
fn record_alone<L: Ledger>(
    alloc: Global,
    blank: ledger::Blank,
    about: &Arc<About>,
    plan: &Arc<Plan>,
    code: &Arc<Code>,
    number: u32,
) -> Result<MatchRecord, Memory>
    requires name { blank.name ≡ L.name }
    requires parts { blank.parts ≡ L.parts }
    requires some { 0 < blank.parts }
    requires code { StandsFor about.now.value.sheet (code_seen code.now.value) }
    requires seats { IsPlanFor about.now.value plan.now.value }
    requires number { number < length plan.now.value.matches.items }
    ensures { IfOk result (λ played.
        keyed_match about.now.value (plan_seen plan.now.value) number ≡ Some (record_seen played)) }
{
    let mut steps = Steps::<L>::new(blank);
    let mut choices = Choices::new(Arc::try_clone(about)?, Arc::try_clone(code)?, Blank::new());
    let played = record_of(
        alloc,
        about,
        plan,
        code,
        number,
        false,
        &mut choices,
        &mut steps,
    )?;
    Ok(played.record)
}

// The log of a seat in the match of this number, of which this is the record. There is a view for each choice, and only
// those are made that the log tells.
fn log_of_record(
    alloc: Global,
    about: &About,
    code: &Arc<Code>,
    played: &MatchRecord,
    seat: u8,
    number: u32,
) -> Result<Vec<u8>, Memory>
    requires code { StandsFor about.now.sheet (code_seen code.now.value) }
    requires seat { seat < about.now.shape.players }
    requires play { IsPlayOf about.now (dealing_of played.now.deal) (record_seen played.now).picks }
    requires counts { AllCount about.now.shape seat
        (views_in about.now (dealing_of played.now.deal) seat (record_seen played.now).picks) }
    requires each { length (views_in about.now (dealing_of played.now.deal) seat (record_seen played.now).picks)
        ≡ length (record_seen played.now).picks }
    ensures { IfOk result (λ bytes. bytes.items
        ≡ log seat number (views_in about.now (dealing_of played.now.deal) seat (record_seen played.now).picks)) }
{
    let machine = FlatMachine::onward_start(alloc, code, about)?;
    let views = first_views_of(alloc, about.shape(), played, machine, seat)?;
    write_first(alloc, seat, number, &views, played.picks.len())
}

//! The records of a plan's matches.
ghost use Rattle.std.specs.Prelude.{◌≡◌, ◌<◌, ◌≤◌, ◌+◌, map, length, Some, All, IfOk, OnOk, OnErr};
ghost use Rattle.rc_base.specs.Limits.{most_matches};
ghost use Rattle.rc_play_spec.specs.About.{About as PureAbout};
ghost use Rattle.rc_play_spec.specs.Keyed.{keyed_match};
ghost use Rattle.rc_code.specs.Seen.{code_seen};
ghost use Rattle.rc_code.specs.Stands.{StandsFor};
ghost use Rattle.rc_redraw.specs.Choosing.{AsksAll, AsksSome, all_costs};
ghost use Rattle.rc_rules.specs.Plan.{plan_seen, IsPlanFor};
ghost use Rattle.rc_match.specs.Asks.{asks_of};
ghost use Rattle.rc_match.specs.Named.{IsNoted};
ghost use Rattle.rc_series.specs.Series.{IsNotedAs, looks_below, played_seen, records_below};

use rc_base::Steps;
use rc_code::Code;
use rc_deck::Memory;
use rc_flat::FlatMachine;
use rc_match::{Job, Played, play_noted};
use rc_redraw::Chooser;
use rc_rules::{About, Plan};
use std::alloc::Global;
use std::sync::Arc;
use std::sync::ledger::Ledger;

/// The records of a plan's matches, in order, by any chooser, on code that stands for the sheet, with what their
/// choices bind, where that is to be noted. Memory may run out.
pub fn records_of<C: Chooser, L: Ledger>(
    alloc: Global,
    about: &Arc<About>,
    plan: &Arc<Plan>,
    code: &Arc<Code>,
    noted: bool,
    chooser: &mut C,
    steps: &mut Steps<L>,
) -> Result<Vec<Played>, Memory>
    requires code { StandsFor about.now.value.sheet (code_seen code.now.value) }
    requires served { C.serves chooser.old about.now.value }
    requires matches { length plan.now.value.matches.items ≤ most_matches }
    requires seats { IsPlanFor about.now.value plan.now.value }

    // The records are those that the definitions give for the plan's matches, in order.
    ensures are { IfOk result (λ records. map played_seen records.items
        ≡ records_below about.now.value (plan_seen plan.now.value) (length plan.now.value.matches.items)) }
    ensures count { IfOk result (λ records. length records.items ≡ length plan.now.value.matches.items) }
    ensures each { IfOk result (λ records. All
        (λ p. length p.record.scores.items ≡ about.now.value.sheet.players) records.items) }

    // What choices bind is noted as the definitions tell it, or nothing is, where that isn't asked for.
    ensures noted { IfOk result (λ records. All
        (IsNotedAs noted about.now.value (plan_seen plan.now.value)) records.items) }

    // Counts and steps rise as where what the rollout decisions of all matches ask is looked up in order; where memory
    // runs out, the first of it.
    ensures asked { OnOk result (AsksAll
        (looks_below about.now.value (plan_seen plan.now.value) (length plan.now.value.matches.items))
        (C.counts chooser.old) (C.counts chooser.new) steps.old steps.new) }
    ensures lacking { OnErr result (AsksSome
        (looks_below about.now.value (plan_seen plan.now.value) (length plan.now.value.matches.items))
        (C.counts chooser.old) (C.counts chooser.new) steps.old steps.new) }
{
    let mut records = Vec::new(alloc);
    for number in 0..plan.matches.len() as u32 {
        let played = record_of(alloc, about, plan, code, number, noted, chooser, steps)?;
        records.push(played)?;
    }
    Ok(records)
}

/// The record of one match, by any chooser, on code that stands for the sheet, with what its choices bind, where that
/// is to be noted. Memory may run out.
pub fn record_of<C: Chooser, L: Ledger>(
    alloc: Global,
    about: &Arc<About>,
    plan: &Arc<Plan>,
    code: &Arc<Code>,
    number: u32,
    noted: bool,
    chooser: &mut C,
    steps: &mut Steps<L>,
) -> Result<Played, Memory>
    requires code { StandsFor about.now.value.sheet (code_seen code.now.value) }
    requires served { C.serves chooser.old about.now.value }
    requires number { number < length plan.now.value.matches.items }
    requires seats { IsPlanFor about.now.value plan.now.value }

    // The record is the one that the definitions give for this match of the plan.
    ensures record { IfOk result (λ p. keyed_match about.now.value (plan_seen plan.now.value) number
        ≡ Some (played_seen p)) }
    ensures each { IfOk result (λ p. length p.record.scores.items ≡ about.now.value.sheet.players) }

    // What choices bind is noted as the definitions tell it, or nothing is, where that isn't asked for.
    ensures noted { IfOk result (IsNoted noted about.now.value (plan_seen plan.now.value) number) }

    // Counts and steps rise as where what the match's rollout decisions ask is looked up in order; where memory runs
    // out, the first of it.
    ensures asked { OnOk result (AsksAll (asks_of about.now.value (plan_seen plan.now.value) number)
        (C.counts chooser.old) (C.counts chooser.new) steps.old steps.new) }
    ensures lacking { OnErr result (AsksSome (asks_of about.now.value (plan_seen plan.now.value) number)
        (C.counts chooser.old) (C.counts chooser.new) steps.old steps.new) }

    // The chooser still serves whatever it served.
    ensures same { (other : PureAbout) → C.serves chooser.old other → C.serves chooser.new other }
    ensures named { C.name chooser.new ≡ C.name chooser.old }
    ensures rises { steps.old ≤ steps.new }

    // No more steps are counted than where none of these lookups hits.
    ensures bounded { steps.new ≤ steps.old + all_costs (asks_of about.now.value (plan_seen plan.now.value) number) }
{
    let machine = FlatMachine::onward_start(alloc, code, about)?;
    let job = Job::of(about, plan, number)?;
    play_noted(alloc, &job, noted, machine, chooser, steps)
}

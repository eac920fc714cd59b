//! What one worker does.
ghost use Rattle.std.specs.Prelude.{◌≡◌, ◌<◌, ◌≤◌, [], length, All, IfOk, OnOk};
ghost use Rattle.rc_play_spec.specs.About.{About as PureAbout};
ghost use Rattle.rc_rules.specs.Plan.{plan_seen, IsPlanFor};
ghost use Rattle.rc_code.specs.Seen.{code_seen};
ghost use Rattle.rc_code.specs.Stands.{StandsFor};
ghost use Rattle.rc_match.specs.Asks.{asks_of};
ghost use Rattle.rc_series.specs.Turns.{IsRecordIn, IsTurn, IsWork, Rise};

use crate::records::record_of;
use rc_base::Steps;
use rc_claims::{Claims, Pass};
use rc_code::Code;
use rc_deck::Memory;
use rc_match::Played;
use rc_outside::Gate;
use rc_redraw::Chooser;
use rc_rules::{About, Plan};
use std::alloc::Global;
use std::marker::Brand;
use std::sync::Arc;
use std::sync::ledger::{Blank, Ledger};

/// A worker before its turn: what it claims matches by, and what chooses for it.
#[derive(Drop)]
pub(crate) struct Worker<C: Drop> {
    pub(crate) pass: Pass,
    pub(crate) chooser: C,
}

/// What a worker has behind its turn: the pass, the records of the matches that it claimed, and the chooser.
#[derive(Drop)]
pub(crate) struct Turn<C: Drop> {
    pub(crate) pass: Pass,
    pub(crate) records: Vec<Played>,
    pub(crate) chooser: C,
}

/// Claims matches and plays them, until none is left, on code that stands for the sheet.
pub(crate) fn take_turn<C: Chooser + Drop, G: Gate>(
    alloc: Global,
    about: &Arc<About>,
    plan: &Arc<Plan>,
    code: &Arc<Code>,
    noted: bool,
    claims: &Claims,
    gate: &G,
    worker: Worker<C>,
) -> Result<Turn<C>, Memory>
    requires own { worker.pass.table ≡ claims.now.table }
    requires none { worker.pass.numbers ≡ [] }
    requires count { claims.now.count ≡ length plan.now.value.matches.items }
    requires seats { IsPlanFor about.now.value plan.now.value }
    requires served { C.serves worker.chooser about.now.value }
    requires code { StandsFor about.now.value.sheet (code_seen code.now.value) }
    ensures { IfOk result (IsTurn C.name C.counts noted about.now.value (plan_seen plan.now.value) worker) }
{
    counted_turn::<C, G, Brand>(
        alloc,
        about,
        plan,
        code,
        noted,
        claims,
        gate,
        worker,
        Blank::new(1),
    )
}

// The same, with a counter of its own for the playouts.
fn counted_turn<C: Chooser + Drop, G: Gate, L: Ledger>(
    alloc: Global,
    about: &Arc<About>,
    plan: &Arc<Plan>,
    code: &Arc<Code>,
    noted: bool,
    claims: &Claims,
    gate: &G,
    worker: Worker<C>,
    blank: Blank,
) -> Result<Turn<C>, Memory>
    requires name { blank.name ≡ L.name }
    requires parts { blank.parts ≡ L.parts }
    requires some { 0 < blank.parts }
    requires own { worker.pass.table ≡ claims.now.table }
    requires none { worker.pass.numbers ≡ [] }
    requires count { claims.now.count ≡ length plan.now.value.matches.items }
    requires seats { IsPlanFor about.now.value plan.now.value }
    requires served { C.serves worker.chooser about.now.value }
    requires code { StandsFor about.now.value.sheet (code_seen code.now.value) }
    ensures { IfOk result (IsTurn C.name C.counts noted about.now.value (plan_seen plan.now.value) worker) }
{
    let Worker {
        mut pass,
        mut chooser,
    } = worker;
    let mut steps = Steps::<L>::new(blank);
    let records = match work(
        alloc,
        about,
        plan,
        code,
        noted,
        claims,
        gate,
        &mut pass,
        &mut chooser,
        &mut steps,
    ) {
        Ok(records) => records,
        Err(Memory) => return Err(Memory),
    };
    Ok(Turn {
        pass,
        records,
        chooser,
    })
}

// The records of all matches that a pass claims.
fn work<C: Chooser, G: Gate, L: Ledger>(
    alloc: Global,
    about: &Arc<About>,
    plan: &Arc<Plan>,
    code: &Arc<Code>,
    noted: bool,
    claims: &Claims,
    gate: &G,
    pass: &mut Pass,
    chooser: &mut C,
    steps: &mut Steps<L>,
) -> Result<Vec<Played>, Memory>
    requires own { pass.old.table ≡ claims.now.table }
    requires none { pass.old.numbers ≡ [] }
    requires count { claims.now.count ≡ length plan.now.value.matches.items }
    requires seats { IsPlanFor about.now.value plan.now.value }
    requires served { C.serves chooser.old about.now.value }
    requires code { StandsFor about.now.value.sheet (code_seen code.now.value) }
    ensures { IfOk result (λ records. IsWork noted about.now.value (plan_seen plan.now.value) pass.old pass.new
        (C.name chooser.old) (C.name chooser.new)
        (C.counts chooser.old) (C.counts chooser.new) records.items) }
{
    let mut records = Vec::new(alloc);
    while let Some(number) = claims.claim(pass) {
        gate.enter(number);
        let record = match play(alloc, about, plan, code, number, noted, chooser, steps) {
            Ok(record) => record,
            Err(Memory) => return Err(Memory),
        };
        match records.push(record) {
            Ok(()) => {}
            Err(_) => return Err(Memory),
        }
    }
    Ok(records)
}

// The record of one match. The chooser's counts rise by what it asks.
fn play<C: Chooser, L: Ledger>(
    alloc: Global,
    about: &Arc<About>,
    plan: &Arc<Plan>,
    code: &Arc<Code>,
    number: u32,
    noted: bool,
    chooser: &mut C,
    steps: &mut Steps<L>,
) -> Result<Played, Memory>
    requires served { C.serves chooser.old about.now.value }
    requires code { StandsFor about.now.value.sheet (code_seen code.now.value) }
    requires number { number < length plan.now.value.matches.items }
    requires seats { IsPlanFor about.now.value plan.now.value }
    ensures number { IfOk result (λ p. p.record.number ≡ number) }
    ensures record { IfOk result (IsRecordIn noted about.now.value (plan_seen plan.now.value)) }
    ensures rise { OnOk result (Rise (length (asks_of about.now.value (plan_seen plan.now.value) number))
        (C.counts chooser.old) (C.counts chooser.new)) }
    ensures same { (other : PureAbout) → C.serves chooser.old other → C.serves chooser.new other }
    ensures named { C.name chooser.new ≡ C.name chooser.old }
{
    record_of(alloc, about, plan, code, number, noted, chooser, steps)
}

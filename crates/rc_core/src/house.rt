//! The house.
ghost use Rattle.std.specs.Prelude.{◌≡◌, ◌<◌, ◌≤◌, ◌^◌, length, map, slice_get, IfSome, IfOk, OnOk, OnErr};
ghost use Rattle.rc_base.specs.Numbers.{below};
ghost use Rattle.rc_code.specs.Seen.{code_seen};
ghost use Rattle.rc_code.specs.Stands.{StandsFor};
ghost use Rattle.rc_rules.specs.Plan.{plan_seen, IsPlanFor};
ghost use Rattle.rc_rules.specs.Record.{record_seen};
ghost use Rattle.rc_redraw.specs.Asking.{key_seen};
ghost use Rattle.rc_match.specs.Lane.{begun, phase_seen};
ghost use Rattle.rc_core.specs.House.{opened, with_entries, AreOfOnePlan};
ghost use Rattle.rc_core.specs.Events.{event_seen, works, looks, keeps, loses, after_event, after_events};
ghost use Rattle.rc_core.specs.Short.{FindsSpent, FailsAt, StopsShort, KeepsSpent, NoneFindsSpent};
ghost use Rattle.rc_core.specs.Laws.{IsOf};
ghost use Rattle.rc_core.specs.Sound.{IsSound};
ghost use Rattle.rc_core.specs.Stored.{lane_in, IsOwn, AreOwn};

use crate::entries::take_entry;
use crate::event::Event;
use crate::sharing::{hand_over, look_up};
use crate::working::work;
use rc_code::Code;
use rc_deck::Memory;
use rc_flat::FlatMachine;
use rc_match::{Job, LaneState, Phase, begin};
use rc_redraw::{Entry, Key};
use rc_rollout::shared_code;
use rc_rules::{About, MatchRecord, Plan};
use std::alloc::Global;
use std::marker::Model;
use std::sync::Arc;

/// The matches of a plan on their way, with a machine for each, and the entries that they share, the most recent first.
/// Contracts see where each match stands and the keys of the entries. Each match is, as far as it was played, the one
/// of the plan.
#[derive(Drop)]
pub struct House {
    about: Arc<About>,
    plan: Arc<Plan>,
    // made of the sheet once: machines and playouts run on it
    code: Arc<Code>,
    capacity: u32,
    matches: Vec<LaneState<FlatMachine>>,
    entries: Vec<Entry>,
}

impl Model for House {
    ghost use Rattle.std.specs.Coded.{codes};
    ghost use Rattle.rc_flow.specs.Codes.{sheet_codes, part_codes};
    ghost use Rattle.rc_core.specs.House.{House as PureHouse};

    ghost Value = { PureHouse };

    ghost coded = { Prim.hlevel (sheet_codes, part_codes, codes) };

    ghost use Rattle.rc_core.specs.Kept.{house_seen, IsKept};

    ghost view = { house_seen };

    ghost invariant = { IsKept };
}

impl House {
    /// A house in which nothing was done yet: no entries, and each match is ready without a pick. The plan has a
    /// strategy for each player, and fewer matches than 2^32. The code of the sheet is made here, once. Memory may run
    /// out.
    pub fn new(
        alloc: Global,
        about: Arc<About>,
        plan: Arc<Plan>,
        capacity: u32,
    ) -> Result<House, Memory>
        requires seats { IsPlanFor about.value plan.value }
        requires matches { length plan.value.matches.items < 2 ^ 32 }
        requires capacity { 1 ≤ capacity }
        ensures opened { IfOk result (λ house. house ≡ opened about.value (plan_seen plan.value) capacity) }
        ensures sound { IfOk result (λ house. IsSound house) }
    {
        let code = shared_code(alloc, &about)?;
        let matches = matches_of(alloc, &about, &plan, &code)?;
        Ok(House {
            about,
            plan,
            code,
            capacity,
            matches,
            entries: Vec::new(alloc),
        })
    }

    /// How many matches there are.
    pub fn matches(&self) -> usize
        ensures many { result ≡ length self.now.matches }
        ensures sound { IsSound self.now }
    {
        self.matches.len()
    }

    /// The record of a match as far as it was played. Its picks are the first ones of the match of the plan, also where
    /// it is spent, and where it is over, its record is that match's.
    pub fn notes_of(&self, m: u32) -> &MatchRecord
        requires { m < length self.now.matches }
        ensures notes { IfSome (slice_get self.now.matches m) (λ lane. record_seen result.now ≡ lane.notes) }
        ensures of_plan { IfSome (slice_get self.now.matches m) (λ lane. IsOf self.now.about self.now.plan m lane) }
    {
        &self.matches[m as usize].notes
    }

    /// What a match waits for.
    pub fn phase_of(&self, m: u32) -> &Phase
        requires { m < length self.now.matches }
        ensures { IfSome (slice_get self.now.matches m) (λ lane. phase_seen result.now ≡ lane.phase) }
    {
        &self.matches[m as usize].phase
    }

    // What follows from an event.
    fn change(&mut self, alloc: Global, event: &Event) -> Result<(), Memory>
        ensures after { OnOk result (self.new ≡ after_event self.old (event_seen event.now)) }
        ensures open { OnOk result (FindsSpent self.old (event_seen event.now) → ⊥) }
        ensures spent { KeepsSpent self.old self.new }
        ensures lacking { OnErr result (FailsAt self.old (event_seen event.now) self.new) }
    {
        match event {
            Event::Private(m) => self.work(alloc, *m),
            Event::Look(m) => self.look(alloc, *m),
            Event::Keep(m) => self.keep(*m),
            Event::Lose(key) => {
                self.lose(key);
                Ok(())
            }
        }
    }

    // A match works alone.
    fn work(&mut self, alloc: Global, m: u32) -> Result<(), Memory>
        ensures after { OnOk result (self.new ≡ after_event self.old (works m)) }
        ensures open { OnOk result (FindsSpent self.old (works m) → ⊥) }
        ensures spent { KeepsSpent self.old self.new }
        ensures lacking { OnErr result (FailsAt self.old (works m) self.new) }
    {
        if m as usize >= self.matches.len() {
            return Ok(());
        }
        // the sheet is well formed and in sight
        let _sheet = self.about.sheet();
        let job = Job::of(&self.about, &self.plan, m)?;
        work(alloc, &job, &self.code, &mut self.matches[m as usize])
    }

    // A match looks up what it asks.
    fn look(&mut self, alloc: Global, m: u32) -> Result<(), Memory>
        ensures after { OnOk result (self.new ≡ after_event self.old (looks m)) }
        ensures open { OnOk result (FindsSpent self.old (looks m) → ⊥) }
        ensures spent { KeepsSpent self.old self.new }
        ensures lacking { OnErr result (self.new ≡ self.old) }
    {
        if m as usize >= self.matches.len() {
            return Ok(());
        }
        // the sheet is well formed and in sight
        let _sheet = self.about.sheet();
        look_up(
            alloc,
            &mut self.matches[m as usize].phase,
            &mut self.entries,
        )
    }

    // A match keeps the entry that it holds.
    fn keep(&mut self, m: u32) -> Result<(), Memory>
        ensures after { OnOk result (self.new ≡ after_event self.old (keeps m)) }
        ensures open { OnOk result (FindsSpent self.old (keeps m) → ⊥) }
        ensures spent { KeepsSpent self.old self.new }
        ensures lacking { OnErr result (self.new ≡ self.old) }
    {
        if m as usize >= self.matches.len() {
            return Ok(());
        }
        // the sheet is well formed and in sight
        let _sheet = self.about.sheet();
        hand_over(
            &mut self.matches[m as usize].phase,
            &mut self.entries,
            self.capacity as usize,
        )
    }

    // The entry of a key is lost.
    fn lose(&mut self, key: &Key)
        ensures after { self.new ≡ after_event self.old (loses (key_seen key.now)) }
        ensures spent { KeepsSpent self.old self.new }
    {
        // the sheet is well formed and in sight
        let _sheet = self.about.sheet();
        let _lost = take_entry(&mut self.entries, key);
    }
}

/// What follows from events, one after another: their number. A match that lacked memory is spent: it stays as it is
/// from then on, and an event that names it answers Memory. Where memory runs out, some first events were done, and of
/// the next one nothing, or its match becomes spent and keeps its record. The house is sound again.
pub fn run_core(alloc: Global, house: &mut House, events: &[Event]) -> Result<usize, Memory>
    ensures count { IfOk result (λ count. count ≡ length events.now) }
    ensures leaves { OnOk result (house.new ≡ after_events house.old (map event_seen events.now)) }
    ensures open { OnOk result (NoneFindsSpent house.old (map event_seen events.now)) }
    ensures short { OnErr result (StopsShort house.old (map event_seen events.now) house.new) }
    ensures spent { KeepsSpent house.old house.new }
    ensures plan { AreOfOnePlan house.old house.new }
    ensures sound { IsSound house.new }
{
    for event in events {
        match house.change(alloc, event) {
            Ok(()) => {}
            Err(Memory) => {
                // the house is sound
                let _many = house.matches();
                return Err(Memory);
            }
        }
    }
    // the house is sound
    let _many = house.matches();
    Ok(events.len())
}

// The matches of a plan before their first steps.
fn matches_of(
    alloc: Global,
    about: &Arc<About>,
    plan: &Arc<Plan>,
    code: &Arc<Code>,
) -> Result<Vec<LaneState<FlatMachine>>, Memory>
    requires few { length plan.now.value.matches.items < 2 ^ 32 }
    requires code { StandsFor about.now.value.sheet (code_seen code.now.value) }
    ensures are { IfOk result (λ states. map lane_in states.items
        ≡ map (begun about.now.value (plan_seen plan.now.value)) (below (length plan.now.value.matches.items))) }
    ensures own { IfOk result (λ states. AreOwn about.now.value (plan_seen plan.now.value) states.items) }
{
    let mut states = Vec::new(alloc);
    for number in 0..plan.matches.len() as u32 {
        let state = start_lane(alloc, about, plan, code, number)?;
        states.push(state)?;
    }
    Ok(states)
}

// A match before its first step.
fn start_lane(
    alloc: Global,
    about: &Arc<About>,
    plan: &Arc<Plan>,
    code: &Arc<Code>,
    number: u32,
) -> Result<LaneState<FlatMachine>, Memory>
    requires number { number < length plan.now.value.matches.items }
    requires code { StandsFor about.now.value.sheet (code_seen code.now.value) }
    ensures begun { IfOk result (λ state. lane_in state ≡ begun about.now.value (plan_seen plan.now.value) number) }
    ensures own { IfOk result (λ state. IsOwn about.now.value (plan_seen plan.now.value) number state) }
{
    let machine = FlatMachine::start_of(alloc, code, about)?;
    let job = Job::of(about, plan, number)?;
    begin(alloc, &job, machine)
}

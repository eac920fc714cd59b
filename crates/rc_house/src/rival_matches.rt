//! Plays of all matches in which a search plays, one after the other, over one book.
ghost use Rattle.std.specs.Prelude.{◌≡◌, ◌<◌, ◌≤◌, map, length, Some, All, IfOk};
ghost use Rattle.rc_base.specs.Limits.{most_matches};
ghost use Rattle.rc_base.specs.Transcript.{house_text};
ghost use Rattle.rc_play_spec.specs.About.{About as PureAbout, about_of};
ghost use Rattle.rc_play_spec.specs.House.{standings_of};
ghost use Rattle.rc_play_spec.specs.Limits.{IsWithinLimits};
ghost use Rattle.rc_code.specs.Seen.{code_seen};
ghost use Rattle.rc_code.specs.Stands.{StandsFor};
ghost use Rattle.rc_rules.specs.Plan.{plan_seen, IsPlanFor};
ghost use Rattle.rc_rules.specs.Record.{record_seen};
ghost use Rattle.rc_play_spec.specs.Rivals.{rival_house_text, rival_match, rival_records};
ghost use Rattle.rc_search.specs.Rival.{IsRival, rival_seen};
ghost use Rattle.rc_cache.specs.Fresh.{HasNames, HasParts};

use rc_base::Steps;
use rc_cache::{BookNaming, Fresh, OwnBook};
use rc_code::Code;
use rc_deck::Memory;
use rc_flat::FlatMachine;
use rc_flow::Checked;
use rc_match::Job;
use rc_redraw::Chooser;
use rc_rollout::{Choices, shared_code};
use rc_rules::{About, MatchRecord, Plan, shared_about};
use rc_search::{Rival, play_rival};
use rc_series::own_choices;
use rc_text::{HouseText, standings, write_house};
use std::alloc::Global;
use std::marker::Brand;
use std::sync::Arc;
use std::sync::ledger::{Blank, Ledger};

// Of how many decisions the totals of playouts are remembered for the strategies that roll out.
const ENTRIES: u32 = 1024;

/// The house text of a plan for a checked sheet, in whose matches a search plays for one strategy. The plan is within
/// the limits, and has a strategy for each player; the search looks one decision deep at least, over one round at
/// least. Memory may run out.
pub fn rivals_of(
    alloc: Global,
    checked: Checked,
    plan: Plan,
    rival: &Rival,
) -> Result<Vec<u8>, Memory>
    requires within { IsWithinLimits (plan_seen plan) }
    requires seats { length (plan_seen plan).strategies ≡ checked.players }
    requires rival { IsRival rival.now }

    // The bytes are the house text that the definitions give where the search plays for that strategy.
    ensures { IfOk result (λ bytes. bytes.items
        ≡ rival_house_text (about_of checked plan.turns) (rival_seen rival.now) (plan_seen plan)) }
{
    let about = shared_about(alloc, checked, plan.turns)?;
    let code = shared_code(alloc, &about)?;
    let plan = Arc::new(alloc, plan)?;
    write_rivals::<Brand>(alloc, Fresh::new(1), &about, &plan, &code, rival)
}

// The text of a plan's matches, which are played over a new book.
fn write_rivals<N: BookNaming>(
    alloc: Global,
    fresh: Fresh,
    about: &Arc<About>,
    plan: &Arc<Plan>,
    code: &Arc<Code>,
    rival: &Rival,
) -> Result<Vec<u8>, Memory>
    requires within { IsWithinLimits (plan_seen plan.now.value) }
    requires seats { IsPlanFor about.now.value plan.now.value }
    requires code { StandsFor about.now.value.sheet (code_seen code.now.value) }
    requires rival { IsRival rival.now }
    requires name { (about.now.value ≡ N.about) × (1024 ≡ N.capacity) × (1 ≡ N.lanes) }
    requires names { HasNames fresh N.looks N.hits N.keeps }
    requires parts { HasParts fresh N.lanes }
    ensures { IfOk result (λ bytes. bytes.items
        ≡ rival_house_text about.now.value (rival_seen rival.now) (plan_seen plan.now.value)) }
{
    let mut choices = own_choices::<N>(alloc, fresh, about, code, ENTRIES)?;
    let matches = counted_records::<Choices<OwnBook<N>>, Brand>(
        alloc,
        Blank::new(1),
        about,
        plan,
        code,
        rival,
        &mut choices,
    )?;
    text_of(alloc, plan, matches)
}

// The text that tells of these matches of a plan.
fn text_of(alloc: Global, plan: &Plan, matches: Vec<MatchRecord>) -> Result<Vec<u8>, Memory>
    requires strategies { length plan.now.strategies.items ≤ 8 }
    requires few { length matches.items ≤ most_matches }
    requires each { All (λ r. length r.scores.items ≡ length plan.now.strategies.items) matches.items }
    ensures { IfOk result (λ bytes. bytes.items ≡ house_text (map record_seen matches.items)
        (standings_of (plan_seen plan.now) (map record_seen matches.items))) }
{
    let standings = standings(alloc, plan, &matches)?;
    let text = HouseText { matches, standings };
    write_house(alloc, &text)
}

// The records of a plan's matches, whose steps are counted on a ledger that no type stands for yet.
fn counted_records<C: Chooser, L: Ledger>(
    alloc: Global,
    blank: Blank,
    about: &Arc<About>,
    plan: &Arc<Plan>,
    code: &Arc<Code>,
    rival: &Rival,
    chooser: &mut C,
) -> Result<Vec<MatchRecord>, Memory>
    requires name { blank.name ≡ L.name }
    requires parts { blank.parts ≡ L.parts }
    requires some { 0 < blank.parts }
    requires code { StandsFor about.now.value.sheet (code_seen code.now.value) }
    requires served { C.serves chooser.old about.now.value }
    requires matches { length plan.now.value.matches.items ≤ most_matches }
    requires seats { IsPlanFor about.now.value plan.now.value }
    requires rival { IsRival rival.now }
    ensures are { IfOk result (λ records. map record_seen records.items
        ≡ rival_records about.now.value (rival_seen rival.now) (plan_seen plan.now.value)) }
    ensures count { IfOk result (λ records. length records.items ≡ length plan.now.value.matches.items) }
    ensures each { IfOk result (λ records.
        All (λ r. length r.scores.items ≡ about.now.value.sheet.players) records.items) }
{
    let mut steps = Steps::<L>::new(blank);
    records_of(alloc, about, plan, code, rival, chooser, &mut steps)
}

// The records of a plan's matches, in order, by any chooser for the strategies that don't search, on code that stands
// for the sheet.
fn records_of<C: Chooser, L: Ledger>(
    alloc: Global,
    about: &Arc<About>,
    plan: &Arc<Plan>,
    code: &Arc<Code>,
    rival: &Rival,
    chooser: &mut C,
    steps: &mut Steps<L>,
) -> Result<Vec<MatchRecord>, Memory>
    requires code { StandsFor about.now.value.sheet (code_seen code.now.value) }
    requires served { C.serves chooser.old about.now.value }
    requires matches { length plan.now.value.matches.items ≤ most_matches }
    requires seats { IsPlanFor about.now.value plan.now.value }
    requires rival { IsRival rival.now }
    ensures are { IfOk result (λ records. map record_seen records.items
        ≡ rival_records about.now.value (rival_seen rival.now) (plan_seen plan.now.value)) }
    ensures count { IfOk result (λ records. length records.items ≡ length plan.now.value.matches.items) }
    ensures each { IfOk result (λ records.
        All (λ r. length r.scores.items ≡ about.now.value.sheet.players) records.items) }
{
    let mut records = Vec::new(alloc);
    for number in 0..plan.matches.len() as u32 {
        let record = record_of(alloc, about, plan, code, rival, number, chooser, steps)?;
        records.push(record)?;
    }
    Ok(records)
}

// The record of one match.
fn record_of<C: Chooser, L: Ledger>(
    alloc: Global,
    about: &Arc<About>,
    plan: &Arc<Plan>,
    code: &Arc<Code>,
    rival: &Rival,
    number: u32,
    chooser: &mut C,
    steps: &mut Steps<L>,
) -> Result<MatchRecord, Memory>
    requires code { StandsFor about.now.value.sheet (code_seen code.now.value) }
    requires served { C.serves chooser.old about.now.value }
    requires number { number < length plan.now.value.matches.items }
    requires seats { IsPlanFor about.now.value plan.now.value }
    requires rival { IsRival rival.now }
    ensures record { IfOk result
        (λ r. rival_match about.now.value (rival_seen rival.now) (plan_seen plan.now.value) number
        ≡ Some (record_seen r)) }
    ensures each { IfOk result (λ r. length r.scores.items ≡ about.now.value.sheet.players) }
    ensures same { (other : PureAbout) → C.serves chooser.old other → C.serves chooser.new other }
{
    let machine = FlatMachine::onward_start(alloc, code, about)?;
    let job = Job::of(about, plan, number)?;
    play_rival(alloc, &job, code, rival, machine, chooser, steps)
}

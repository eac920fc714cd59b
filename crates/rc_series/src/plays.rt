//! Plays of all matches, one after the other, over one book.
ghost use Rattle.std.specs.Prelude.{◌≡◌, ◌≤◌, ◌+◌, [], map, length, IfOk, OnOk};
ghost use Rattle.rc_base.specs.Limits.{most_entries};
ghost use Rattle.rc_play_spec.specs.About.{about_of};
ghost use Rattle.rc_play_spec.specs.House.{standings_of};
ghost use Rattle.rc_play_spec.specs.Limits.{IsWithinLimits};
ghost use Rattle.rc_code.specs.Seen.{code_seen};
ghost use Rattle.rc_code.specs.Stands.{StandsFor};
ghost use Rattle.rc_rules.specs.Plan.{plan_seen, IsPlanFor};
ghost use Rattle.rc_rules.specs.Record.{record_seen, standing_seen};
ghost use Rattle.rc_series.specs.Series.{IsTold, looks_of, matches_of};
ghost use Rattle.rc_cache.specs.Hits.{hits, cost};
ghost use Rattle.rc_cache.specs.Sums.{idle};
ghost use Rattle.rc_cache.specs.Fresh.{HasNames, HasParts};

use crate::{Series, records_of, series_from};
use rc_base::Steps;
use rc_cache::{
    Book, BookNaming, Fresh, OwnBook, one_worker_has_the_hits_of_its_looks,
    one_worker_lacking_memory_takes_no_more_steps,
};
use rc_code::Code;
use rc_deck::Memory;
use rc_flow::Checked;
use rc_rollout::{Choices, shared_code};
use rc_rules::{About, Plan, shared_about};
use std::alloc::Global;
use std::marker::Brand;
use std::sync::Arc;
use std::sync::ledger::Ledger;

/// Plays the matches of a plan for a checked sheet one after the other, on code that is made of the sheet once. The
/// plan is within the limits, and has a strategy for each player. What choices bind is noted, where that is asked for.
/// What rollouts find is kept in a book of so many entries, 1 to 65,536. Each playout is a step. Memory may run out;
/// then no more steps were counted than the whole call counts.
pub fn series_of<L: Ledger>(
    alloc: Global,
    checked: Checked,
    plan: Plan,
    noted: bool,
    capacity: u32,
    steps: &mut Steps<L>,
) -> Result<Series, Memory>
    requires within { IsWithinLimits (plan_seen plan) }
    requires seats { length (plan_seen plan).strategies ≡ checked.players }
    requires capacity { (1 ≤ capacity) × (capacity ≤ most_entries) }

    // The records are those that the definitions give for the plan's matches, in order, and the standings are theirs.
    ensures matches { IfOk result (λ series. map record_seen series.named.text.matches.items
        ≡ matches_of (about_of checked plan.turns) (plan_seen plan)) }
    ensures standings { IfOk result (λ series. map standing_seen series.named.text.standings.items
        ≡ standings_of (plan_seen plan) (matches_of (about_of checked plan.turns) (plan_seen plan))) }

    // What choices bind is told as the definitions tell it, or not at all, where it isn't to be noted.
    ensures named { IfOk result (λ series. IsTold noted (about_of checked plan.turns) (plan_seen plan) series.named) }
    ensures book { IfOk result (λ series. (series.totals.capacity ≡ capacity) × (series.totals.lanes ≡ 1)) }

    // Each rollout decision of these matches is one look, and as many of them hit, and as many playouts are counted for
    // the others, as where they are made in order in a list of so many entries.
    ensures looks { IfOk result (λ series. series.totals.looks
        ≡ length (looks_of (about_of checked plan.turns) (plan_seen plan))) }
    ensures hits { IfOk result (λ series. series.totals.hits
        ≡ hits (looks_of (about_of checked plan.turns) (plan_seen plan)) capacity) }
    ensures counted { OnOk result (steps.new
        ≡ steps.old + cost (looks_of (about_of checked plan.turns) (plan_seen plan)) capacity) }
    ensures rises { steps.old ≤ steps.new }
    ensures bounded { steps.new ≤ steps.old + cost (looks_of (about_of checked plan.turns) (plan_seen plan)) capacity }
{
    let about = shared_about(alloc, checked, plan.turns)?;
    let code = shared_code(alloc, &about)?;
    let plan = Arc::new(alloc, plan)?;
    play_plan::<Brand, L>(
        alloc,
        Fresh::new(1),
        &about,
        &plan,
        &code,
        noted,
        capacity,
        steps,
    )
}

// The matches of a plan, with a book of so many entries, and the standings.
fn play_plan<N: BookNaming, L: Ledger>(
    alloc: Global,
    fresh: Fresh,
    about: &Arc<About>,
    plan: &Arc<Plan>,
    code: &Arc<Code>,
    noted: bool,
    capacity: u32,
    steps: &mut Steps<L>,
) -> Result<Series, Memory>
    requires within { IsWithinLimits (plan_seen plan.now.value) }
    requires seats { IsPlanFor about.now.value plan.now.value }
    requires code { StandsFor about.now.value.sheet (code_seen code.now.value) }
    requires room { (1 ≤ capacity) × (capacity ≤ most_entries) }
    requires name { (about.now.value ≡ N.about) × (capacity ≡ N.capacity) × (1 ≡ N.lanes) }
    requires names { HasNames fresh N.looks N.hits N.keeps }
    requires parts { HasParts fresh N.lanes }
    ensures matches { IfOk result (λ series. map record_seen series.named.text.matches.items
        ≡ matches_of about.now.value (plan_seen plan.now.value)) }
    ensures standings { IfOk result (λ series. map standing_seen series.named.text.standings.items
        ≡ standings_of (plan_seen plan.now.value) (matches_of about.now.value (plan_seen plan.now.value))) }
    ensures named { IfOk result (λ series. IsTold noted about.now.value (plan_seen plan.now.value) series.named) }
    ensures book { IfOk result (λ series. (series.totals.capacity ≡ capacity) × (series.totals.lanes ≡ 1)) }
    ensures looks { IfOk result (λ series. series.totals.looks
        ≡ length (looks_of about.now.value (plan_seen plan.now.value))) }
    ensures hits { IfOk result (λ series. series.totals.hits
        ≡ hits (looks_of about.now.value (plan_seen plan.now.value)) capacity) }
    ensures counted { OnOk result (steps.new
        ≡ steps.old + cost (looks_of about.now.value (plan_seen plan.now.value)) capacity) }
    ensures rises { steps.old ≤ steps.new }
    ensures bounded { steps.new ≤ steps.old + cost (looks_of about.now.value (plan_seen plan.now.value)) capacity }
{
    one_worker_has_the_hits_of_its_looks();
    one_worker_lacking_memory_takes_no_more_steps();
    let mut choices = own_choices::<N>(alloc, fresh, about, code, capacity)?;
    let records = records_of(alloc, about, plan, code, noted, &mut choices, steps);
    // before the match, so that the book is closed also where memory ran out
    let totals = choices.into_memo().close();
    match records {
        Ok(matches) => Ok(series_from(alloc, plan, noted, matches, totals)?),
        Err(Memory) => Err(Memory),
    }
}

/// Choices by a new book for one worker, on this code. Memory may run out.
pub fn own_choices<N: BookNaming>(
    alloc: Global,
    fresh: Fresh,
    about: &Arc<About>,
    code: &Arc<Code>,
    capacity: u32,
) -> Result<Choices<OwnBook<N>>, Memory>
    requires room { (1 ≤ capacity) × (capacity ≤ most_entries) }
    requires name { (about.now.value ≡ N.about) × (capacity ≡ N.capacity) × (1 ≡ N.lanes) }
    requires names { HasNames fresh N.looks N.hits N.keeps }
    requires parts { HasParts fresh N.lanes }
    ensures about { IfOk result (λ choices. choices.ground ≡ about.now.value) }
    ensures code { IfOk result (λ choices. choices.code.value ≡ code.now.value) }
    ensures memo { IfOk result (λ choices. choices.memo ≡ ([], idle 0)) }
{
    let book = own_book::<N>(alloc, fresh, about, capacity)?;
    let to_choose = Arc::try_clone(code)?;
    let played_by = Arc::try_clone(about)?;
    Ok(Choices::new(played_by, to_choose, book))
}

// A new book for one worker.
fn own_book<N: BookNaming>(
    alloc: Global,
    fresh: Fresh,
    about: &About,
    capacity: u32,
) -> Result<OwnBook<N>, Memory>
    requires room { (1 ≤ capacity) × (capacity ≤ most_entries) }
    requires name { (about.now ≡ N.about) × (capacity ≡ N.capacity) × (1 ≡ N.lanes) }
    requires names { HasNames fresh N.looks N.hits N.keeps }
    requires parts { HasParts fresh N.lanes }
    ensures { IfOk result (λ own. own ≡ ([], idle 0)) }
{
    let (book, mut lanes) = Book::<N>::new(alloc, fresh, about, capacity, 1)?;
    Ok(OwnBook::new(book, lanes.pop().unwrap()))
}

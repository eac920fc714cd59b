//! All matches of a plan by several workers, over a book that is made for them.
ghost use Rattle.std.specs.Prelude.{◌≡◌, ◌<◌, ◌≤◌, map, length, IfOk};
ghost use Rattle.rc_base.specs.Limits.{most_entries, most_workers};
ghost use Rattle.rc_play_spec.specs.About.{about_of};
ghost use Rattle.rc_play_spec.specs.House.{standings_of};
ghost use Rattle.rc_play_spec.specs.Limits.{IsWithinLimits};
ghost use Rattle.rc_rules.specs.Plan.{plan_seen, IsPlanFor};
ghost use Rattle.rc_rules.specs.Record.{record_seen, standing_seen};
ghost use Rattle.rc_series.specs.Series.{IsTold, looks_of, matches_of};
ghost use Rattle.rc_cache.specs.Fresh.{HasNames, HasParts};

use crate::series::{Series, series_from};
use crate::sharing::{memos_of, play_shared};
use rc_cache::{Book, BookNaming, Fresh, close};
use rc_deck::Memory;
use rc_flow::Checked;
use rc_outside::Gate;
use rc_rules::{About, Plan, shared_about};
use std::alloc::Global;
use std::marker::Brand;
use std::sync::{Arc, Mutex, Wait};
use std::thread::Threads;

/// Plays the matches of a plan for a checked sheet by so many workers, 1 to 64, each in a thread of its own where one
/// can be made. The plan is within the limits, and has a strategy for each player. What choices bind is noted, where
/// that is asked for. What rollouts find is kept in one book of so many entries, 1 to 65,536, that all workers share;
/// its totals tell its room, and that it had a lane for each worker. How many of the looks hit depends on which worker
/// comes first; not all do. Memory may run out.
pub fn series_by_workers<R: Threads + Wait + Sync, G: Gate>(
    rt: &R,
    alloc: Global,
    checked: Checked,
    plan: Plan,
    noted: bool,
    workers: u8,
    capacity: u32,
    gate: &G,
) -> Result<Series, Memory>
    requires within { IsWithinLimits (plan_seen plan) }
    requires seats { length (plan_seen plan).strategies ≡ checked.players }
    requires workers { (1 ≤ workers) × (workers ≤ most_workers) }
    requires capacity { (1 ≤ capacity) × (capacity ≤ most_entries) }

    // The records are those that the definitions give for the plan's matches, in order, and the standings are theirs.
    ensures matches { IfOk result (λ series. map record_seen series.named.text.matches.items
        ≡ matches_of (about_of checked plan.turns) (plan_seen plan)) }
    ensures standings { IfOk result (λ series. map standing_seen series.named.text.standings.items
        ≡ standings_of (plan_seen plan) (matches_of (about_of checked plan.turns) (plan_seen plan))) }

    // What choices bind is told as the definitions tell it, or not at all, where it isn't to be noted.
    ensures named { IfOk result (λ series. IsTold noted (about_of checked plan.turns) (plan_seen plan) series.named) }
    ensures book { IfOk result (λ series. (series.totals.capacity ≡ capacity) × (series.totals.lanes ≡ workers)) }

    // Each rollout decision of these matches is one look.
    ensures looks { IfOk result (λ series. series.totals.looks
        ≡ length (looks_of (about_of checked plan.turns) (plan_seen plan))) }
    ensures hits { IfOk result (λ series. series.totals.hits ≤ series.totals.looks) }

    // Where there are looks, not all of them hit.
    ensures missed { IfOk result (λ series. 0 < series.totals.looks → series.totals.hits < series.totals.looks) }
{
    let about = match shared_about(alloc, checked, plan.turns) {
        Ok(about) => about,
        Err(Memory) => return Err(Memory),
    };
    let plan = match Arc::new(alloc, plan) {
        Ok(plan) => plan,
        Err(_) => return Err(Memory),
    };
    play_plan::<Brand, R, G>(
        rt,
        alloc,
        Fresh::new(workers),
        &about,
        &plan,
        noted,
        workers,
        capacity,
        gate,
    )
}

// The same, with a name for the book.
fn play_plan<N: BookNaming + Send + Sync, R: Threads + Wait + Sync, G: Gate>(
    rt: &R,
    alloc: Global,
    fresh: Fresh,
    about: &Arc<About>,
    plan: &Arc<Plan>,
    noted: bool,
    workers: u8,
    capacity: u32,
    gate: &G,
) -> Result<Series, Memory>
    requires within { IsWithinLimits (plan_seen plan.now.value) }
    requires seats { IsPlanFor about.now.value plan.now.value }
    requires some { (1 ≤ workers) × (workers ≤ most_workers) }
    requires room { (1 ≤ capacity) × (capacity ≤ most_entries) }
    requires name { (about.now.value ≡ N.about) × (capacity ≡ N.capacity) × (workers ≡ N.lanes) }
    requires names { HasNames fresh N.looks N.hits N.keeps }
    requires parts { HasParts fresh N.lanes }
    ensures matches { IfOk result (λ series. map record_seen series.named.text.matches.items
        ≡ matches_of about.now.value (plan_seen plan.now.value)) }
    ensures standings { IfOk result (λ series. map standing_seen series.named.text.standings.items
        ≡ standings_of (plan_seen plan.now.value) (matches_of about.now.value (plan_seen plan.now.value))) }
    ensures named { IfOk result (λ series. IsTold noted about.now.value (plan_seen plan.now.value) series.named) }
    ensures book { IfOk result (λ series. (series.totals.capacity ≡ capacity) × (series.totals.lanes ≡ workers)) }
    ensures looks { IfOk result (λ series. series.totals.looks
        ≡ length (looks_of about.now.value (plan_seen plan.now.value))) }
    ensures hits { IfOk result (λ series. series.totals.hits ≤ series.totals.looks) }
    ensures missed { IfOk result (λ series. 0 < series.totals.looks → series.totals.hits < series.totals.looks) }
{
    let (book, lanes) = match Book::<N>::new(alloc, fresh, about, capacity, workers) {
        Ok(made) => made,
        Err(Memory) => return Err(Memory),
    };
    let book = Mutex::new(book);
    let memos = match memos_of(rt, alloc, &book, lanes) {
        Ok(memos) => memos,
        Err(Memory) => return Err(Memory),
    };
    let (matches, lanes) = match play_shared(rt, alloc, about, plan, noted, memos, gate) {
        Ok(played) => played,
        Err(Memory) => return Err(Memory),
    };
    let totals = close(book.into_inner(), lanes);
    let series = match series_from(alloc, plan, noted, matches, totals) {
        Ok(series) => series,
        Err(Memory) => return Err(Memory),
    };
    Ok(series)
}

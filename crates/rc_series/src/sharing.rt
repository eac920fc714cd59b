//! Matches by several workers over one book.
ghost use Rattle.std.specs.Prelude.{◌≡◌, ◌≤◌, length, map, All, IfOk};
ghost use Rattle.rc_base.specs.Limits.{most_matches, most_workers};
ghost use Rattle.rc_rules.specs.Plan.{plan_seen, IsPlanFor};
ghost use Rattle.rc_cache.specs.Memos.{shared_counts};
ghost use Rattle.rc_series.specs.Series.{IsNotedAs, looks_of, matches_of, played_seen};
ghost use Rattle.rc_series.specs.Gathered.{RiseTogether};

use crate::claiming::play_claimed;
use rc_cache::{Book, BookNaming, Lane, SharedBook};
use rc_code::Code;
use rc_deck::Memory;
use rc_match::Played;
use rc_outside::Gate;
use rc_rollout::{Choices, shared_code};
use rc_rules::{About, Plan};
use std::alloc::Global;
use std::sync::{Arc, Mutex, Wait};
use std::thread::Threads;

/// Plays every match of a plan, with one worker for each lane to the book, on code that is made of the sheet once. The
/// records are those of the matches, in order, with what their choices bind, where that is to be noted. The lanes come
/// back in the order of the memos, each by its number, and their counts rise together by what the matches ask: each
/// decision that asks for totals is one look, and each look hits, or is followed by a keep. Memory may run out.
pub fn play_shared<'a, N: BookNaming + Send + Sync, R: Threads + Wait + Sync, G: Gate>(
    rt: &R,
    alloc: Global,
    about: &Arc<About>,
    plan: &Arc<Plan>,
    noted: bool,
    memos: Vec<SharedBook<'a, N, R>>,
    gate: &G,
) -> Result<(Vec<Played>, Vec<Lane<N>>), Memory>
    requires about { N.about ≡ about.now.value }
    requires matches { (1 ≤ length plan.now.value.matches.items)
        × (length plan.now.value.matches.items ≤ most_matches) }
    requires seats { IsPlanFor about.now.value plan.now.value }
    requires memos { (1 ≤ length memos.items) × (length memos.items ≤ most_workers) }

    // The records are those that the definitions give for the plan's matches, in order.
    ensures records { IfOk result (λ r. map played_seen r.0.items
        ≡ matches_of about.now.value (plan_seen plan.now.value)) }
    ensures count { IfOk result (λ r. length r.0.items ≡ length plan.now.value.matches.items) }
    ensures each { IfOk result (λ r. All
        (λ p. length p.record.scores.items ≡ about.now.value.sheet.players) r.0.items) }

    // What choices bind is noted as the definitions tell it, or nothing is, where that isn't asked for.
    ensures noted { IfOk result (λ r. All (IsNotedAs noted about.now.value (plan_seen plan.now.value)) r.0.items) }

    // Together the lanes make a look for each rollout decision of these matches, and each look hits, or is followed by
    // a keep.
    ensures rise { IfOk result (λ r. RiseTogether (length (looks_of about.now.value (plan_seen plan.now.value)))
        (map shared_counts memos.entry.items) (map shared_counts r.1.items)) }
    ensures lanes { IfOk result (λ r. length r.1.items ≡ length memos.entry.items) }

    // The lanes come back in the order of their memos.
    ensures order { IfOk result (λ r. map (λ lane. lane.number) r.1.items
        ≡ map (λ memo. memo.number) memos.entry.items) }
{
    let code = match shared_code(alloc, about) {
        Ok(code) => code,
        Err(Memory) => return Err(Memory),
    };
    let choosers = match choosers_of(alloc, about, &code, memos) {
        Ok(choosers) => choosers,
        Err(Memory) => return Err(Memory),
    };
    let (records, choosers) = match play_claimed(
        rt, alloc, about, plan, &code, noted, choosers, gate,
    ) {
        Ok(played) => played,
        Err(Memory) => return Err(Memory),
    };
    let lanes = match lanes_of(alloc, choosers) {
        Ok(lanes) => lanes,
        Err(Memory) => return Err(Memory),
    };
    Ok((records, lanes))
}

// Choices by each of these memos on this code, in their order.
fn choosers_of<'a, N: BookNaming, R: Wait>(
    alloc: Global,
    about: &Arc<About>,
    code: &Arc<Code>,
    memos: Vec<SharedBook<'a, N, R>>,
) -> Result<Vec<Choices<SharedBook<'a, N, R>>>, Memory>
    ensures memos { IfOk result (λ choosers. map (λ c. c.memo) choosers.items ≡ memos.entry.items) }
    ensures code { IfOk result (λ choosers. All
        (λ c. (c.ground ≡ about.now.value) × (c.code.value ≡ code.now.value)) choosers.items) }
{
    let mut choosers = Vec::new(alloc);
    let mut memos = memos;
    while !memos.is_empty() {
        let chooser = match choices_by(about, code, memos.remove(0)) {
            Ok(chooser) => chooser,
            Err(Memory) => return Err(Memory),
        };
        match choosers.push(chooser) {
            Ok(()) => {}
            Err(_) => return Err(Memory),
        }
    }
    Ok(choosers)
}

// Choices in matches of this about by a memo on this code.
fn choices_by<'a, N: BookNaming, R: Wait>(
    about: &Arc<About>,
    code: &Arc<Code>,
    memo: SharedBook<'a, N, R>,
) -> Result<Choices<SharedBook<'a, N, R>>, Memory>
    ensures memo { IfOk result (λ c. c.memo ≡ memo.entry) }
    ensures about { IfOk result (λ c. c.ground ≡ about.now.value) }
    ensures code { IfOk result (λ c. c.code.value ≡ code.now.value) }
{
    let about = Arc::try_clone(about)?;
    let code = Arc::try_clone(code)?;
    Ok(Choices::new(about, code, memo))
}

// The lanes of choosers, in their order.
fn lanes_of<'a, N: BookNaming, R: Wait>(
    alloc: Global,
    choosers: Vec<Choices<SharedBook<'a, N, R>>>,
) -> Result<Vec<Lane<N>>, Memory>
    ensures { IfOk result (λ lanes. lanes.items ≡ map (λ c. c.memo) choosers.entry.items) }
{
    let mut lanes = Vec::new(alloc);
    let mut choosers = choosers;
    while !choosers.is_empty() {
        match lanes.push(choosers.remove(0).into_memo().lane()) {
            Ok(()) => {}
            Err(_) => return Err(Memory),
        }
    }
    Ok(lanes)
}

/// A memo for each lane to a book, in their order. Memory may run out.
pub(crate) fn memos_of<'a, N: BookNaming, R: Wait>(
    rt: &'a R,
    alloc: Global,
    book: &'a Mutex<Book<N>>,
    lanes: Vec<Lane<N>>,
) -> Result<Vec<SharedBook<'a, N, R>>, Memory>
    ensures { IfOk result (λ memos. memos.items ≡ lanes.items) }
{
    let mut memos = Vec::new(alloc);
    let mut lanes = lanes;
    while !lanes.is_empty() {
        match memos.push(SharedBook::new(rt, book, lanes.remove(0))) {
            Ok(()) => {}
            Err(_) => return Err(Memory),
        }
    }
    Ok(memos)
}

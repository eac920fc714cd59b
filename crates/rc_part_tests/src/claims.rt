//! What workers claim, by turns and at one time.
ghost use Rattle.std.specs.Prelude.{◌≡◌, [], map, All, IfOk};

use crate::expect::expect_same;
use rc_claims::{Claims, Pass};
use rc_deck::Memory;
use std::alloc::Global;
use std::test::Fail;
use std::thread::{self, Threads};

/// Five numbers are drawn by turns, of which the last two don't count. A pass that got none claims no more.
#[test]
fn two_passes_claim_by_turns(rt: HostRuntime) -> Result<(), Fail> {
    let (claims, mut passes) = Claims::new(rt.alloc(), 3, 2).ok().ok_or("there is memory")?;
    let mut second = passes.pop().ok_or("there are two passes")?;
    let mut first = passes.pop().ok_or("there are two passes")?;
    let Some(0) = claims.claim(&mut first) else {
        return Err("the first claim is 0".into());
    };
    let Some(1) = claims.claim(&mut first) else {
        return Err("the second claim is 1".into());
    };
    let Some(2) = claims.claim(&mut second) else {
        return Err("the third claim is 2".into());
    };
    expect_same(&rt, claims.claim(&mut second), None);
    expect_same(&rt, claims.claim(&mut first), None);
    claims.join(&mut first, second);
    expect_same(&rt, claims.close(first), 5);
    Ok(())
}

// All that a pass gets.
fn claim_all(alloc: Global, claims: &Claims, pass: Pass) -> Result<Vec<u32>, Memory>
    requires own { pass.table ≡ claims.now.table }
    requires none { pass.numbers ≡ [] }
{
    let mut pass = pass;
    let mut numbers = Vec::new(alloc);
    while let Some(number) = claims.claim(&mut pass) {
        numbers.push(number)?;
    }
    Ok(numbers)
}

/// What each pass gets, in a thread of its own.
fn claimed_at_once<R: AllocGlobal + Threads + Sync>(
    rt: &R,
    claims: &Claims,
    passes: Vec<Pass>,
) -> Result<Vec<Result<Vec<u32>, Memory>>, Fail>
    requires fresh { All (λ pass. (pass.table ≡ claims.now.table) × (pass.numbers ≡ [])) passes.items }
{
    let alloc = rt.alloc();
    Ok(thread::map_vec(
        rt,
        passes,
        &|pass: Pass| -> Result<Vec<u32>, Memory>
            requires own { pass.table ≡ claims.now.table }
            requires none { pass.numbers ≡ [] }
        { claim_all(alloc, claims, pass) },
    )?)
}

/// All numbers of these lists, in order.
fn sorted_numbers(alloc: Global, lists: &[Result<Vec<u32>, Memory>]) -> Result<Vec<u32>, Fail> {
    let mut all = Vec::new(alloc);
    for list in lists {
        match list {
            Ok(numbers) => all.extend_from_slice(numbers)?,
            Err(_) => return Err("there is memory".into()),
        }
    }
    all.sort()?;
    Ok(all)
}

#[test]
fn threads_claim_each_number_once(rt: HostRuntime) -> Result<(), Fail> {
    let (claims, passes) = Claims::new(rt.alloc(), 4096, 8)
        .ok()
        .ok_or("there is memory")?;
    let lists = claimed_at_once(&rt, &claims, passes)?;
    let all = sorted_numbers(rt.alloc(), &lists)?;
    expect_same(&rt, all.len(), 4096);
    for (place, number) in all.iter().enumerate() {
        expect_same(&rt, place, *number as usize);
    }
    Ok(())
}

//! Both matches with a memo that forgets.
ghost use Rattle.std.specs.Prelude.{◌≡◌, ◌<◌, length};
ghost use Rattle.rc_code.specs.Seen.{code_seen};
ghost use Rattle.rc_code.specs.Stands.{StandsFor};

use crate::expect::expect_same;
use crate::twice::{about_in, plan_in};
use rc_base::Steps;
use rc_games::{Fickle, Game};
use rc_rollout::{Choices, shared_code};
use rc_rules::MatchRecord;
use rc_series::record_of;
use std::alloc::{AllocError, Global};
use std::marker::Brand;
use std::process::Abort;
use std::sync::Arc;
use std::sync::ledger::{Blank, Ledger};
use std::test::Fail;

/// The records of both matches, and the memo behind them.
#[derive(Drop)]
struct Played {
    first: MatchRecord,
    second: MatchRecord,
    memo: Fickle,
}

/// Plays both matches with one memo, which loses its entries at these looks.
fn play_with<L: Ledger>(
    alloc: Global,
    game: &Game,
    loses: Vec<u64>,
    blank: Blank,
) -> Result<Played, Fail>
    requires code { StandsFor game.now.about.value.sheet (code_seen game.now.code.value) }
    requires matches { length game.now.plan.value.matches.items ≡ 2 }
    requires seats { length game.now.plan.value.strategies.items ≡ game.now.about.value.sheet.players }
    requires name { blank.name ≡ L.name }
    requires parts { blank.parts ≡ L.parts }
    requires some { 0 < blank.parts }
{
    let mut steps = Steps::<L>::new(blank);
    let memo = Fickle::new(alloc, Arc::try_clone(&game.about)?, loses);
    let mut choices = Choices::new(
        Arc::try_clone(&game.about)?,
        Arc::try_clone(&game.code)?,
        memo,
    );
    let Game { about, plan, code } = game;
    let first = record_of(alloc, about, plan, code, 0, false, &mut choices, &mut steps)?;
    let second = record_of(alloc, about, plan, code, 1, false, &mut choices, &mut steps)?;
    Ok(Played {
        first: first.record,
        second: second.record,
        memo: choices.into_memo(),
    })
}

/// The choices of a match: seat, site, item and size. Both cards of a player are played in any case, so all items do as
/// well, and the first one is taken.
const CHOICES: [(u8, u8, u16, u16); 4] = [(0, 0, 0, 2), (1, 0, 0, 2), (0, 0, 0, 1), (1, 0, 0, 1)];

/// Fails unless these are a match's choices.
fn expect_choices(rt: &impl Abort, record: &MatchRecord) {
    expect_same(rt, record.picks.len(), 4);
    for (pick, choice) in record.picks.iter().zip(CHOICES) {
        expect_same(rt, (pick.seat, pick.site, pick.item, pick.size), choice);
    }
}

/// The looks whose bits are set, of which the lowest one stands for the first.
fn looks_of(alloc: Global, bits: u8) -> Result<Vec<u64>, AllocError> {
    let mut looks = Vec::new(alloc);
    for look in 0..8u8 {
        if bits & (1 << look) != 0 {
            looks.push(u64::from(look))?;
        }
    }
    Ok(looks)
}

/// The looks that lose what a look of the first match has had kept before the second match looks for it, which is four
/// looks later.
const LOST: [u8; 4] = [0b0001_1110, 0b0011_1100, 0b0111_1000, 0b1111_0000];

/// How many looks of the second match find what was kept.
fn hits_of(bits: u8) -> usize {
    LOST.iter().filter(|lost| bits & **lost == 0).count()
}

/// Fails unless the matches are the same with a memo that loses its entries at these looks.
fn expect_same_matches(rt: &(impl AllocGlobal + Abort), game: &Game, bits: u8) -> Result<(), Fail>
    requires code { StandsFor game.now.about.value.sheet (code_seen game.now.code.value) }
    requires matches { length game.now.plan.value.matches.items ≡ 2 }
    requires seats { length game.now.plan.value.strategies.items ≡ game.now.about.value.sheet.players }
{
    let loses = looks_of(rt.alloc(), bits)?;
    let Played {
        first,
        second,
        memo,
    } = play_with::<Brand>(rt.alloc(), game, loses, Blank::new(1))?;
    expect_choices(rt, &first);
    expect_choices(rt, &second);
    expect_same(rt, memo.looks(), 8);
    expect_same(rt, memo.hits(), hits_of(bits) as u64);
    Ok(())
}

/// Each of the eight looks loses all entries, or not.
#[test]
fn choices_are_the_same_whatever_a_memo_forgets(rt: HostRuntime) -> Result<(), Fail> {
    let about = about_in(rt.alloc())?;
    let plan = plan_in(rt.alloc())?;
    let code = shared_code(rt.alloc(), &about)?;
    assert!(rt; about.sheet().players == 2);
    let game = Game { about, plan, code };
    for bits in 0..=u8::MAX {
        expect_same_matches(&rt, &game, bits)?;
    }
    Ok(())
}

//! Texts of plans in which one strategy searches.
ghost use Rattle.std.specs.Prelude.{◌≡◌, length, IfOk};
ghost use Rattle.rc_play_spec.specs.Limits.{IsWithinLimits};
ghost use Rattle.rc_rules.specs.Plan.{plan_seen};
ghost use Rattle.rc_search.specs.Rival.{IsRival};

use bumpalo::Bump;
use rc_base::limits::LONGEST_TEXT;
use rc_flow::Checked;
use rc_form::read_forms;
use rc_games::checked_of_form;
use rc_house::rivals_of;
use rc_plan::plan_of;
use rc_rules::Plan;
use rc_search::Rival;
use std::alloc::Global;
use std::process::Abort;
use std::test::Fail;

/// Seat 0 is dealt 1 and 4, and seat 1 is dealt 2 and 3. A card is worth its number to who plays it.
const FOUR_CARDS: &[u8] = b"\
(game
(setup (create players 2)
(create deck (game hloc STOCK) (deck (RANK (3 2 4 1))))
(put points WORTH ((RANK (1) 1) (RANK (2) 2) (RANK (3) 3) (RANK (4) 4))))
(do (all player 'P (repeat 2 (move (top (game hloc STOCK)) (top ('P iloc HAND))))))
(stage player (end (all player 'P (= (size ('P iloc HAND)) 0)))
(choice (any ((current player) iloc HAND) 'C
(do (move 'C (top ((current player) vloc PLAYED)))))))
(scoring max (sum ('SELF vloc PLAYED) using WORTH)))
";

/// One match of seats that take the first card of their hands.
const FIRST_CARDS: &[u8] = b"(plan (seats (script) (script)) (matches (0 0)) (turns 100))";

/// The sheet that is the first list of a text.
fn sheet_in(alloc: Global, text: &[u8]) -> Result<Checked, Fail> {
    if text.len() > LONGEST_TEXT {
        return Err("a long text".into());
    }
    let arena = Bump::new(alloc);
    let Ok(forms) = read_forms(&arena, text, 1) else {
        return Err("no forms".into());
    };
    let Some(form) = forms.list.first() else {
        return Err("no sheet".into());
    };
    Ok(checked_of_form(alloc, form)?)
}

/// The plan that is the first list of a text, for so many players.
fn plan_in(alloc: Global, text: &[u8], players: u8) -> Result<Plan, Fail>
    ensures within { IfOk result (λ plan. IsWithinLimits (plan_seen plan)) }
    ensures seats { IfOk result (λ plan. length (plan_seen plan).strategies ≡ players) }
{
    if text.len() > LONGEST_TEXT || players < 1 || players > 8 {
        return Err("a long text, or too many players".into());
    }
    let arena = Bump::new(alloc);
    let Ok(forms) = read_forms(&arena, text, 1) else {
        return Err("no forms".into());
    };
    let Some(form) = forms.list.first() else {
        return Err("no plan".into());
    };
    match plan_of(alloc, form, players) {
        Ok(plan) => Ok(plan),
        Err(_) => Err("a faulty plan".into()),
    }
}

/// The text of that match where this one searches.
fn house_text_of(alloc: Global, rival: &Rival) -> Result<Vec<u8>, Fail>
    requires { IsRival rival.now }
{
    let checked = sheet_in(alloc, FOUR_CARDS)?;
    let players = checked.sheet().players;
    let plan = plan_in(alloc, FIRST_CARDS, players)?;
    Ok(rivals_of(alloc, checked, plan, rival)?)
}

/// Fails unless the text is this one.
fn expect_house(rt: &(impl AllocGlobal + Abort), rival: &Rival, expected: &[u8]) -> Result<(), Fail>
    requires { IsRival rival.now }
{
    let house = house_text_of(rt.alloc(), rival)?;
    assert_eq!(rt; house.as_slice(), expected);
    Ok(())
}

#[test]
fn two_decisions_deep_the_other_player_is_to_win_nothing(rt: HostRuntime) -> Result<(), Fail> {
    let rival = Rival {
        strategy: 0,
        depth: 2,
        rounds: 1,
        key: 5,
    };
    let expected = b"house 1\n\
        match 0 deal 0 seats 0\n\
        choose 0 0 1 2\n\
        choose 1 0 0 2\n\
        choose 0 0 0 1\n\
        choose 1 0 0 1\n\
        end done 8\n\
        score 0 5 1\n\
        score 1 5 1\n\
        standing 1 strategy 0 points 1\n\
        standing 1 strategy 1 points 1\n";
    expect_house(&rt, &rival, expected)
}

#[test]
fn down_to_the_end_the_first_of_equal_items_is_chosen(rt: HostRuntime) -> Result<(), Fail> {
    let rival = Rival {
        strategy: 0,
        depth: 4,
        rounds: 1,
        key: 5,
    };
    let expected = b"house 1\n\
        match 0 deal 0 seats 0\n\
        choose 0 0 0 2\n\
        choose 1 0 0 2\n\
        choose 0 0 0 1\n\
        choose 1 0 0 1\n\
        end done 8\n\
        score 0 5 1\n\
        score 1 5 1\n\
        standing 1 strategy 0 points 1\n\
        standing 1 strategy 1 points 1\n";
    expect_house(&rt, &rival, expected)
}

//! The play of a match, as its record tells it.
ghost use Rattle.std.specs.Prelude.{◌≡◌, ℕ, ◌+◌, ◌++◌, ◌<◌, ◌≤◌, ◌^◌, [], true, false, length, map, Some, IfOk, OnOk};
ghost use Rattle.rc_play_spec.specs.Step.{start, Config};
ghost use Rattle.rc_play_spec.specs.Plan.{Plan as PurePlan, deal_at};
ghost use Rattle.rc_play_spec.specs.HouseText.{shuffles_told};
ghost use Rattle.rc_play_spec.specs.Keyed.{dealing_of};
ghost use Rattle.rc_play_spec.specs.Along as along;
ghost use Rattle.rc_play_spec.specs.Judged.{play_after};
ghost use Rattle.rc_rules.specs.Control.{stop_seen, stopped_of};
ghost use Rattle.rc_rules.specs.Plan.{plan_seen};
ghost use Rattle.rc_rules.specs.Record.{pick_seen, score_seen, record_seen};
ghost use Rattle.rc_rules.specs.Machine.{IsWhereItStops};
ghost use Rattle.rc_judge.specs.Seen.{Judges, lines_in};

use crate::margin::Margin;
use crate::rows::{ending_row, opening_row, scored_row, shuffled_row, stopped_row};
use crate::verdict::{Halt, on_row};
use rc_plain::PlainMachine;
use rc_rules::{
    About, Machine, MatchDealer, MatchRecord, Pick, Plan, Score, Stop, go_on, rank_points,
};
use std::alloc::Global;

/// Judges the lines of match `number` of a plan, from its match line on. Answers the line behind them.
pub(crate) fn record_along<N: Margin>(
    alloc: Global,
    about: &About,
    plan: &Plan,
    number: u32,
    line: u32,
    played: &MatchRecord,
    margin: &mut N,
) -> Result<u32, Halt>
    requires room { line + lines_in played.now < 2 ^ 32 }
    ensures verdict { Judges (λ n. (n, N.told margin.new)) result
        (along.record_along about.now dealing_of (plan_seen plan.now) number line
        (N.told margin.old) (record_seen played.now)) }
    ensures noted { N.notes ≡ true → OnOk result (N.here margin.new ≡ N.here margin.old
        ++ along.marks_from about.now dealing_of (plan_seen plan.now) number
        (play_after about.now dealing_of (plan_seen plan.now) number []) (map pick_seen played.now.picks.items)) }
    ensures before { N.before margin.new ≡ N.before margin.old }
    ensures far { IfOk result (λ n. n ≡ line + lines_in played.now) }
    ensures few { OnOk result (length played.now.scores.items ≤ about.now.sheet.players) }
    ensures there { OnOk result (number < length plan.now.matches.items) }
{
    on_row(line, opening_row(plan, number, played))?;
    let machine = PlainMachine::start_of(alloc, about)?;
    body_along(about, plan, number, line + 1, machine, played, margin)
}

// Judges the lines of a match behind its first one, on a machine that stands at its start.
fn body_along<M: Machine + Drop, N: Margin>(
    about: &About,
    plan: &Plan,
    number: u32,
    line: u32,
    mut machine: M,
    played: &MatchRecord,
    margin: &mut N,
) -> Result<u32, Halt>
    requires about { M.about machine ≡ about.now }
    requires start { M.config machine ≡ start about.now }
    requires fresh { M.spent machine ≡ false }
    requires number { number < length plan.now.matches.items }
    requires room { line + lines_in played.now ≤ 2 ^ 32 }
    ensures verdict { Judges (λ n. (n, N.told margin.new)) result
        (along.body_along about.now dealing_of (plan_seen plan.now) number line
        (play_after about.now dealing_of (plan_seen plan.now) number []) (N.told margin.old) (record_seen played.now)) }
    ensures noted { N.notes ≡ true → OnOk result (N.here margin.new ≡ N.here margin.old
        ++ along.marks_from about.now dealing_of (plan_seen plan.now) number
        (play_after about.now dealing_of (plan_seen plan.now) number []) (map pick_seen played.now.picks.items)) }
    ensures before { N.before margin.new ≡ N.before margin.old }
    ensures far { IfOk result (λ n. n + 1 ≡ line + lines_in played.now) }
    ensures few { OnOk result (length played.now.scores.items ≤ about.now.sheet.players) }
{
    let mut dealer = MatchDealer::new(plan.matches[number as usize].deal);
    let stop = machine.advance(&mut dealer)?;
    let (line, stop) = picks_along(&mut machine, &mut dealer, stop, line, &played.picks, margin)?;
    end_along(about, &machine, stop, dealer.count(), line, played)
}

// Judges the choices of a match, where it stands at this stop. Answers the line behind them, and the stop to which they
// lead.
fn picks_along<M: Machine, N: Margin>(
    machine: &mut M,
    dealer: &mut MatchDealer,
    start: Stop,
    from: u32,
    picks: &[Pick],
    margin: &mut N,
) -> Result<(u32, Stop), Halt>
    requires fresh { M.spent machine.old ≡ false }
    requires stands { IsWhereItStops (M.about machine.old) (stop_seen start) (M.config machine.old) }
    requires room { from + length picks.now < 2 ^ 32 }
    ensures verdict { (plan : PurePlan) (m : ℕ) → dealing_of (deal_at plan m).deal ≡ dealing_of dealer.old.deal →
        Judges (λ x. (x.0, Some (stopped_of x.1 (M.config machine.new) dealer.new.count), N.told margin.new)) result
        (along.picks_along (M.about machine.old) dealing_of plan m from
        (Some (stopped_of start (M.config machine.old) dealer.old.count)) (N.told margin.old)
        (map pick_seen picks.now)) }
    ensures noted { N.notes ≡ true → (plan : PurePlan) (m : ℕ)
        → dealing_of (deal_at plan m).deal ≡ dealing_of dealer.old.deal →
        OnOk result (N.here margin.new ≡ N.here margin.old
        ++ along.marks_from (M.about machine.old) dealing_of plan m
        (Some (stopped_of start (M.config machine.old) dealer.old.count)) (map pick_seen picks.now)) }
    ensures before { N.before margin.new ≡ N.before margin.old }
    ensures far { IfOk result (λ x. x.0 ≡ from + length picks.now) }
    ensures fresh { OnOk result (M.spent machine.new ≡ false) }
    ensures same { M.about machine.new ≡ M.about machine.old }
{
    let mut line = from;
    let mut stop = start;
    for pick in picks {
        on_row(line, stopped_row(machine, stop, pick))?;
        on_row(line, margin.row(machine, pick.item)?)?;
        stop = go_on(machine, dealer, pick.item)?;
        line += 1;
    }
    Ok((line, stop))
}

// Judges what a record tells behind its choices, where the play stands at this stop and so many lists were shuffled.
// Answers the line behind it.
fn end_along<M: Machine>(
    about: &About,
    machine: &M,
    stop: Stop,
    count: u32,
    line: u32,
    played: &MatchRecord,
) -> Result<u32, Halt>
    requires about { M.about machine.now ≡ about.now }
    requires fresh { M.spent machine.now ≡ false }
    requires room { line + length (shuffles_told played.now.shuffles) + 1 + length played.now.scores.items < 2 ^ 32 }
    ensures verdict { Judges (λ n. n) result
        (along.end_along about.now line (Some (stopped_of stop (M.config machine.now) count))
        (record_seen played.now)) }
    ensures far { IfOk result (λ n. n
        ≡ line + length (shuffles_told played.now.shuffles) + 1 + length played.now.scores.items) }
    ensures few { OnOk result (length played.now.scores.items ≤ about.now.sheet.players) }
{
    let line = told_along(stop, count, line, played.shuffles)?;
    on_row(
        line,
        ending_row(stop, count, machine.control().turn, played),
    )?;
    scores_along(about, machine, line + 1, &played.scores)
}

// Judges the shuffles line, which is left out where its number is 0. Answers the line behind it.
fn told_along(stop: Stop, count: u32, line: u32, told: u32) -> Result<u32, Halt>
    requires room { line + 1 < 2 ^ 32 }
    ensures verdict { (c : Config)
        → Judges (λ n. n) result (along.told_along line (Some (stopped_of stop c count)) told) }
    ensures far { IfOk result (λ n. n ≡ line + length (shuffles_told told)) }
{
    if told == 0 {
        return Ok(line);
    }
    on_row(line, shuffled_row(stop, count, told))?;
    Ok(line + 1)
}

// Judges the score lines of a match that stands at its end. Answers the line behind them.
fn scores_along<M: Machine>(
    about: &About,
    machine: &M,
    from: u32,
    told: &[Score],
) -> Result<u32, Halt>
    requires about { M.about machine.now ≡ about.now }
    requires fresh { M.spent machine.now ≡ false }
    requires room { from + length told.now < 2 ^ 32 }
    ensures verdict { (stop : Stop) (count : ℕ) → Judges (λ n. n) result
        (along.scores_along about.now from (Some (stopped_of stop (M.config machine.now) count)) 0
        (map score_seen told.now)) }
    ensures far { IfOk result (λ n. n ≡ from + length told.now) }
    ensures few { OnOk result (length told.now ≤ about.now.sheet.players) }
{
    let scores = machine.scores();
    let points = rank_points(about.sheet(), &scores);
    let mut line = from;
    let mut index = 0;
    for score in told {
        on_row(line, scored_row(&scores, &points, index, score))?;
        line += 1;
        index += 1;
    }
    Ok(line)
}

//! The judge of whole house texts.
ghost use Rattle.std.specs.Prelude.{◌≡◌, ◌+◌, ◌++◌, ◌<◌, ◌≤◌, ◌^◌, ◌↔◌, [], List, Option, length, map, true, is_ok, None, All, IfOk, OnOk};
ghost use Rattle.rc_base.specs.Transcript.{Record};
ghost use Rattle.rc_base.specs.Limits.{most_matches};
ghost use Rattle.rc_play_spec.specs.Keyed.{dealing_of};
ghost use Rattle.rc_play_spec.specs.House as house;
ghost use Rattle.rc_play_spec.specs.Plan.{Plan as PurePlan};
ghost use Rattle.rc_play_spec.specs.Limits.{IsWithinLimits};
ghost use Rattle.rc_play_spec.specs.HouseText.{IsHouseText, IsText, lines_of, unmarked};
ghost use Rattle.rc_play_spec.specs.Naming.{legend_of};
ghost use Rattle.rc_play_spec.specs.Along as along;
ghost use Rattle.rc_play_spec.specs.Rows as rows;
ghost use Rattle.rc_play_spec.specs.Judged.{first_illegal};
ghost use Rattle.rc_play_spec.specs.Legal.{IsLegal, IsLegalText};
ghost use Rattle.rc_play_spec.specs.PlayedLaws as played;
ghost use Rattle.rc_play_spec.specs.Why.{Illegal};
ghost use Rattle.rc_judge.specs.declared.verdict.Verdict.TheVariants.{Legal};
ghost use Rattle.rc_rules.specs.Plan.{plan_seen, IsPlanFor};
ghost use Rattle.rc_rules.specs.Record.{record_seen, standing_seen};
ghost use Rattle.rc_text.specs.BoundSeen.{all_bounds, AreFor};
ghost use Rattle.rc_text.specs.House.{house_text_seen, named_seen, Fits};
ghost use Rattle.rc_judge.specs.Seen.{Finds, Judges, IfLegal, illegal_in, row_seen, verdict_seen, lines_in_all, lists_over};

use crate::legend::face_count;
use crate::margin::{Bare, Margin, Notes, Told};
use crate::playing::record_along;
use crate::rows::ranked_row;
use crate::verdict::{Halt, Named, Verdict, Why, on_row};
use rc_deck::Memory;
use rc_play_spec::{legal_exactly, one_pass_judges, texts_are_of_lines};
use rc_rules::{About, MatchRecord, Plan, Standing};
use rc_text::{HouseText, NamedText, standings};
use std::alloc::Global;

/// Judges a house text by what its matches are played by and a plan: `Legal`, or the first illegal line and why. The
/// plan is within its limits and has a strategy for each player. Numbers of the text are in their ranges, and it has a
/// match and a standing or more, and a score or more for each match. It doesn't ask whether an item is the strategy's
/// choice.
///
/// # Errors
///
/// No memory is left.
pub fn judge(alloc: Global, about: &About, plan: &Plan, text: &HouseText) -> Result<Verdict, Memory>
    requires within { IsWithinLimits (plan_seen plan.now) }
    requires seats { IsPlanFor about.now plan.now }
    requires text { IsHouseText (house_text_seen text.now) }
    requires few { 1 + length (lines_of (house_text_seen text.now)) ≤ 33554432 }

    // Where a line is illegal, it is the first one that the definitions find, and why.
    ensures first { IfOk result (λ v. verdict_seen v
        ≡ first_illegal about.now dealing_of (plan_seen plan.now) 1 (unmarked (house_text_seen text.now))) }

    // There is none exactly where sheet and plan allow all that the text tells.
    ensures legal { IfOk result (λ v. (v ≡ Legal)
        ↔ IsLegal about.now dealing_of (plan_seen plan.now) (house_text_seen text.now)) }
{
    texts_are_of_lines();
    one_pass_judges();
    legal_exactly();
    verdict_of(text_along(alloc, about, plan, 1, text, &mut Bare))
}

/// Judges a house text that names what items bind, by the same, and by what they do bind.
///
/// # Errors
///
/// No memory is left.
pub fn judge_named(
    alloc: Global,
    about: &About,
    plan: &Plan,
    named: &NamedText,
) -> Result<Verdict, Memory>
    requires within { IsWithinLimits (plan_seen plan.now) }
    requires seats { IsPlanFor about.now plan.now }
    requires text { IsText true (named_seen named.now) }
    requires fits { Fits named.now }
    requires few { length (lines_of (house_text_seen named.now.text)) ≤ 33554432 }

    // Where a line is illegal, it is the first one that the definitions find, and why. The head and the legend are
    // counted, too.
    ensures first { IfOk result (λ v. verdict_seen v ≡ first_illegal about.now dealing_of (plan_seen plan.now)
        (1 + length (legend_of about.now.sheet about.now.shape)) (named_seen named.now)) }

    // There is none exactly where sheet and plan allow all that the text tells, and its marks are those of its items.
    ensures legal { IfOk result (λ v. (v ≡ Legal)
        ↔ IsLegalText about.now dealing_of (plan_seen plan.now) true (named_seen named.now)) }
{
    texts_are_of_lines();
    one_pass_judges();
    legal_exactly();
    let head = 1 + face_count(about.shape());
    let mut told = Told::new(&named.bounds);
    verdict_of(text_along(alloc, about, plan, head, &named.text, &mut told))
}

/// Judges a house text as `judge` does, and tells what its items bind where it is legal. The matches are played once
/// for both.
///
/// # Errors
///
/// No memory is left.
pub fn judge_and_name(
    alloc: Global,
    about: &About,
    plan: &Plan,
    text: &HouseText,
) -> Result<Named, Memory>
    requires within { IsWithinLimits (plan_seen plan.now) }
    requires seats { IsPlanFor about.now plan.now }
    requires text { IsHouseText (house_text_seen text.now) }
    requires few { 1 + length (lines_of (house_text_seen text.now)) ≤ 33554432 }

    // Where a line is illegal, it is the first one that the definitions find, and why.
    ensures first { IfOk result (λ n. illegal_in n
        ≡ first_illegal about.now dealing_of (plan_seen plan.now) 1 (unmarked (house_text_seen text.now))) }

    // There is none exactly where sheet and plan allow all that the text tells.
    ensures legal { IfOk result (λ n. (illegal_in n ≡ None)
        ↔ IsLegal about.now dealing_of (plan_seen plan.now) (house_text_seen text.now)) }

    // Where the text is legal, what its items bind is told as the definitions tell it.
    ensures marks { IfOk result (λ n. IfLegal n (λ bounds. all_bounds bounds.items
        ≡ played.bounds_of about.now (plan_seen plan.now) (house_text_seen text.now))) }
    ensures fits { IfOk result (λ n. IfLegal n (λ bounds. AreFor text.now.matches.items bounds.items)) }
{
    texts_are_of_lines();
    one_pass_judges();
    legal_exactly();
    let mut notes = Notes::new(alloc);
    let judged = text_along(alloc, about, plan, 1, text, &mut notes);
    named_by(judged, notes)
}

// The verdict on a text that was judged, with these notes.
fn named_by(judged: Result<(), Halt>, notes: Notes) -> Result<Named, Memory>
    ensures found { (found : Option Illegal) → Finds judged found → IfOk result (λ n. illegal_in n ≡ found) }
    ensures notes { IfOk result (λ n. IfLegal n (λ bounds. (bounds ≡ notes.before) × (is_ok judged ≡ true))) }
{
    match judged {
        Ok(()) => {
            let Notes { before, .. } = notes;
            Ok(Named::Legal(before))
        }
        Err(Halt::Illegal { line, why }) => Ok(Named::Illegal { line, why }),
        Err(Halt::NoMemory) => Err(Memory),
    }
}

// The verdict on a text that was judged.
fn verdict_of(judged: Result<(), Halt>) -> Result<Verdict, Memory>
    ensures { (found : Option Illegal) → Finds judged found → IfOk result (λ v. verdict_seen v ≡ found) }
{
    match judged {
        Ok(()) => Ok(Verdict::Legal),
        Err(Halt::Illegal { line, why }) => Ok(Verdict::Illegal { line, why }),
        Err(Halt::NoMemory) => Err(Memory),
    }
}

// Judges a whole text behind a head of so many lines, with what stands beside its choices.
fn text_along<N: Margin>(
    alloc: Global,
    about: &About,
    plan: &Plan,
    head: u32,
    text: &HouseText,
    margin: &mut N,
) -> Result<(), Halt>
    requires within { IsWithinLimits (plan_seen plan.now) }
    requires seats { IsPlanFor about.now plan.now }
    requires text { IsHouseText (house_text_seen text.now) }
    requires few { head + length (lines_of (house_text_seen text.now)) ≤ 67108864 }
    ensures verdict { Finds result (along.judged about.now dealing_of (plan_seen plan.now) head
        (record { text = house_text_seen text.now; marks = N.told margin.old })) }
    ensures noted { N.notes ≡ true → N.here margin.old ≡ [] → OnOk result (N.before margin.new ≡ N.before margin.old
        ++ lists_over about.now dealing_of (plan_seen plan.now) 0 (map record_seen text.now.matches.items)) }
{
    let line = matches_along(alloc, about, plan, head + 1, &text.matches, margin)?;
    on_row(line, further_row(plan, &text.matches))?;
    let standings = standings(alloc, plan, &text.matches)?;
    standings_along(line, &standings, &text.standings)
}

// Judges the matches of a text, which begin in this line. Answers the line behind them.
fn matches_along<N: Margin>(
    alloc: Global,
    about: &About,
    plan: &Plan,
    from: u32,
    matches: &[MatchRecord],
    margin: &mut N,
) -> Result<u32, Halt>
    requires within { length plan.now.matches.items ≤ most_matches }
    requires room { from + lines_in_all matches.now < 2 ^ 32 }
    ensures verdict { Judges (λ n. n) result (along.matches_along about.now dealing_of (plan_seen plan.now) 0 from
        (N.told margin.old) (map record_seen matches.now)) }
    ensures noted { N.notes ≡ true → N.here margin.old ≡ [] → OnOk result (N.before margin.new ≡ N.before margin.old
        ++ lists_over about.now dealing_of (plan_seen plan.now) 0 (map record_seen matches.now)) }
    ensures far { IfOk result (λ n. n ≡ from + lines_in_all matches.now) }
    ensures each { OnOk result (All (λ r. length r.scores.items ≡ about.now.sheet.players) matches.now) }
    ensures few { OnOk result (length matches.now ≤ length plan.now.matches.items) }
{
    let mut line = from;
    let mut number = 0;
    for played in matches {
        line = record_along(alloc, about, plan, number, line, played, margin)?;
        on_row(line, lacking_row(about, played))?;
        margin.close(alloc)?;
        number += 1;
    }
    Ok(line)
}

// The row that applies behind a match that lacks score lines.
fn lacking_row(about: &About, played: &MatchRecord) -> Option<Why>
    ensures row { row_seen result ≡ rows.lacking_row about.now (record_seen played.now) }
    ensures each { result ≡ None → about.now.sheet.players ≤ length played.now.scores.items }
{
    if played.scores.len() < usize::from(about.sheet().players) {
        Some(Why::Score)
    } else {
        None
    }
}

// The row that applies to the first standing where the plan has a further match.
fn further_row(plan: &Plan, matches: &[MatchRecord]) -> Option<Why>
    ensures { row_seen result ≡ rows.further_row (plan_seen plan.now) (map record_seen matches.now) }
{
    if matches.len() < plan.matches.len() {
        Some(Why::Match)
    } else {
        None
    }
}

// Judges the standing lines, and the end behind them, by the plan's standings.
fn standings_along(from: u32, standings: &[Standing], told: &[Standing]) -> Result<(), Halt>
    requires room { from + length told.now < 2 ^ 32 }
    ensures { (plan : PurePlan) (matches : List Record) → rows.further_row plan matches ≡ None
        → map standing_seen standings.now ≡ house.standings_of plan matches
        → Finds result (along.standings_along plan from matches 0 (map standing_seen told.now)) }
{
    let mut line = from;
    for (index, standing) in told.iter().enumerate() {
        on_row(line, ranked_row(standings, index, standing))?;
        line += 1;
    }
    on_row(line, missing_row(standings, told))
}

// The row that applies to the end of the text where standings are missing.
fn missing_row(standings: &[Standing], told: &[Standing]) -> Option<Why>
    ensures { (plan : PurePlan) (matches : List Record)
        → map standing_seen standings.now ≡ house.standings_of plan matches
        → row_seen result ≡ rows.end_row plan matches (length told.now) }
{
    if told.len() < standings.len() {
        Some(Why::Standing)
    } else {
        None
    }
}

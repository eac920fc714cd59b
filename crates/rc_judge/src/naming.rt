//! What the items of a legal text bind.
ghost use Rattle.std.specs.Prelude.{◌≡◌, ◌+◌, ◌≤◌, length, true, IfOk};
ghost use Rattle.rc_play_spec.specs.Keyed.{dealing_of};
ghost use Rattle.rc_play_spec.specs.Limits.{IsWithinLimits};
ghost use Rattle.rc_play_spec.specs.HouseText.{IsHouseText, lines_of};
ghost use Rattle.rc_play_spec.specs.Legal.{IsLegal};
ghost use Rattle.rc_play_spec.specs.PlayedLaws.{told_in};
ghost use Rattle.rc_rules.specs.Plan.{plan_seen, IsPlanFor};
ghost use Rattle.rc_text.specs.House.{house_text_seen, named_seen, Fits};

use crate::judging::judge_and_name;
use crate::verdict::Named;
use rc_deck::Memory;
use rc_rules::{About, Plan};
use rc_text::{HouseText, NamedText};
use std::alloc::Global;

/// A legal text with what its items bind: a copy, and the notes of `judge_and_name`. Plan and text are as `judge` asks.
///
/// # Errors
///
/// No memory is left.
pub fn bounds_of(
    alloc: Global,
    about: &About,
    plan: &Plan,
    text: &HouseText,
) -> Result<NamedText, Memory>
    requires within { IsWithinLimits (plan_seen plan.now) }
    requires seats { IsPlanFor about.now plan.now }
    requires text { IsHouseText (house_text_seen text.now) }
    requires few { 1 + length (lines_of (house_text_seen text.now)) ≤ 33554432 }
    requires legal { IsLegal about.now dealing_of (plan_seen plan.now) (house_text_seen text.now) }

    // The text is the same, and its marks are those of its items.
    ensures named { IfOk result (λ named. named_seen named
        ≡ told_in true about.now (plan_seen plan.now) (house_text_seen text.now)) }
    ensures fits { IfOk result Fits }
{
    let text_of = text.copy(alloc)?;
    match judge_and_name(alloc, about, plan, text)? {
        Named::Legal(bounds) => Ok(NamedText {
            text: text_of,
            bounds,
        }),
        Named::Illegal { .. } => unreachable!(),
    }
}

//! What is told of the matches of a plan.
ghost use Rattle.std.specs.Prelude.{◌≡◌, ◌≤◌, length, map, All, IfOk};
ghost use Rattle.rc_base.specs.Limits.{most_matches};
ghost use Rattle.rc_play_spec.specs.House.{standings_of};
ghost use Rattle.rc_rules.specs.Plan.{plan_seen};
ghost use Rattle.rc_rules.specs.Record.{standing_seen};
ghost use Rattle.rc_series.specs.Series.{lists_of, played_seen};

use rc_cache::Totals;
use rc_deck::Memory;
use rc_match::Played;
use rc_rules::{Bounds, MatchRecord, Plan};
use rc_text::{HouseText, NamedText, standings};
use std::alloc::Global;

/// The matches of a plan as they were played, with the standings, and a list of what its choices bind for each match,
/// or no list where that wasn't noted; and the totals of the book that they were played by: how many of their decisions
/// asked for playouts, and how many of these it had.
#[derive(Drop)]
pub struct Series {
    pub named: NamedText,
    pub totals: Totals,
}

/// These matches of a plan, with their standings, what was noted of them, and these totals. Memory may run out.
pub fn series_from(
    alloc: Global,
    plan: &Plan,
    noted: bool,
    played: Vec<Played>,
    totals: Totals,
) -> Result<Series, Memory>
    requires strategies { length plan.now.strategies.items ≤ 8 }
    requires few { length played.items ≤ most_matches }
    requires each { All (λ p. length p.record.scores.items ≡ length plan.now.strategies.items) played.items }
    ensures matches { IfOk result (λ series. series.named.text.matches.items ≡ map (λ p. p.record) played.items) }

    // The standings are those of the plan after these matches.
    ensures standings { IfOk result (λ series. map standing_seen series.named.text.standings.items
        ≡ standings_of (plan_seen plan.now) (map played_seen played.items)) }

    // There is a list of what choices bind for each match, or no list where that wasn't noted.
    ensures bounds { IfOk result (λ series. series.named.bounds.items ≡ lists_of noted played.items) }
    ensures totals { IfOk result (λ series. series.totals ≡ totals) }
{
    let (matches, bounds) = split_played(alloc, noted, played)?;
    let standings = standings(alloc, plan, &matches)?;
    let text = HouseText { matches, standings };
    Ok(Series {
        named: NamedText { text, bounds },
        totals,
    })
}

// The records, and beside them the lists of what was noted, if any was.
fn split_played(
    alloc: Global,
    noted: bool,
    played: Vec<Played>,
) -> Result<(Vec<MatchRecord>, Vec<Vec<Bounds>>), Memory>
    ensures matches { IfOk result (λ parts. parts.0.items ≡ map (λ p. p.record) played.items) }
    ensures bounds { IfOk result (λ parts. parts.1.items ≡ lists_of noted played.items) }
{
    let mut matches = Vec::new(alloc);
    let mut lists = Vec::new(alloc);
    for Played { record, bounds } in played {
        matches.push(record)?;
        if noted {
            lists.push(bounds)?;
        }
    }
    Ok((matches, lists))
}

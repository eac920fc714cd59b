//! A law of what the matches of a plan ask. The function does nothing: a crate above gets the law by calling it.
ghost use Rattle.rc_series.specs.SeriesLaws.{LooksAreRolloutPicks};

use rc_match::each_rollout_pick_asks;

/// The matches of a plan ask playouts once for each pick of a seat that has a rollout strategy in its match.
pub fn looks_are_rollout_picks()
    ensures { LooksAreRolloutPicks }
{
    each_rollout_pick_asks();
}

//! What `rival` answers where sheet and plan are accepted.
ghost use Rattle.std.specs.Prelude.{◌≡◌, ◌≤◌, IfOk};
ghost use Rattle.rc_play_spec.specs.About.{about_of};
ghost use Rattle.rc_rules.specs.Plan.{plan_seen};
ghost use Rattle.rc_search.specs.Rival.{rival_seen};
ghost use Rattle.rc_house.specs.Answer.{IsGame, rivalled, searching, seen};

use crate::answer::{Answer, Game};
use crate::note::Note;
use crate::refusal::Refusal;
use crate::rival::Rival;
use crate::rival_matches::rivals_of;
use rc_deck::Memory;
use std::alloc::Global;

/// The house text of the matches of a game in which this search plays for one of its strategies, if there is such a
/// strategy. Memory may run out.
pub(crate) fn rivalled_answer(alloc: Global, game: Game, rival: Rival) -> Result<Answer, Memory>
    requires game { IsGame game.checked (plan_seen game.plan) }
    requires deep { 1 ≤ rival.depth }
    requires some { 1 ≤ rival.rounds }
    ensures { IfOk result (λ answer. seen answer 0
        ≡ rivalled rival (about_of game.checked game.plan.turns) (plan_seen game.plan)) }
{
    let Game { checked, plan } = game;
    if (rival.strategy as usize) < plan.strategies.len() {
        let text = rivals_of(alloc, checked, plan, &search_of(rival))?;
        Ok(Answer::Text(text, Note::Nothing))
    } else {
        Ok(Answer::Refused(Refusal::Absent))
    }
}

/// The search that words name.
fn search_of(rival: Rival) -> rc_search::Rival
    ensures { rival_seen result ≡ searching rival }
{
    rc_search::Rival {
        strategy: rival.strategy,
        depth: rival.depth,
        rounds: rival.rounds,
        key: rival.key,
    }
}

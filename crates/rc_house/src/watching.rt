//! What `watch` answers where sheet and plan are accepted.
ghost use Rattle.std.specs.Prelude.{◌≡◌, IfOk};
ghost use Rattle.rc_play_spec.specs.About.{about_of};
ghost use Rattle.rc_rules.specs.Plan.{plan_seen};
ghost use Rattle.rc_house.specs.Answer.{seen, watched, IsGame};

use crate::answer::{Answer, Game};
use crate::note::Note;
use crate::refusal::Refusal;
use crate::watched_match::watched_log;
use rc_deck::Memory;
use std::alloc::Global;

/// The log of a seat in a match of a game, if there are such. Memory may run out.
pub(crate) fn watched_answer(
    alloc: Global,
    game: Game,
    seat: u8,
    number: u32,
) -> Result<Answer, Memory>
    requires game { IsGame game.checked (plan_seen game.plan) }
    ensures { IfOk result (λ answer. seen answer 0
        ≡ watched seat number (about_of game.checked game.plan.turns) (plan_seen game.plan)) }
{
    let Game { checked, plan } = game;
    let players = checked.sheet().players;
    if seat < players && (number as usize) < plan.matches.len() {
        let log = watched_log(alloc, checked, plan, seat, number)?;
        Ok(Answer::Text(log, Note::Nothing))
    } else {
        Ok(Answer::Refused(Refusal::Absent))
    }
}

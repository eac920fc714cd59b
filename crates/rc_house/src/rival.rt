//! Words that let a search play.
ghost use Rattle.std.specs.Prelude.{ℕ, map, string_bytes, IfSome, IfNone};
ghost use Rattle.rc_house.specs.Command.{IsRival, SpellRival};
ghost use Rattle.rc_house.specs.declared.rival.Rival.{Rival};

use crate::number::number_of;
use rc_base::limits::MOST_PLAYERS;
use rc_form::natural;

/// For which strategy of a plan a search plays, counted from 0 and at most 7, how many decisions deep it looks, 1 to 4,
/// over how many rounds, 1 to 100, and by which key, of one to eighteen digits.
#[derive(Clone, Copy, Debug, PartialEq, Eq, Hash)]
pub struct Rival {
    pub strategy: u8,
    pub depth: u8,
    pub rounds: u16,
    pub key: u64,
}

/// How many decisions deep a search looks at most.
const DEEPEST: u64 = 4;

/// Over how many rounds at most.
const MOST_ROUNDS: u64 = 100;

/// The search that the words behind `rival` name.
pub(crate) fn rival_of(words: &[String]) -> Option<Rival>
    ensures some { IfSome result (IsRival (map string_bytes words.now)) }
    ensures none { IfNone result ((rival : Rival) → IsRival (map string_bytes words.now) rival → ⊥) }
{
    match words {
        [strategy, depth, rounds, key] => rival_by(strategy, depth, rounds, key),
        _ => None,
    }
}

/// The search that these four words name.
fn rival_by(strategy: &String, depth: &String, rounds: &String, key: &String) -> Option<Rival>
    ensures some { IfSome result (SpellRival (string_bytes strategy.now) (string_bytes depth.now)
        (string_bytes rounds.now) (string_bytes key.now)) }
    ensures none { IfNone result ((rival : Rival) → SpellRival (string_bytes strategy.now) (string_bytes depth.now)
        (string_bytes rounds.now) (string_bytes key.now) rival → ⊥) }
{
    let strategy = number_of(strategy.as_str(), 0, MOST_PLAYERS as u64 - 1)?;
    let depth = number_of(depth.as_str(), 1, DEEPEST)?;
    let rounds = number_of(rounds.as_str(), 1, MOST_ROUNDS)?;
    let key = natural(key.as_bytes())?;
    Some(Rival {
        strategy: strategy as u8,
        depth: depth as u8,
        rounds: rounds as u16,
        key,
    })
}

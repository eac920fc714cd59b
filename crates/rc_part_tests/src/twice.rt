//! The same match twice, between two seats that roll out. The seats have two cards each, so that each decision of a
//! match asks something else.
ghost use Rattle.std.specs.Prelude.{◌≡◌, length, IfOk};

use rc_games::{GAME, basis_in};
use rc_rules::{About, Deal, Plan, Strategy};
use std::alloc::Global;
use std::sync::Arc;
use std::test::Fail;

/// What the matches are played by.
pub fn about_in(alloc: Global) -> Result<Arc<About>, Fail> {
    let basis = basis_in(alloc, GAME)?;
    let about = About::new(alloc, basis.checked, basis.shape, 100)?;
    Ok(Arc::new(alloc, about)?)
}

/// Their plan.
pub fn plan_in(alloc: Global) -> Result<Arc<Plan>, Fail>
    ensures matches { IfOk result (λ plan. length plan.value.matches.items ≡ 2) }
    ensures seats { IfOk result (λ plan. length plan.value.strategies.items ≡ 2) }
{
    let deal = Deal { deal: 0, seats: 7 };
    let first = Strategy::Rollout { rounds: 4, key: 9 };
    let second = Strategy::Rollout { rounds: 4, key: 9 };
    let plan = Plan {
        strategies: vec![in alloc; first, second]?,
        matches: vec![in alloc; deal, deal]?,
        turns: 100,
    };
    Ok(Arc::new(alloc, plan)?)
}

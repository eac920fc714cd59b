//! Games with their plans.
ghost use Rattle.std.specs.Prelude.{◌≡◌, length, IfOk};
ghost use Rattle.rc_play_spec.specs.Shape.{shape_of};
ghost use Rattle.rc_code.specs.Seen.{code_seen};
ghost use Rattle.rc_code.specs.Stands.{StandsFor};

use crate::basis::{Basis, basis_in};
use crate::sheets::NoGame;
use bumpalo::Bump;
use rc_base::limits::LONGEST_TEXT;
use rc_code::Code;
use rc_deck::Memory;
use rc_form::{FormFail, read_forms};
use rc_plan::{PlanFail, plan_of};
use rc_rollout::shared_code;
use rc_rules::{About, Plan};
use std::alloc::Global;
use std::sync::Arc;

/// What matches are played by, their plan, and the code of their sheet.
#[derive(Drop)]
pub struct Game {
    pub about: Arc<About>,
    pub plan: Arc<Plan>,
    pub code: Arc<Code>,
}

/// The game of a sheet and a plan, which are the first lists of two texts.
pub fn game_in(alloc: Global, sheet: &[u8], plan: &[u8]) -> Result<Game, NoGame>
    ensures code { IfOk result (λ game. StandsFor game.about.value.sheet (code_seen game.code.value)) }
    ensures seats { IfOk result (λ game. length game.plan.value.strategies.items ≡ game.about.value.sheet.players) }
{
    let basis = basis_in(alloc, sheet)?;
    let plan = plan_in(alloc, plan, basis.checked.sheet().players)?;
    let about = about_on(alloc, basis, plan.turns)?;
    if plan.strategies.len() != usize::from(about.sheet().players) {
        return Err(NoGame::Plan);
    }
    let code = shared_code(alloc, &about)?;
    Ok(share_game(alloc, about, plan, code)?)
}

/// The plan of a text, for so many players.
fn plan_in(alloc: Global, text: &[u8], players: u8) -> Result<Plan, NoGame> {
    if text.len() > LONGEST_TEXT || players < 1 || players > 8 {
        return Err(NoGame::Plan);
    }
    let arena = Bump::new(alloc);
    let forms = match read_forms(&arena, text, 1) {
        Ok(forms) => forms,
        Err(FormFail::Fault(_)) => return Err(NoGame::Plan),
        Err(FormFail::Memory) => return Err(NoGame::Memory),
    };
    let Some(form) = forms.list.first() else {
        return Err(NoGame::Plan);
    };
    match plan_of(alloc, form, players) {
        Ok(plan) => Ok(plan),
        Err(PlanFail::Fault(_)) => Err(NoGame::Plan),
        Err(PlanFail::Memory) => Err(NoGame::Memory),
    }
}

fn about_on(alloc: Global, basis: Basis, turns: u32) -> Result<About, Memory>
    requires { basis.shape.value ≡ shape_of basis.checked.value }
{
    About::new(alloc, basis.checked, basis.shape, turns)
}

fn share_game(alloc: Global, about: About, plan: Plan, code: Arc<Code>) -> Result<Game, Memory>
    requires code { StandsFor about.sheet (code_seen code.value) }
    requires seats { length plan.strategies.items ≡ about.sheet.players }
    ensures code { IfOk result (λ game. StandsFor game.about.value.sheet (code_seen game.code.value)) }
    ensures seats { IfOk result (λ game. length game.plan.value.strategies.items ≡ game.about.value.sheet.players) }
{
    let about = Arc::new(alloc, about)?;
    let plan = Arc::new(alloc, plan)?;
    Ok(Game { about, plan, code })
}

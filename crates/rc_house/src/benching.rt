//! What `bench` plays.
ghost use Rattle.std.specs.Prelude.{◌≡◌, ◌≤◌, length, IfOk, All};
ghost use Rattle.rc_base.specs.Placed.{IsPlaced};
ghost use Rattle.rc_base.specs.Spelled.{Spelled};
ghost use Rattle.rc_base.specs.Limits.{most_in_bench};
ghost use Rattle.rc_form.specs.Form.{tree_of, trees_of, IsPrintable};
ghost use Rattle.rc_form.specs.SameForm.{IsOfAtoms};
ghost use Rattle.rc_sheet_spec.specs.Sheet.{Sheet};
ghost use Rattle.rc_rules.specs.Plan.{plan_seen};
ghost use Rattle.rc_trick.specs.Bench.{bench_plan};
ghost use Rattle.rc_trick.specs.Trick.{trick_text, IsTrickGame};
ghost use Rattle.rc_house.specs.Answer.{IsGame};

use crate::accepting::{SourceFail, accept};
use crate::answer::Game;
use bumpalo::Bump;
use rc_deck::Memory;
use rc_flow::Checked;
use rc_form::{FormFail, Forms, read_forms};
use rc_trick::{bench_plan, the_trick_game_is_accepted, trick_text};
use std::alloc::Global;

/// The matches of the bench, so many. Memory may run out.
pub fn bench_game(alloc: Global, number: u16) -> Result<Game, Memory>
    requires some { 1 ≤ number }
    requires few { number ≤ most_in_bench }
    ensures trick { IfOk result (λ game. IsTrickGame game.checked) }

    // The bench's game has no other sheet.
    ensures one { IfOk result (λ game. (other : Sheet) → IsTrickGame other → other ≡ game.checked) }
    ensures plan { IfOk result (λ game. plan_seen game.plan ≡ bench_plan number) }
    ensures game { IfOk result (λ game. IsGame game.checked (plan_seen game.plan)) }
{
    let checked = trick_game(alloc)?;
    let plan = bench_plan(alloc, number)?;
    Ok(Game { checked, plan })
}

/// The trick game, which its text stands for. Memory may run out.
fn trick_game(alloc: Global) -> Result<Checked, Memory>
    ensures trick { IfOk result (λ checked. IsTrickGame checked) }
    ensures one { IfOk result (λ checked. (other : Sheet) → IsTrickGame other → other ≡ checked) }
    ensures players { IfOk result (λ checked. checked.players ≡ 4) }
{
    the_trick_game_is_accepted();
    let arena = Bump::new(alloc);
    match read_forms(&arena, trick_text(), 1) {
        Ok(forms) => game_of(alloc, &forms),
        Err(FormFail::Fault(_)) => unreachable!(),
        Err(FormFail::Memory) => Err(Memory),
    }
}

/// The trick game, where these are the forms of its text.
fn game_of(alloc: Global, forms: &Forms) -> Result<Checked, Memory>
    requires read { Spelled trick_text 1 (trees_of forms.now.list.items) forms.now.rest }
    requires printable { All (λ form. IsPrintable (tree_of form)) forms.now.list.items }
    requires of_atoms { All (λ form. IsOfAtoms (tree_of form)) forms.now.list.items }
    requires placed { All (λ form. IsPlaced (length trick_text) (tree_of form)) forms.now.list.items }
    ensures trick { IfOk result (λ checked. IsTrickGame checked) }
    ensures one { IfOk result (λ checked. (other : Sheet) → IsTrickGame other → other ≡ checked) }
    ensures players { IfOk result (λ checked. checked.players ≡ 4) }
{
    the_trick_game_is_accepted();
    let Some(form) = forms.list.first() else {
        unreachable!();
    };
    match accept(alloc, form) {
        Ok(checked) => Ok(checked),
        Err(SourceFail::Fault { .. }) => unreachable!(),
        Err(SourceFail::Memory) => Err(Memory),
    }
}

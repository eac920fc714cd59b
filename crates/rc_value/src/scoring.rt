//! What is asked of a whole match: whether a stage ends, and the scores.
ghost use Rattle.std.specs.Prelude.{◌≡◌, ◌+◌, ◌≤◌, [], length};
ghost use Rattle.rc_sheet_spec.specs.WellFormed.{Around, IsTest};
ghost use Rattle.rc_play_spec.specs.Value.{int_value, test_value};
ghost use Rattle.rc_play_spec.specs.About.{scene_at};
ghost use Rattle.rc_play_spec.specs.Scores.{scores_of};
ghost use Rattle.rc_ast.specs.Expressions.{int_seen, test_seen};
ghost use Rattle.rc_rules.specs.Control.{frames_seen, control_seen};
ghost use Rattle.rc_value.specs.Current.{IsCurrent};
ghost use Rattle.rc_value.specs.Depth.{int_depth};
ghost use Rattle.rc_value.specs.Scene.{scene_seen};

use crate::{
    Bind, Bindings, Current, Scene, each_has, expressions_bind_few, int_of, number_at_hand, test_of,
};
use rc_ast::{IntExpr, Test};
use rc_code::{CompiledTest, FlatTest};
use rc_rules::{About, Control, Scores};
use rc_table::Table;

/// Whether the compiled end test of a stage holds. A test of how many cards each player has takes no variable.
#[inline(always)]
pub fn code_has_ended(
    about: &About,
    current: Current,
    table: &Table,
    control: &Control,
    end: &CompiledTest,
) -> bool
    requires laid { table.now.shape ≡ about.now.shape }
    requires current { IsCurrent about.now.sheet (frames_seen control.now.frames.items) current }
    requires well { (around : Around) × (around.binders ≡ 0) × IsTest about.now.sheet around end.now }
    ensures { result ≡ test_value (scene_at about.now table.now.table
        (frames_seen control.now.frames.items)) [] end.now }
{
    let scene = Scene::with_current(
        about.sheet(),
        about.lookup(),
        table,
        control.frames.as_slice(),
        current,
    );
    match end.flat() {
        Some(FlatTest::EachHas { name, count, .. }) => each_has(&scene, *name, *count),
        _ => has_ended(about, current, table, control, end.test()),
    }
}

/// Whether the end test of a stage holds.
#[inline(never)]
pub fn has_ended(
    about: &About,
    current: Current,
    table: &Table,
    control: &Control,
    end: &Test,
) -> bool
    requires laid { table.now.shape ≡ about.now.shape }
    requires current { IsCurrent about.now.sheet (frames_seen control.now.frames.items) current }
    requires well { (around : Around) × (around.binders ≡ 0) × IsTest about.now.sheet around (test_seen end.now) }
    ensures { result ≡ test_value (scene_at about.now table.now.table (frames_seen control.now.frames.items)) []
        (test_seen end.now) }
{
    expressions_bind_few();
    let scene = Scene::with_current(
        about.sheet(),
        about.lookup(),
        table,
        control.frames.as_slice(),
        current,
    );
    test_of(&scene, &Bindings::empty(), end)
}

/// Each player's score.
pub fn scores_now(about: &About, table: &Table, control: &Control) -> Scores
    requires laid { table.now.shape ≡ about.now.shape }
    ensures { result.items ≡ scores_of about.now table.now.table (control_seen control.now) }
{
    expressions_bind_few();
    let sheet = about.sheet();
    let scene = Scene::new(sheet, about.lookup(), table, control.frames.as_slice());
    let empty = Bindings::empty();
    let mut scope = empty.with(Bind::Player(0));
    let mut scores = Scores::new();
    for player in 0..sheet.players {
        scope.rebind(Bind::Player(player));
        scores.push(score_in(&scene, &scope, &sheet.score));
    }
    scores
}

// The score of the player that the scope's one variable stands for.
#[inline(always)]
fn score_in(scene: &Scene, scope: &Bindings, score: &IntExpr) -> i64
    requires fits { length scope.now + int_depth (int_seen score.now) ≤ 5 }
    ensures { result ≡ int_value (scene_seen scene.now) scope.now (int_seen score.now) }
{
    match number_at_hand(scene, scope, score) {
        Some(number) => number,
        None => int_of(scene, scope, score),
    }
}

//! What effects are done under.
ghost use Rattle.std.specs.Prelude.{◌≡◌};
ghost use Rattle.rc_ast.specs.Sheet.{sheet_seen};
ghost use Rattle.rc_rules.specs.Control.{frames_seen};
ghost use Rattle.rc_value.specs.Current.{IsCurrent};
ghost use Rattle.rc_value.specs.Scene.{scene_seen};
ghost use Rattle.rc_value.specs.Context.{scene_in};

use crate::{Bindings, Current, Scene};
use rc_rules::{About, Frames};
use rc_table::Table;

/// By what effects are done: what the match is played by, what variables stand for, and who is current. No effect
/// changes any of them.
#[derive(Drop)]
pub struct Context<'c> {
    pub about: &'c About,
    pub scope: &'c Bindings<'c>,
    pub current: Current,
}

/// What expressions are read in now.
#[inline(always)]
pub fn scene_now<'c>(context: &Context<'c>, table: &'c Table, frames: &'c Frames) -> Scene<'c>
    requires shape { table.now.shape ≡ context.now.about.now.shape }
    requires current { IsCurrent context.now.about.now.sheet (frames_seen frames.now.items) context.now.current }
    ensures { scene_seen result ≡ scene_in context.now table.now frames.now.items }
{
    Scene::with_current(
        context.about.sheet(),
        context.about.lookup(),
        table,
        frames.as_slice(),
        context.current,
    )
}

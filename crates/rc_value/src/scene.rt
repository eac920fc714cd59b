//! What expressions are read in.
ghost use Rattle.rc_ast.specs.Sheet.{sheet_seen};
ghost use Rattle.rc_rules.specs.Control.{frames_seen};
ghost use Rattle.rc_value.specs.Current.{IsCurrent};
ghost use Rattle.rc_rules.specs.Lookup.{IsLookup};
ghost use Rattle.rc_value.specs.Readable.{IsReadable};

use crate::binding::expressions_bind_few;
use crate::current::{Current, current_of};
use rc_ast::Sheet;
use rc_rules::{Frame, Lookup};
use rc_table::Table;

/// What expressions are read in: a well formed sheet, a table, the open stages, and who is current in them.
#[derive(Drop)]
pub struct Scene<'s> {
    pub sheet: &'s Sheet,
    pub lookup: &'s Lookup,
    pub(crate) table: &'s Table,
    pub(crate) frames: &'s [Frame],
    pub(crate) current: Current,
    ghost readable: { IsReadable (sheet_seen sheet.now) },
    ghost looked_up: { IsLookup (sheet_seen sheet.now) table.now.shape lookup.now },
    ghost current_is: { IsCurrent (sheet_seen sheet.now) (frames_seen frames.now) current },
}

impl<'s> Scene<'s> {
    ghost use Rattle.std.specs.Prelude.{◌≡◌};
    ghost use Rattle.rc_sheet_spec.specs.WellFormed.{IsWellFormed};
    ghost use Rattle.rc_play_spec.specs.Scene.{scene_of};
    ghost use Rattle.rc_value.specs.Scene.{scene_seen};

    /// The scene of a table with these open stages.
    pub fn new(
        sheet: &'s Sheet,
        lookup: &'s Lookup,
        table: &'s Table,
        frames: &'s [Frame],
    ) -> Scene<'s>
        requires well { IsWellFormed (sheet_seen sheet.now) }
        requires looked_up { IsLookup (sheet_seen sheet.now) table.now.shape lookup.now }
        ensures { scene_seen result ≡ scene_of (sheet_seen sheet.now) table.now.shape table.now.table
            (frames_seen frames.now) }
    {
        let current = current_of(sheet, lookup, frames);
        Scene::with_current(sheet, lookup, table, frames, current)
    }

    /// The same where it is known who is current.
    #[tactic(auto, unfolding(crate::specs::Scene::scene_seen))]
    pub fn with_current(
        sheet: &'s Sheet,
        lookup: &'s Lookup,
        table: &'s Table,
        frames: &'s [Frame],
        current: Current,
    ) -> Scene<'s>
        requires well { IsWellFormed (sheet_seen sheet.now) }
        requires looked_up { IsLookup (sheet_seen sheet.now) table.now.shape lookup.now }
        requires current_is { IsCurrent (sheet_seen sheet.now) (frames_seen frames.now) current }
        ensures { scene_seen result ≡ scene_of (sheet_seen sheet.now) table.now.shape table.now.table
            (frames_seen frames.now) }
    {
        expressions_bind_few();
        Scene {
            sheet,
            lookup,
            table,
            frames,
            current,
        }
    }
}

//! What items bind.
ghost use Rattle.std.specs.Prelude.{◌≡◌, ◌<◌, [], length, map};
ghost use Rattle.rc_play_spec.specs.About.{scene_at};
ghost use Rattle.rc_play_spec.specs.ItemBounds.{bound_of};
ghost use Rattle.rc_play_spec.specs.Menu.{alt_in, bindings_of};
ghost use Rattle.rc_ast.specs.Items.{alts_seen};
ghost use Rattle.rc_rules.specs.Bounds.{bounds_seen};
ghost use Rattle.rc_rules.specs.Control.{frames_seen};
ghost use Rattle.rc_rules.specs.Machine.{StopsAtDecision, bounds_here, menu_here};
ghost use Rattle.rc_value.specs.Bindings.{AreAltsOutside};
ghost use Rattle.rc_value.specs.Current.{IsCurrent};
ghost use Rattle.rc_plain.specs.State.{IsReady, config_at};

use crate::state::PlainState;
use rc_ast::Alt;
use rc_menu::item_bounds;
use rc_rules::{About, Bounds, Frames, Item};
use rc_table::Table;
use rc_value::Current;

impl PlainState {
    /// What an item of the menu of the decision that is next binds.
    pub fn bounds(&self, about: &About, item: u16) -> Bounds
        requires ready { IsReady about.now self.now }
        requires decision { StopsAtDecision about.now (config_at about.now self.now) }
        requires offered { item < length (menu_here about.now (config_at about.now self.now)) }
        ensures { bounds_seen result ≡ bounds_here about.now item (config_at about.now self.now) }
    {
        // what an about keeps
        let _sheet = about.sheet();
        let alts = self.path.alts(about);
        let item = &self.menu.as_slice()[item as usize];
        bounds_in(
            about,
            self.current,
            alts,
            item,
            self.board.table(),
            &self.control.frames,
        )
    }
}

// What an item of these alternatives binds. Where there is no such alternative it binds nothing.
fn bounds_in(
    about: &About,
    current: Current,
    alts: &[Alt],
    item: &Item,
    table: &Table,
    frames: &Frames,
) -> Bounds
    requires shape { table.now.shape ≡ about.now.shape }
    requires current { IsCurrent about.now.sheet (frames_seen frames.now.items) current }
    requires well { AreAltsOutside about.now.sheet (alts_seen alts.now) }
    ensures { bounds_seen result ≡ map (bound_of about.now.shape)
        (bindings_of (scene_at about.now table.now.table (frames_seen frames.now.items)) []
        (alt_in (alts_seen alts.now) item.now.alt) item.now.spots.items) }
{
    match alts.get(item.alt) {
        Some(alt) => item_bounds(about, current, alt, item.spots.as_slice(), table, frames),
        None => Bounds::new(),
    }
}

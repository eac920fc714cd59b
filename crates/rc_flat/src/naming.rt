//! What items bind.
ghost use Rattle.std.specs.Prelude.{◌≡◌, ◌<◌, [], length, map};
ghost use Rattle.rc_play_spec.specs.About.{scene_at};
ghost use Rattle.rc_play_spec.specs.ItemBounds.{bound_of};
ghost use Rattle.rc_play_spec.specs.Menu.{alt_in, bindings_of};
ghost use Rattle.rc_code.specs.Seen.{list_seen};
ghost use Rattle.rc_code.specs.Implements.{Implements};
ghost use Rattle.rc_rules.specs.Bounds.{bounds_seen};
ghost use Rattle.rc_rules.specs.Control.{frames_seen};
ghost use Rattle.rc_rules.specs.Machine.{StopsAtDecision, bounds_here, menu_here};
ghost use Rattle.rc_flat.specs.State.{IsReady, config_at};
ghost use Rattle.rc_value.specs.Bindings.{AreAltsOutside};
ghost use Rattle.rc_value.specs.Current.{IsCurrent};

use crate::decisions::item_at;
use crate::{State, choice_there};
use rc_code::{Instruction, Offer};
use rc_menu::item_bounds;
use rc_rules::{About, Bounds, Frames, Item};
use rc_table::Table;
use rc_value::Current;

/// What an item of the menu of the decision that is next binds.
pub(crate) fn bounds_of(state: &State, about: &About, code: &[Instruction], item: u16) -> Bounds
    requires implements { Implements about.now.sheet (list_seen code.now) }
    requires ready { IsReady about.now (list_seen code.now) state.now }
    requires decision { StopsAtDecision about.now (config_at about.now (list_seen code.now) state.now) }
    requires offered { item < length (menu_here about.now (config_at about.now (list_seen code.now) state.now)) }
    ensures { bounds_seen result ≡ bounds_here about.now item (config_at about.now (list_seen code.now) state.now) }
{
    let choice = choice_there(code, state.place.next());
    bounds_in(
        about,
        state.current,
        choice.alts,
        item_at(&state.menu, item),
        state.board.table(),
        &state.control.frames,
    )
}

// What an item of these alternatives binds. Where there is no such alternative it binds nothing.
fn bounds_in(
    about: &About,
    current: Current,
    alts: &[Offer],
    item: &Item,
    table: &Table,
    frames: &Frames,
) -> Bounds
    requires shape { table.now.shape ≡ about.now.shape }
    requires current { IsCurrent about.now.sheet (frames_seen frames.now.items) current }
    requires well { AreAltsOutside about.now.sheet alts.now }
    ensures { bounds_seen result ≡ map (bound_of about.now.shape)
        (bindings_of (scene_at about.now table.now.table (frames_seen frames.now.items)) []
        (alt_in alts.now item.now.alt) item.now.spots.items) }
{
    match alts.get(item.alt) {
        Some(offer) => item_bounds(
            about,
            current,
            offer.alt(),
            item.spots.as_slice(),
            table,
            frames,
        ),
        None => Bounds::new(),
    }
}

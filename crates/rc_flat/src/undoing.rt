//! Back to where a match stood.
ghost use Rattle.std.specs.Prelude.{◌≡◌};
ghost use Rattle.rc_code.specs.Seen.{list_seen};
ghost use Rattle.rc_code.specs.Implements.{Implements};
ghost use Rattle.rc_flat.specs.State.{IsReady, flat_of};
ghost use Rattle.rc_flat.specs.MarkedMoments.{IsInMatch};

use crate::{State, choice_there};
use rc_code::Instruction;
use rc_menu::fill_offers_at;
use rc_rules::About;

/// Finds anew who is current, and fills the menu anew where a decision is next.
pub fn refill(state: &mut State, about: &About, code: &[Instruction])
    requires implements { Implements about.now.sheet (list_seen code.now) }
    requires laid { state.old.board.laid.shape ≡ about.now.shape }
    requires on { IsInMatch (flat_of about.now (list_seen code.now) state.old) }
    ensures ready { IsReady about.now (list_seen code.now) state.new }
    ensures board { state.new.board ≡ state.old.board }
    ensures control { state.new.control ≡ state.old.control }
    ensures place { state.new.place ≡ state.old.place }
{
    state.current = state.current_now(about);
    let Some(site) = state.control.site else {
        return;
    };
    let choice = choice_there(code, state.place.next());
    fill_offers_at(
        about,
        state.current,
        state.board.table(),
        &state.control,
        site,
        choice.alts,
        &mut state.menu,
    );
}

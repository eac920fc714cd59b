//! The ids that unseen card places take.
ghost use Rattle.std.specs.Prelude.{◌≡◌, ◌≤◌, length, OnOk};
ghost use Rattle.rc_base.specs.Limits.{most_cards};
ghost use Rattle.rc_play_spec.specs.Redraw.{unused};
ghost use Rattle.rc_redraw.specs.Taken.{Marks};

use crate::seen::Taken;
use rc_deck::Memory;
use rc_table::Shape;

/// Lists the ids that are not taken, in ascending order.
pub(crate) fn list_left(shape: &Shape, taken: &Taken, ids: &mut Vec<u16>) -> Result<(), Memory>
    requires { Marks shape.now taken.now.ids.items taken.now.marks.items }
    ensures few { OnOk result (length ids.new.items ≤ most_cards) }
    ensures unused { OnOk result (ids.new.items ≡ unused shape.now taken.now.ids.items) }
{
    // what a shape keeps
    let _players = shape.players();
    ids.clear();
    ids.reserve(taken.marks.len())?;
    for id in 0..shape.cards() {
        if !taken.marks[id as usize] {
            ids.push(id)?;
        }
    }
    Ok(())
}

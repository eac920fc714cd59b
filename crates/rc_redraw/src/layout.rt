//! What a view shows, laid out.
ghost use Rattle.std.specs.Prelude.{◌≡◌, ◌≤◌, [], length, map, OnOk};
ghost use Rattle.rc_base.specs.Limits.{most_cards};
ghost use Rattle.rc_play_spec.specs.Redraw.{mems_of, seen_faces, seen_ids, unused, hidden_count, filled as filled_by};
ghost use Rattle.rc_play_spec.specs.Smallest.{AreEnough};
ghost use Rattle.rc_view.specs.Seen.{sight_seen};

use crate::filling::fill_lists;
use crate::hidden::list_left;
use crate::seen::{Taken, list_faces, take_ids};
use rc_deck::Memory;
use rc_play_spec::seen_places_take_the_smallest;
use rc_table::Shape;
use rc_view::Sight;
use std::alloc::Global;

/// What each location holds, with the unseen cards in ascending order, and these cards.
#[derive(Drop)]
pub(crate) struct Layout {
    pub(crate) lists: Vec<Vec<u16>>,
    // the faces at the known places
    faces: Vec<u16>,
    // and what these take
    pub(crate) taken: Taken,
    pub(crate) unused: Vec<u16>,
}

impl Layout {
    /// Nothing yet.
    pub(crate) fn new(alloc: Global) -> Layout {
        Layout {
            lists: Vec::new(alloc),
            faces: Vec::new(alloc),
            taken: Taken {
                ids: Vec::new(alloc),
                marks: Vec::new(alloc),
            },
            unused: Vec::new(alloc),
        }
    }
}

/// Each seen card place with the smallest id of its face that is left, and the other ids in the unseen ones.
pub(crate) fn lay_out(
    alloc: Global,
    shape: &Shape,
    sights: &[Sight],
    layout: &mut Layout,
) -> Result<(), Memory>
    requires each { length sights.now ≡ length shape.now.places }
    requires few { AreEnough shape.now (seen_faces (mems_of shape.now.places) (map sight_seen sights.now)) }
    requires rest { hidden_count (mems_of shape.now.places) (map sight_seen sights.now)
        ≡ length (unused shape.now (seen_ids shape.now []
        (seen_faces (mems_of shape.now.places) (map sight_seen sights.now)))) }
    ensures lists { OnOk result (map (λ list. list.items) layout.new.lists.items
        ≡ filled_by (mems_of shape.now.places) (map sight_seen sights.now)
        (seen_ids shape.now [] (seen_faces (mems_of shape.now.places)
        (map sight_seen sights.now))) layout.new.unused.items) }
    ensures unused { OnOk result (layout.new.unused.items
        ≡ unused shape.now (seen_ids shape.now []
        (seen_faces (mems_of shape.now.places) (map sight_seen sights.now)))) }
    ensures seen { OnOk result (layout.new.taken.ids.items
        ≡ seen_ids shape.now [] (seen_faces (mems_of shape.now.places) (map sight_seen sights.now))) }
    ensures few { OnOk result (length layout.new.unused.items ≤ most_cards) }
{
    seen_places_take_the_smallest();
    list_faces(shape, sights, &mut layout.faces)?;
    take_ids(
        shape,
        &layout.faces,
        &mut layout.taken.ids,
        &mut layout.taken.marks,
    )?;
    list_left(shape, &layout.taken, &mut layout.unused)?;
    fill_lists(
        alloc,
        shape,
        sights,
        &layout.taken.ids,
        &layout.unused,
        &mut layout.lists,
    )
}

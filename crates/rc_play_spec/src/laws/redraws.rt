//! Laws of redrawn tables. No function here does anything: a crate above gets a law by calling its function.
ghost use Rattle.rc_play_spec.specs.RedrawLaws.{RedrawsSound, RedrawsKeepViews, RedrawsKeepMenus, RedrawsTakeSmallest, SeesFew, HidesTheRest, TakesSmallest};

/// What a view of a sound table is redrawn to is sound.
pub fn redrawn_tables_are_sound()
    ensures { RedrawsSound }
{}

/// The view of the redrawn table is the view, and the menu is that of the view.
pub fn redrawn_tables_keep_the_view()
    ensures view { RedrawsKeepViews }
    ensures menu { RedrawsKeepMenus }
{}

/// Each seen card place takes the smallest id of its face that is left, and the hidden places are as many as the ids
/// that are left.
pub fn seen_places_take_the_smallest()
    ensures smallest { RedrawsTakeSmallest }
    ensures few { SeesFew }
    ensures rest { HidesTheRest }
    ensures any { TakesSmallest }
{}

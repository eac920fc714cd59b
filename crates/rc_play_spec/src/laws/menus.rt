//! Laws of menus. No function here does anything: a crate above gets a law by calling its function.
ghost use Rattle.rc_play_spec.specs.ViewLaws.{MenuOfView, EqualViewsEqualMenus, AlikeEqualMenus, ListsOffers, MenusAreShort};

/// A menu is a function of what its mover sees, so equal views have equal menus.
pub fn menus_are_functions_of_views()
    ensures of_view { MenuOfView }
    ensures same { EqualViewsEqualMenus }
{}

/// Where states are alike to the mover, the menus are equal.
pub fn alike_states_have_equal_menus()
    ensures { AlikeEqualMenus }
{}

/// A menu lists what the alternatives offer, all of it and nothing else, in order, up to 256 items.
pub fn menus_list_what_is_offered()
    ensures all { ListsOffers }
    ensures few { MenusAreShort }
{}

//! One location.
ghost use Rattle.std.specs.Prelude.{◌≡◌, map};
ghost use Rattle.rc_sheet_spec.specs.Sight.{is_in_sight};
ghost use Rattle.rc_ast.specs.Names.{loc_seen, loc_name_seen};
ghost use Rattle.rc_flow.specs.Least.{with_loc};

use rc_ast::{Loc, LocKind, LocName, Who};

// Whether the mover sees what is in the location, as its owner is written.
fn is_in_sight(names: &[LocName], loc: &Loc) -> bool
    ensures { result ≡ is_in_sight (map loc_name_seen names.now) (loc_seen loc.now) }
{
    let Some(name) = names.get(loc.name as usize) else {
        return false;
    };
    match name.kind {
        LocKind::Vloc | LocKind::Mem => true,
        LocKind::Iloc => matches!(loc.who, Who::CurrentPlayer | Who::TeamOfCurrent),
        LocKind::Hloc => false,
    }
}

/// The lesser of what was found and the location's offset, where the location is out of sight.
pub fn in_loc(names: &[LocName], loc: &Loc, found: Option<u32>) -> Option<u32>
    ensures { result ≡ with_loc (map loc_name_seen names.now) found (loc_seen loc.now) }
{
    if is_in_sight(names, loc) {
        return found;
    }
    match found {
        None => Some(loc.at),
        Some(at) => Some(at.min(loc.at)),
    }
}

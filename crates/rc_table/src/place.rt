//! One location, and how many of some hold references.
ghost use Rattle.std.specs.Prelude.{◌≡◌, ◌≤◌, length, map};
ghost use Rattle.rc_base.specs.Limits.{most_locations};
ghost use Rattle.rc_table.specs.Places.{place_seen};
ghost use Rattle.rc_table.specs.Shape.{mems_among, mems_here};

use rc_base::LocKind;

/// Whose a location is: the game's, a player's, or a team's, by their numbers.
#[derive(Clone, Copy, PartialEq, Eq, Debug)]
pub enum Owner {
    Game,
    Player(u8),
    Team(u8),
}

/// A location: whose it is, what it holds and who sees it.
#[derive(Clone, Copy, PartialEq, Eq, Debug)]
pub struct Place {
    pub owner: Owner,
    pub kind: LocKind,
}

// One more, where a location holds references.
fn mems_here(place: Place) -> u16
    ensures count { result ≡ mems_here (place_seen place) }
    ensures few { result ≤ 1 }
{
    match place.kind {
        LocKind::Mem => 1,
        _ => 0,
    }
}

/// How many of these locations hold references.
pub(crate) fn mems_among(places: &[Place]) -> u16
    requires few { length places.now ≤ most_locations }
    ensures { result ≡ mems_among (map place_seen places.now) }
{
    let mut count = 0;
    for place in places {
        count += mems_here(*place);
    }
    count
}

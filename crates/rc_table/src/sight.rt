//! Who sees the cards of a location.
ghost use Rattle.std.specs.Prelude.{◌≡◌};
ghost use Rattle.rc_play_spec.specs.Sees.{is_owner as is_owner_of, sees as sees_faces};
ghost use Rattle.rc_table.specs.Places.{class_of, number_of};

use crate::place::Owner;
use crate::shape::Shape;
use rc_base::LocKind;

// Whether a seat is the owner, or a member of the team that is.
fn is_owner(shape: &Shape, seat: u8, owner: Owner) -> bool
    ensures { result ≡ is_owner_of shape.now seat (class_of owner) (number_of owner) }
{
    match owner {
        Owner::Game => false,
        Owner::Player(player) => player == seat,
        Owner::Team(team) => team == shape.team_of(seat),
    }
}

/// Whether a seat sees the faces in a location: in a `vloc` and a `mem` everybody does, in a `hloc` nobody, and in an
/// `iloc` its owner, or each member of the team that owns it.
pub fn sees(shape: &Shape, seat: u8, loc: u16) -> bool
    ensures { result ≡ sees_faces shape.now seat loc }
{
    let Some(place) = shape.place(loc) else {
        return false;
    };
    match place.kind {
        LocKind::Vloc | LocKind::Mem => true,
        LocKind::Iloc => is_owner(shape, seat, place.owner),
        LocKind::Hloc => false,
    }
}

//! The marks of cards that are shown.
ghost use Rattle.std.specs.Prelude.{◌≡◌, ◌<◌, ◌≤◌, false, if◌then◌else◌, length, All};
ghost use Rattle.rc_play_spec.specs.Effects.{is_named as is_named_by, joined};
ghost use Rattle.rc_play_spec.specs.Sees.{sees as sees_faces};
ghost use Rattle.rc_play_spec.specs.Table.{loc_of, marks_of};
ghost use Rattle.rc_table.specs.Marks.{seats_in};
ghost use Rattle.rc_value.specs.Shown.{is_shown_to};

use rc_ast::Class;
use rc_play_spec::edits_keep_tables_sound;
use rc_table::{Shape, Table, sees};

/// A card's marks when it is shown to a player, or to the members of a team: those that it has, and of these seats
/// those that don't see the location where it stands.
pub fn joined_marks(table: &Table, id: u16, class: Class, owner: u8) -> u8
    requires card { id < length table.now.shape.faces }
    ensures marks { seats_in result ≡ joined table.now.shape (is_named_by table.now.shape class owner)
        (loc_of table.now.shape table.now.table id) (marks_of table.now.table.marks id) }
    ensures players { All (λ seat. seat < table.now.shape.players) (seats_in result) }
    ensures unseen { All (λ seat. sees_faces table.now.shape seat (loc_of table.now.shape table.now.table id) ≡ false)
        (seats_in result) }
{
    edits_keep_tables_sound();
    // what is known of a sound table
    let _shape = table.shape();
    let (loc, _place) = table.place_of(id);
    joined_bits(table, id, loc, class, owner)
}

// The same, of a card in this location.
fn joined_bits(table: &Table, id: u16, loc: u16, class: Class, owner: u8) -> u8
    requires card { id < length table.now.shape.faces }
    ensures { seats_in result ≡ joined table.now.shape (is_named_by table.now.shape class owner) loc
        (marks_of table.now.table.marks id) }
{
    // what a shape keeps
    let _players = table.shape().players();
    let first = bit(table, id, loc, class, owner, 0);
    let second = bit(table, id, loc, class, owner, 1);
    let third = bit(table, id, loc, class, owner, 2);
    let fourth = bit(table, id, loc, class, owner, 3);
    let fifth = bit(table, id, loc, class, owner, 4);
    let sixth = bit(table, id, loc, class, owner, 5);
    let seventh = bit(table, id, loc, class, owner, 6);
    let eighth = bit(table, id, loc, class, owner, 7);
    first
        + 2 * second
        + 4 * third
        + 8 * fourth
        + 16 * fifth
        + 32 * sixth
        + 64 * seventh
        + 128 * eighth
}

// 1 where the card is to be marked for a seat.
fn bit(table: &Table, id: u16, loc: u16, class: Class, owner: u8, seat: u8) -> u8
    requires card { id < length table.now.shape.faces }
    requires seat { seat < 8 }
    ensures bit { result
        ≡ (if is_shown_to table.now.shape table.now.table.marks id loc class owner seat then 1 else 0) }
    ensures few { result ≤ 1 }
{
    if is_shown(table, id, loc, class, owner, seat) {
        1
    } else {
        0
    }
}

fn is_shown(table: &Table, id: u16, loc: u16, class: Class, owner: u8, seat: u8) -> bool
    requires card { id < length table.now.shape.faces }
    requires seat { seat < 8 }
    ensures { result ≡ is_shown_to table.now.shape table.now.table.marks id loc class owner seat }
{
    seat < table.shape().players()
        && (table.is_marked(id, seat)
            || is_named(table.shape(), class, owner, seat) && !sees(table.shape(), seat, loc))
}

// Whether a seat is the player that is meant, or a member of the team.
fn is_named(shape: &Shape, class: Class, owner: u8, seat: u8) -> bool
    ensures { result ≡ is_named_by shape.now class owner seat }
{
    match class {
        Class::Game => false,
        Class::Player => owner == seat,
        Class::Team => owner == shape.team_of(seat),
    }
}

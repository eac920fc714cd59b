//! The members of a domain, by their positions.
ghost use Rattle.std.specs.Prelude.{◌≡◌, [], map, slice_index_or, IfSome};
ghost use Rattle.rc_base.specs.Numbers.{below};
ghost use Rattle.rc_play_spec.specs.Value.{Bind as PureBind, members, player_bound, card_bound, group_bound, coll_value, groups_by};
ghost use Rattle.rc_play_spec.specs.Scene.{CardValue};
ghost use Rattle.rc_play_spec.specs.Bound.{IsBindOf};
ghost use Rattle.rc_ast.specs.Expressions.{coll_seen, domain_seen};
ghost use Rattle.rc_value.specs.Cards.{values_seen};
ghost use Rattle.rc_value.specs.Seen.{bind_seen};
ghost use Rattle.rc_value.specs.Bindings.{member_seen};
ghost use Rattle.rc_value.specs.Context.{scene_in, IsContextOf, in_scope};
ghost use Rattle.rc_value.specs.Under.{IsCollUnder, IsDomainUnder};

use crate::context::{Context, scene_now};
use crate::reading::cards_now;
use crate::{Bind, Card, Cards, Collection, Values, bare, note_values, regroup, value_at};
use rc_ast::{CollExpr, Domain};
use rc_rules::Frames;
use rc_table::Table;

/// A member of a domain. The cards of a group stand in a list beside it.
#[derive(Clone, Copy)]
pub enum Member {
    Player(u8),
    Card(Card),
    Group,
}

/// What a variable stands for that is bound to a member.
pub fn bind_of<'m>(member: Member, group: &'m Cards) -> Bind<'m>
    ensures { bind_seen result ≡ member_seen member (values_seen group.now.items) }
{
    match member {
        Member::Player(player) => Bind::Player(player),
        Member::Card(card) => Bind::Card(card),
        Member::Group => Bind::Group(group),
    }
}

/// The member of a domain at a position, or player 0 where there is none. Where it is a group, its cards go into the
/// empty list.
pub fn member_at(
    context: &Context,
    domain: &Domain,
    spot: u16,
    table: &Table,
    frames: &Frames,
    room: &mut Cards,
) -> Member
    requires stands { IsContextOf context.now table.now frames.now.items }
    requires well { in_scope context.now IsDomainUnder (domain_seen domain.now) }
    requires empty { room.old.items ≡ [] }
    ensures member { member_seen result (values_seen room.new.items)
        ≡ slice_index_or (members (scene_in context.now table.now frames.now.items) context.now.scope.now
        (domain_seen domain.now)) spot (player_bound 0) }
    ensures there { IsBindOf context.now.about.now.shape (member_seen result (values_seen room.new.items)) }
{
    // what an about and a table keep
    let _fits = context.about.sheet();
    let _sound = table.shape();
    match domain {
        Domain::Players => Member::Player(player_at(context, spot)),
        Domain::Coll(cards) => card_at(context, cards, spot, table, frames, room),
        Domain::Parts(cards, attr) => group_at(context, cards, *attr, spot, table, frames, room),
    }
}

// The player with this number, or player 0 where there is none.
fn player_at(context: &Context, spot: u16) -> u8
    ensures { let bound : PureBind CardValue = player_bound result in bound
        ≡ slice_index_or (map (λ n. player_bound n) (below context.now.about.now.sheet.players)) spot (player_bound 0) }
{
    if spot < u16::from(context.about.sheet().players) {
        spot as u8
    } else {
        0
    }
}

fn card_at(
    context: &Context,
    cards: &CollExpr,
    spot: u16,
    table: &Table,
    frames: &Frames,
    room: &mut Cards,
) -> Member
    requires stands { IsContextOf context.now table.now frames.now.items }
    requires well { in_scope context.now IsCollUnder (coll_seen cards.now) }
    requires empty { room.old.items ≡ [] }
    ensures { member_seen result (values_seen room.new.items) ≡ slice_index_or
        (map (λ c. card_bound c) (coll_value (scene_in context.now table.now frames.now.items) context.now.scope.now
        (coll_seen cards.now))) spot (player_bound 0) }
{
    cards_now(context, cards, table, frames, room);
    match (&*room).as_slice().get(spot as usize) {
        Some(card) => Member::Card(*card),
        None => Member::Player(0),
    }
}

fn group_at(
    context: &Context,
    cards: &CollExpr,
    attr: u16,
    spot: u16,
    table: &Table,
    frames: &Frames,
    group: &mut Cards,
) -> Member
    requires stands { IsContextOf context.now table.now frames.now.items }
    requires well { in_scope context.now IsCollUnder (coll_seen cards.now) }
    ensures { member_seen result (values_seen group.new.items) ≡ slice_index_or
        (map (λ g. group_bound g) (groups_by (scene_in context.now table.now frames.now.items) attr
        (coll_value (scene_in context.now table.now frames.now.items) context.now.scope.now
        (coll_seen cards.now)))) spot (player_bound 0) }
{
    let mut room = Cards::new();
    cards_now(context, cards, table, frames, &mut room);
    let scene = scene_now(context, table, frames);
    let all = Collection::of_cards(room.as_slice());
    let mut values = Values::new();
    note_values(&scene, &all, attr, &mut values);
    if (spot as usize) < values.len() {
        let value = value_at(&values, spot as usize);
        regroup(&scene, &all, attr, value, group);
        Member::Group
    } else {
        Member::Player(0)
    }
}

/// What a variable stands for that is bound to the member of a domain at a position, or to player 0 where there is
/// none. None where the members stand nowhere as they are: cards that pass a test or come from several places, and
/// groups.
#[inline(always)]
pub fn bare_bind_at<'m>(
    context: &Context,
    domain: &Domain,
    spot: u16,
    table: &Table,
    frames: &Frames,
) -> Option<Bind<'m>>
    requires stands { IsContextOf context.now table.now frames.now.items }
    requires well { in_scope context.now IsDomainUnder (domain_seen domain.now) }
    ensures member { IfSome result (λ bind. bind_seen bind
        ≡ slice_index_or (members (scene_in context.now table.now frames.now.items) context.now.scope.now
        (domain_seen domain.now)) spot (player_bound 0)) }
    ensures there { IfSome result (λ bind. IsBindOf context.now.about.now.shape (bind_seen bind)) }
{
    // what an about and a table keep
    let _fits = context.about.sheet();
    let _sound = table.shape();
    bound_at(context, domain, spot, table, frames)
}

#[inline(always)]
fn bound_at<'m>(
    context: &Context,
    domain: &Domain,
    spot: u16,
    table: &Table,
    frames: &Frames,
) -> Option<Bind<'m>>
    requires stands { IsContextOf context.now table.now frames.now.items }
    ensures { IfSome result (λ bind. bind_seen bind
        ≡ slice_index_or (members (scene_in context.now table.now frames.now.items) context.now.scope.now
        (domain_seen domain.now)) spot (player_bound 0)) }
{
    match domain {
        Domain::Players => Some(Bind::Player(player_at(context, spot))),
        Domain::Coll(cards) => bare_card_at(context, cards, spot, table, frames),
        Domain::Parts(_, _) => None,
    }
}

#[inline(always)]
fn bare_card_at<'m>(
    context: &Context,
    cards: &CollExpr,
    spot: u16,
    table: &Table,
    frames: &Frames,
) -> Option<Bind<'m>>
    requires stands { IsContextOf context.now table.now frames.now.items }
    ensures { IfSome result (λ bind. bind_seen bind ≡ slice_index_or
        (map (λ c. card_bound c) (coll_value (scene_in context.now table.now frames.now.items) context.now.scope.now
        (coll_seen cards.now))) spot (player_bound 0)) }
{
    let scene = scene_now(context, table, frames);
    match bare(&scene, context.scope, cards) {
        Some(all) => Some(card_in(&all, spot)),
        None => None,
    }
}

#[inline(always)]
fn card_in<'m>(cards: &Collection, spot: u16) -> Bind<'m>
    ensures { bind_seen result ≡ slice_index_or (map (λ c. card_bound c) cards.now) spot (player_bound 0) }
{
    if (spot as usize) < cards.len() {
        Bind::Card(cards.at(spot as usize))
    } else {
        Bind::Player(0)
    }
}

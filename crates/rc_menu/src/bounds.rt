//! What items bind, as people are told it.
ghost use Rattle.std.specs.Prelude.{◌≡◌, ◌+◌, ◌<◌, ◌≤◌, [], ◌∷◌, ◌++◌, length, map};
ghost use Rattle.rc_sheet_spec.specs.Sheet.{any_alt};
ghost use Rattle.rc_play_spec.specs.Value.{Bind as PureBind};
ghost use Rattle.rc_play_spec.specs.Scene.{CardValue, id_of};
ghost use Rattle.rc_play_spec.specs.About.{scene_at};
ghost use Rattle.rc_play_spec.specs.Bound.{IsBindOf};
ghost use Rattle.rc_play_spec.specs.ItemBounds.{bound_of};
ghost use Rattle.rc_play_spec.specs.Menu.{bindings_of};
ghost use Rattle.rc_play_spec.specs.Shape.{face_number as face_number_of};
ghost use Rattle.rc_ast.specs.Expressions.{domain_seen};
ghost use Rattle.rc_ast.specs.Items.{alt_seen};
ghost use Rattle.rc_rules.specs.Bounds.{bound_seen, bounds_seen};
ghost use Rattle.rc_rules.specs.Control.{frames_seen};
ghost use Rattle.rc_value.specs.Binding.{domains_in};
ghost use Rattle.rc_value.specs.Cards.{value_seen};
ghost use Rattle.rc_value.specs.Current.{IsCurrent};
ghost use Rattle.rc_value.specs.Seen.{bind_seen};
ghost use Rattle.rc_menu.specs.Bounds.{IsAltOutside};
ghost use Rattle.rc_value.specs.Context.{scene_in, IsContextOf};
ghost use Rattle.rc_value.specs.Under.{IsAltUnder, IsDomainUnder};

use rc_ast::{Alt, Domain};
use rc_rules::{About, Bound, Bounds, Frames};
use rc_table::{Shape, Table, face_number};
use rc_value::{
    Bind, Bindings, Card, Cards, Context, Current, bare_bind_at, bind_of, expressions_bind_few,
    member_at,
};

/// What these positions bind in an alternative, where it is known who is current. It costs little where no variable is
/// bound, or only players and cards that stand somewhere as they are.
pub fn item_bounds(
    about: &About,
    current: Current,
    alt: &Alt,
    spots: &[u16],
    table: &Table,
    frames: &Frames,
) -> Bounds
    requires shape { table.now.shape ≡ about.now.shape }
    requires current { IsCurrent about.now.sheet (frames_seen frames.now.items) current }
    requires well { IsAltOutside about.now.sheet (alt_seen alt.now) }
    ensures { bounds_seen result ≡ map (bound_of about.now.shape)
        (bindings_of (scene_at about.now table.now.table (frames_seen frames.now.items)) []
        (alt_seen alt.now) spots.now) }
{
    let mut bounds = Bounds::new();
    match alt {
        Alt::Do(_) => {}
        Alt::If(_, _) => {}
        Alt::Any(domain, _, inner) => {
            expressions_bind_few();
            let scope = Bindings::empty();
            let context = Context {
                about,
                scope: &scope,
                current,
            };
            note_any(&context, inner, domain, spots, table, frames, &mut bounds);
        }
    }
    bounds
}

// Notes what these positions bind in an alternative inside a domain, behind what is bound outside it.
#[cycle(binding)]
fn note_any(
    context: &Context,
    inner: &Alt,
    domain: &Domain,
    spots: &[u16],
    table: &Table,
    frames: &Frames,
    bounds: &mut Bounds,
)
    requires stands { IsContextOf context.now table.now frames.now.items }
    requires domain { IsDomainUnder context.now.about.now.sheet context.now.scope.now (domain_seen domain.now) }
    requires well { (member : PureBind CardValue)
        → IsAltUnder context.now.about.now.sheet (context.now.scope.now ++ member ∷ []) (alt_seen inner.now) }
    requires room { length context.now.scope.now + (1 + domains_in (alt_seen inner.now)) ≤ 4 }
    requires outside { bounds_seen bounds.old ≡ map (bound_of context.now.about.now.shape) context.now.scope.now }
    ensures { bounds_seen bounds.new ≡ map (bound_of context.now.about.now.shape)
        (bindings_of (scene_in context.now table.now frames.now.items) context.now.scope.now
        (any_alt (domain_seen domain.now) 0 (alt_seen inner.now)) spots.now) }
{
    match spots.split_first() {
        None => {}
        Some((spot, rest)) => match bare_bind_at(context, domain, *spot, table, frames) {
            Some(bind) => note_bound(context, inner, bind, rest, table, frames, bounds),
            None => note_member(context, inner, domain, *spot, rest, table, frames, bounds),
        },
    }
}

// The same where the member has to be found among cards or groups that are listed for it.
#[cycle(binding)]
#[inline(never)]
fn note_member(
    context: &Context,
    inner: &Alt,
    domain: &Domain,
    spot: u16,
    rest: &[u16],
    table: &Table,
    frames: &Frames,
    bounds: &mut Bounds,
)
    requires stands { IsContextOf context.now table.now frames.now.items }
    requires domain { IsDomainUnder context.now.about.now.sheet context.now.scope.now (domain_seen domain.now) }
    requires well { (member : PureBind CardValue)
        → IsAltUnder context.now.about.now.sheet (context.now.scope.now ++ member ∷ []) (alt_seen inner.now) }
    requires room { length context.now.scope.now + (1 + domains_in (alt_seen inner.now)) ≤ 4 }
    requires outside { bounds_seen bounds.old ≡ map (bound_of context.now.about.now.shape) context.now.scope.now }
    ensures { bounds_seen bounds.new ≡ map (bound_of context.now.about.now.shape)
        (bindings_of (scene_in context.now table.now frames.now.items) context.now.scope.now
        (any_alt (domain_seen domain.now) 0 (alt_seen inner.now)) (spot ∷ rest.now)) }
{
    let mut room = Cards::new();
    let member = member_at(context, domain, spot, table, frames, &mut room);
    let bind = bind_of(member, &room);
    note_bound(context, inner, bind, rest, table, frames, bounds)
}

// Notes what a variable stands for, and behind it what these positions bind in the alternative inside it.
#[cycle(binding)]
fn note_bound(
    context: &Context,
    inner: &Alt,
    bind: Bind,
    spots: &[u16],
    table: &Table,
    frames: &Frames,
    bounds: &mut Bounds,
)
    requires stands { IsContextOf context.now table.now frames.now.items }
    requires bind { IsBindOf context.now.about.now.shape (bind_seen bind) }
    requires well { IsAltUnder context.now.about.now.sheet (context.now.scope.now ++ bind_seen bind ∷ [])
        (alt_seen inner.now) }
    requires room { length context.now.scope.now + (1 + domains_in (alt_seen inner.now)) ≤ 4 }
    requires outside { bounds_seen bounds.old ≡ map (bound_of context.now.about.now.shape) context.now.scope.now }
    ensures { bounds_seen bounds.new ≡ map (bound_of context.now.about.now.shape)
        (bindings_of (scene_in context.now table.now frames.now.items)
        (context.now.scope.now ++ bind_seen bind.entry ∷ []) (alt_seen inner.now) spots.now) }
{
    bounds.push(bound_by(context.about.shape(), bind));
    match inner {
        Alt::Do(_) => {}
        Alt::If(_, _) => {}
        Alt::Any(domain, _, within) => {
            let scope = context.scope.with(bind);
            let inside = Context {
                about: context.about,
                scope: &scope,
                current: context.current,
            };
            note_any(&inside, within, domain, spots, table, frames, bounds)
        }
    }
}

// How people are told what a variable stands for.
fn bound_by(shape: &Shape, bind: Bind) -> Bound
    requires { IsBindOf shape.now (bind_seen bind) }
    ensures { bound_seen result ≡ bound_of shape.now (bind_seen bind.entry) }
{
    match bind {
        Bind::Player(player) => Bound::Player(player),
        Bind::Card(card) => Bound::Card(face_of(shape, card)),
        Bind::Group(cards) => match cards.first() {
            Some(card) => Bound::Group(face_of(shape, *card)),
            None => Bound::Group(0),
        },
    }
}

// The number of a card's face.
fn face_of(shape: &Shape, card: Card) -> u16
    requires { id_of (value_seen card) < length shape.now.faces }
    ensures { result ≡ face_number_of shape.now (id_of (value_seen card)) }
{
    match card {
        Card::Held(id) => face_number(shape, id),
        Card::Noted { id, .. } => face_number(shape, id),
    }
}

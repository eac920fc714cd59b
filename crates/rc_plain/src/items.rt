//! The effects of an item that was chosen.
ghost use Rattle.std.specs.Prelude.{◌≡◌, ◌<◌, [], ◌∷◌, ◌++◌, false, length};
ghost use Rattle.rc_sheet_spec.specs.Sheet.{any_alt};
ghost use Rattle.rc_play_spec.specs.Value.{Bind as PureBind};
ghost use Rattle.rc_play_spec.specs.Scene.{CardValue};
ghost use Rattle.rc_play_spec.specs.Bound.{IsBindOf};
ghost use Rattle.rc_play_spec.specs.About.{scene_at};
ghost use Rattle.rc_play_spec.specs.Menu.{alt_in, bindings_of, effects_of};
ghost use Rattle.rc_play_spec.specs.Effects.{does};
ghost use Rattle.rc_ast.specs.Expressions.{domain_seen};
ghost use Rattle.rc_ast.specs.Items.{alt_seen, alts_seen};
ghost use Rattle.rc_rules.specs.Control.{frames_seen};
ghost use Rattle.rc_value.specs.Current.{IsCurrent};
ghost use Rattle.rc_value.specs.Seen.{bind_seen};
ghost use Rattle.rc_value.specs.Point.{point_of};
ghost use Rattle.rc_value.specs.Under.{IsAltUnder, IsDomainUnder};
ghost use Rattle.rc_value.specs.Bindings.{AreAltsOutside};
ghost use Rattle.rc_value.specs.Context.{scene_in, IsContextOf, in_scope};

use crate::effects::do_all;
use rc_ast::{Alt, Domain};
use rc_rules::{About, Dealer, Frames, Item};
use rc_undo::Board;
use rc_value::{Bind, Bindings, Cards, Context, Current, bare_bind_at, bind_of, member_at};

/// Does the effects of an item of a menu, with its variables bound. The board notes nothing, so it takes no memory.
///
/// An alternative that isn't there has no effects, and a position that isn't there stands for player 0.
pub fn do_item<D: Dealer>(
    about: &About,
    current: Current,
    alts: &[Alt],
    item: &Item,
    board: &mut Board,
    frames: &mut Frames,
    dealer: &mut D,
)
    requires shape { board.old.laid.shape ≡ about.now.shape }
    requires quiet { board.old.notes ≡ false }
    requires current { IsCurrent about.now.sheet (frames_seen frames.old.items) current }
    requires well { AreAltsOutside about.now.sheet (alts_seen alts.now) }
    ensures does { let alt = alt_in (alts_seen alts.now) item.now.alt in
        does about.now (D.dealing dealer.old)
        (bindings_of (scene_at about.now board.old.laid.table (frames_seen frames.old.items)) []
        alt item.now.spots.items)
        (effects_of alt)
        (point_of board.old.laid frames.old.items (D.state dealer.old))
        ≡ point_of board.new.laid frames.new.items (D.state dealer.new) }
    ensures shape { board.new.laid.shape ≡ about.now.shape }
    ensures current { IsCurrent about.now.sheet (frames_seen frames.new.items) current }
    ensures quiet { board.new.notes ≡ false }
    ensures dealing { D.dealing dealer.new ≡ D.dealing dealer.old }
{
    let Some(alt) = alts.get(item.alt as usize) else {
        return;
    };
    let scope = Bindings::empty();
    let context = Context {
        about,
        scope: &scope,
        current,
    };
    do_alt(&context, alt, item.spots.as_slice(), board, frames, dealer);
}

// Does the effects of an alternative whose variables these positions bind. Where none is left, nothing more is bound.
#[cycle(alternatives)]
fn do_alt<D: Dealer>(
    context: &Context,
    alt: &Alt,
    spots: &[u16],
    board: &mut Board,
    frames: &mut Frames,
    dealer: &mut D,
)
    requires stands { IsContextOf context.now board.old.laid frames.old.items }
    requires quiet { board.old.notes ≡ false }
    requires well { in_scope context.now IsAltUnder (alt_seen alt.now) }
    ensures does { does context.now.about.now (D.dealing dealer.old)
        (bindings_of (scene_in context.now board.old.laid frames.old.items) context.now.scope.now
        (alt_seen alt.now) spots.now) (effects_of (alt_seen alt.now))
        (point_of board.old.laid frames.old.items (D.state dealer.old))
        ≡ point_of board.new.laid frames.new.items (D.state dealer.new) }
    ensures shape { board.new.laid.shape ≡ context.now.about.now.shape }
    ensures current { IsCurrent context.now.about.now.sheet (frames_seen frames.new.items) context.now.current }
    ensures quiet { board.new.notes ≡ false }
    ensures dealing { D.dealing dealer.new ≡ D.dealing dealer.old }
{
    match alt {
        Alt::Do(effects) => do_all(context, effects, board, frames, dealer),
        Alt::If(_, effects) => do_all(context, effects, board, frames, dealer),
        Alt::Any(domain, _, inner) => {
            do_any(context, inner, domain, spots, board, frames, dealer)
        }
    }
}

// The same with the alternative inside a domain.
#[cycle(alternatives)]
fn do_any<D: Dealer>(
    context: &Context,
    inner: &Alt,
    domain: &Domain,
    spots: &[u16],
    board: &mut Board,
    frames: &mut Frames,
    dealer: &mut D,
)
    requires stands { IsContextOf context.now board.old.laid frames.old.items }
    requires quiet { board.old.notes ≡ false }
    requires domain { in_scope context.now IsDomainUnder (domain_seen domain.now) }
    requires room { length context.now.scope.now < 5 }
    requires well { (member : PureBind CardValue)
        → IsAltUnder context.now.about.now.sheet (context.now.scope.now ++ member ∷ []) (alt_seen inner.now) }
    requires bare { in_scope context.now IsAltUnder (alt_seen inner.now) }
    ensures does { does context.now.about.now (D.dealing dealer.old)
        (bindings_of (scene_in context.now board.old.laid frames.old.items) context.now.scope.now
        (any_alt (domain_seen domain.now) 0 (alt_seen inner.now)) spots.now)
        (effects_of (alt_seen inner.now))
        (point_of board.old.laid frames.old.items (D.state dealer.old))
        ≡ point_of board.new.laid frames.new.items (D.state dealer.new) }
    ensures shape { board.new.laid.shape ≡ context.now.about.now.shape }
    ensures current { IsCurrent context.now.about.now.sheet (frames_seen frames.new.items) context.now.current }
    ensures quiet { board.new.notes ≡ false }
    ensures dealing { D.dealing dealer.new ≡ D.dealing dealer.old }
{
    match spots.split_first() {
        None => do_alt(context, inner, spots, board, frames, dealer),
        Some((spot, rest)) => match bare_bind_at(context, domain, *spot, board.table(), &*frames) {
            Some(bind) => do_bound(context, inner, bind, rest, board, frames, dealer),
            None => do_member(context, inner, domain, *spot, rest, board, frames, dealer),
        },
    }
}

// The same where the member has to be found among cards or groups that are listed for it.
#[cycle(alternatives)]
#[inline(never)]
fn do_member<D: Dealer>(
    context: &Context,
    inner: &Alt,
    domain: &Domain,
    spot: u16,
    rest: &[u16],
    board: &mut Board,
    frames: &mut Frames,
    dealer: &mut D,
)
    requires stands { IsContextOf context.now board.old.laid frames.old.items }
    requires quiet { board.old.notes ≡ false }
    requires domain { in_scope context.now IsDomainUnder (domain_seen domain.now) }
    requires room { length context.now.scope.now < 5 }
    requires well { (member : PureBind CardValue)
        → IsAltUnder context.now.about.now.sheet (context.now.scope.now ++ member ∷ []) (alt_seen inner.now) }
    ensures does { does context.now.about.now (D.dealing dealer.old)
        (bindings_of (scene_in context.now board.old.laid frames.old.items) context.now.scope.now
        (any_alt (domain_seen domain.now) 0 (alt_seen inner.now))
        (spot ∷ rest.now))
        (effects_of (alt_seen inner.now))
        (point_of board.old.laid frames.old.items (D.state dealer.old))
        ≡ point_of board.new.laid frames.new.items (D.state dealer.new) }
    ensures shape { board.new.laid.shape ≡ context.now.about.now.shape }
    ensures current { IsCurrent context.now.about.now.sheet (frames_seen frames.new.items) context.now.current }
    ensures quiet { board.new.notes ≡ false }
    ensures dealing { D.dealing dealer.new ≡ D.dealing dealer.old }
{
    let mut room = Cards::new();
    let member = member_at(context, domain, spot, board.table(), &*frames, &mut room);
    let bind = bind_of(member, &room);
    do_bound(context, inner, bind, rest, board, frames, dealer)
}

// Does the effects of an alternative with one variable more.
#[cycle(alternatives)]
fn do_bound<D: Dealer>(
    context: &Context,
    alt: &Alt,
    bind: Bind,
    spots: &[u16],
    board: &mut Board,
    frames: &mut Frames,
    dealer: &mut D,
)
    requires stands { IsContextOf context.now board.old.laid frames.old.items }
    requires quiet { board.old.notes ≡ false }
    requires room { length context.now.scope.now < 5 }
    requires bind { IsBindOf context.now.about.now.shape (bind_seen bind) }
    requires well { IsAltUnder context.now.about.now.sheet (context.now.scope.now ++ bind_seen bind ∷ [])
        (alt_seen alt.now) }
    ensures does { does context.now.about.now (D.dealing dealer.old)
        (bindings_of (scene_in context.now board.old.laid frames.old.items)
        (context.now.scope.now ++ bind_seen bind.entry ∷ []) (alt_seen alt.now) spots.now)
        (effects_of (alt_seen alt.now))
        (point_of board.old.laid frames.old.items (D.state dealer.old))
        ≡ point_of board.new.laid frames.new.items (D.state dealer.new) }
    ensures shape { board.new.laid.shape ≡ context.now.about.now.shape }
    ensures current { IsCurrent context.now.about.now.sheet (frames_seen frames.new.items) context.now.current }
    ensures quiet { board.new.notes ≡ false }
    ensures dealing { D.dealing dealer.new ≡ D.dealing dealer.old }
{
    let scope = context.scope.with(bind);
    let within = Context {
        about: context.about,
        scope: &scope,
        current: context.current,
    };
    do_alt(&within, alt, spots, board, frames, dealer)
}

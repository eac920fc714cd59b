//! The effects of an item that was chosen.
ghost use Rattle.std.specs.Prelude.{◌≡◌, ◌<◌, [], ◌∷◌, ◌++◌, false, length, OnOk, IsOk};
ghost use Rattle.rc_sheet_spec.specs.Sheet.{any_alt};
ghost use Rattle.rc_play_spec.specs.Value.{Bind as PureBind};
ghost use Rattle.rc_play_spec.specs.Scene.{CardValue};
ghost use Rattle.rc_play_spec.specs.Bound.{IsBindOf};
ghost use Rattle.rc_play_spec.specs.About.{scene_at};
ghost use Rattle.rc_play_spec.specs.Menu.{alt_in, bindings_of, effects_of};
ghost use Rattle.rc_play_spec.specs.Effects.{does};
ghost use Rattle.rc_ast.specs.Expressions.{domain_seen};
ghost use Rattle.rc_ast.specs.Items.{alt_seen};
ghost use Rattle.rc_rules.specs.Control.{frames_seen};
ghost use Rattle.rc_value.specs.Current.{IsCurrent};
ghost use Rattle.rc_value.specs.Seen.{bind_seen};
ghost use Rattle.rc_value.specs.Point.{point_of};
ghost use Rattle.rc_value.specs.Under.{IsAltUnder, IsDomainUnder};
ghost use Rattle.rc_value.specs.Bindings.{AreAltsOutside};
ghost use Rattle.rc_value.specs.Context.{scene_in, IsContextOf, in_scope};
ghost use Rattle.rc_undo.specs.Undo.{Keeps};
ghost use Rattle.rc_code.specs.Meaning.{effects_in};
ghost use Rattle.rc_code.specs.Seen.{list_seen};
ghost use Rattle.rc_code.specs.Implements.{AreSimple};
ghost use Rattle.rc_rules.specs.Dealer.{ShuffledBy};

use crate::blocks::do_few;
use crate::scopes::one_more;
use rc_ast::{Alt, Domain};
use rc_code::{Instruction, Offer};
use rc_deck::Memory;
use rc_rules::{About, Dealer, Frames, Item};
use rc_undo::Board;
use rc_value::{Bind, Bindings, Cards, Context, Current, bare_bind_at, bind_of, member_at};

/// Does the effects of an item of a menu, with its variables bound, where it is known who is current. Their code is a
/// block.
///
/// An alternative that isn't there has no effects, and a position that isn't there stands for player 0.
#[tactic(auto, using(crate::proofs::ShuffleLemmas::not_shuffled))]
pub fn do_item<D: Dealer>(
    about: &About,
    current: Current,
    alts: &[Offer],
    block: &[Instruction],
    item: &Item,
    board: &mut Board,
    frames: &mut Frames,
    dealer: &mut D,
) -> Result<(), Memory>
    requires shape { board.old.laid.shape ≡ about.now.shape }
    requires current { IsCurrent about.now.sheet (frames_seen frames.old.items) current }
    requires well { AreAltsOutside about.now.sheet alts.now }
    requires block { effects_in (list_seen block.now) ≡ effects_of (alt_in alts.now item.now.alt) }
    requires simple { AreSimple (list_seen block.now) }
    ensures does { OnOk result (let alt = alt_in alts.now item.now.alt in
        does about.now (D.dealing dealer.old)
        (bindings_of (scene_at about.now board.old.laid.table
        (frames_seen frames.old.items)) [] alt item.now.spots.items) (effects_of alt)
        (point_of board.old.laid frames.old.items (D.state dealer.old))
        ≡ point_of board.new.laid frames.new.items (D.state dealer.new)) }
    ensures current { OnOk result (IsCurrent about.now.sheet (frames_seen frames.new.items) current) }
    ensures keeps { Keeps board.old board.new }
    ensures quiet { board.old.notes ≡ false → IsOk result }
    ensures shuffled { ShuffledBy D.dealing D.state dealer.old dealer.new }
    ensures dealing { D.dealing dealer.new ≡ D.dealing dealer.old }
{
    let Some(offer) = alts.get(item.alt as usize) else {
        return Ok(());
    };
    let scope = Bindings::empty();
    let context = Context {
        about,
        scope: &scope,
        current,
    };
    do_here(
        &context,
        offer.alt(),
        block,
        item.spots.as_slice(),
        board,
        frames,
        dealer,
    )
}

// Does the effects of an alternative whose variables these positions bind. Where none is left, nothing more is bound.
#[tactic(auto, using(crate::proofs::ShuffleLemmas::not_shuffled))]
#[cycle(alternatives)]
#[inline(always)]
fn do_here<D: Dealer>(
    context: &Context,
    alt: &Alt,
    block: &[Instruction],
    spots: &[u16],
    board: &mut Board,
    frames: &mut Frames,
    dealer: &mut D,
) -> Result<(), Memory>
    requires stands { IsContextOf context.now board.old.laid frames.old.items }
    requires well { in_scope context.now IsAltUnder (alt_seen alt.now) }
    requires block { effects_in (list_seen block.now) ≡ effects_of (alt_seen alt.now) }
    requires simple { AreSimple (list_seen block.now) }
    ensures does { OnOk result (does context.now.about.now (D.dealing dealer.old)
        (bindings_of (scene_in context.now board.old.laid frames.old.items) context.now.scope.now
        (alt_seen alt.now) spots.now) (effects_of (alt_seen alt.now))
        (point_of board.old.laid frames.old.items (D.state dealer.old))
        ≡ point_of board.new.laid frames.new.items (D.state dealer.new)) }
    ensures current { OnOk result (IsCurrent context.now.about.now.sheet
        (frames_seen frames.new.items) context.now.current) }
    ensures keeps { Keeps board.old board.new }
    ensures quiet { board.old.notes ≡ false → IsOk result }
    ensures shuffled { ShuffledBy D.dealing D.state dealer.old dealer.new }
    ensures dealing { D.dealing dealer.new ≡ D.dealing dealer.old }
{
    match alt {
        Alt::Do(_) => do_few(context, block, board, frames, dealer),
        Alt::If(_, _) => do_few(context, block, board, frames, dealer),
        Alt::Any(domain, _, inner) => {
            do_any(context, inner, domain, block, spots, board, frames, dealer)
        }
    }
}

// The same by a call.
#[tactic(auto, using(crate::proofs::ShuffleLemmas::not_shuffled))]
#[cycle(alternatives)]
#[inline(never)]
fn do_alt<D: Dealer>(
    context: &Context,
    alt: &Alt,
    block: &[Instruction],
    spots: &[u16],
    board: &mut Board,
    frames: &mut Frames,
    dealer: &mut D,
) -> Result<(), Memory>
    requires stands { IsContextOf context.now board.old.laid frames.old.items }
    requires well { in_scope context.now IsAltUnder (alt_seen alt.now) }
    requires block { effects_in (list_seen block.now) ≡ effects_of (alt_seen alt.now) }
    requires simple { AreSimple (list_seen block.now) }
    ensures does { OnOk result (does context.now.about.now (D.dealing dealer.old)
        (bindings_of (scene_in context.now board.old.laid frames.old.items) context.now.scope.now
        (alt_seen alt.now) spots.now) (effects_of (alt_seen alt.now))
        (point_of board.old.laid frames.old.items (D.state dealer.old))
        ≡ point_of board.new.laid frames.new.items (D.state dealer.new)) }
    ensures current { OnOk result (IsCurrent context.now.about.now.sheet
        (frames_seen frames.new.items) context.now.current) }
    ensures keeps { Keeps board.old board.new }
    ensures quiet { board.old.notes ≡ false → IsOk result }
    ensures shuffled { ShuffledBy D.dealing D.state dealer.old dealer.new }
    ensures dealing { D.dealing dealer.new ≡ D.dealing dealer.old }
{
    do_here(context, alt, block, spots, board, frames, dealer)
}

// The same, with a call only where another variable is bound.
#[tactic(auto, using(crate::proofs::ShuffleLemmas::not_shuffled))]
#[cycle(alternatives)]
#[inline(always)]
fn do_inner<D: Dealer>(
    context: &Context,
    alt: &Alt,
    block: &[Instruction],
    spots: &[u16],
    board: &mut Board,
    frames: &mut Frames,
    dealer: &mut D,
) -> Result<(), Memory>
    requires stands { IsContextOf context.now board.old.laid frames.old.items }
    requires well { in_scope context.now IsAltUnder (alt_seen alt.now) }
    requires block { effects_in (list_seen block.now) ≡ effects_of (alt_seen alt.now) }
    requires simple { AreSimple (list_seen block.now) }
    ensures does { OnOk result (does context.now.about.now (D.dealing dealer.old)
        (bindings_of (scene_in context.now board.old.laid frames.old.items) context.now.scope.now
        (alt_seen alt.now) spots.now) (effects_of (alt_seen alt.now))
        (point_of board.old.laid frames.old.items (D.state dealer.old))
        ≡ point_of board.new.laid frames.new.items (D.state dealer.new)) }
    ensures current { OnOk result (IsCurrent context.now.about.now.sheet
        (frames_seen frames.new.items) context.now.current) }
    ensures keeps { Keeps board.old board.new }
    ensures quiet { board.old.notes ≡ false → IsOk result }
    ensures shuffled { ShuffledBy D.dealing D.state dealer.old dealer.new }
    ensures dealing { D.dealing dealer.new ≡ D.dealing dealer.old }
{
    match alt {
        Alt::Do(_) => do_few(context, block, board, frames, dealer),
        Alt::If(_, _) => do_few(context, block, board, frames, dealer),
        Alt::Any(_, _, _) => do_alt(context, alt, block, spots, board, frames, dealer),
    }
}

// The same with the alternative inside a domain.
#[tactic(auto, using(crate::proofs::ShuffleLemmas::not_shuffled))]
#[cycle(alternatives)]
#[inline(always)]
fn do_any<D: Dealer>(
    context: &Context,
    inner: &Alt,
    domain: &Domain,
    block: &[Instruction],
    spots: &[u16],
    board: &mut Board,
    frames: &mut Frames,
    dealer: &mut D,
) -> Result<(), Memory>
    requires stands { IsContextOf context.now board.old.laid frames.old.items }
    requires domain { in_scope context.now IsDomainUnder (domain_seen domain.now) }
    requires room { length context.now.scope.now < 5 }
    requires well { (member : PureBind CardValue)
        → IsAltUnder context.now.about.now.sheet (context.now.scope.now ++ member ∷ []) (alt_seen inner.now) }
    requires bare { in_scope context.now IsAltUnder (alt_seen inner.now) }
    requires block { effects_in (list_seen block.now) ≡ effects_of (alt_seen inner.now) }
    requires simple { AreSimple (list_seen block.now) }
    ensures does { OnOk result (does context.now.about.now (D.dealing dealer.old)
        (bindings_of (scene_in context.now board.old.laid frames.old.items) context.now.scope.now
        (any_alt (domain_seen domain.now) 0 (alt_seen inner.now)) spots.now)
        (effects_of (alt_seen inner.now))
        (point_of board.old.laid frames.old.items (D.state dealer.old))
        ≡ point_of board.new.laid frames.new.items (D.state dealer.new)) }
    ensures current { OnOk result (IsCurrent context.now.about.now.sheet
        (frames_seen frames.new.items) context.now.current) }
    ensures keeps { Keeps board.old board.new }
    ensures quiet { board.old.notes ≡ false → IsOk result }
    ensures shuffled { ShuffledBy D.dealing D.state dealer.old dealer.new }
    ensures dealing { D.dealing dealer.new ≡ D.dealing dealer.old }
{
    match spots.split_first() {
        None => do_alt(context, inner, block, spots, board, frames, dealer),
        Some((spot, rest)) => match bare_bind_at(context, domain, *spot, board.table(), &*frames) {
            Some(bind) => do_bound(context, inner, bind, block, rest, board, frames, dealer),
            None => do_member(
                context, inner, domain, *spot, block, rest, board, frames, dealer,
            ),
        },
    }
}

// The same where the member has to be found among cards or groups that are listed for it.
#[tactic(auto, using(crate::proofs::ShuffleLemmas::not_shuffled))]
#[cycle(alternatives)]
#[inline(never)]
fn do_member<D: Dealer>(
    context: &Context,
    inner: &Alt,
    domain: &Domain,
    spot: u16,
    block: &[Instruction],
    rest: &[u16],
    board: &mut Board,
    frames: &mut Frames,
    dealer: &mut D,
) -> Result<(), Memory>
    requires stands { IsContextOf context.now board.old.laid frames.old.items }
    requires domain { in_scope context.now IsDomainUnder (domain_seen domain.now) }
    requires room { length context.now.scope.now < 5 }
    requires well { (member : PureBind CardValue)
        → IsAltUnder context.now.about.now.sheet (context.now.scope.now ++ member ∷ []) (alt_seen inner.now) }
    requires block { effects_in (list_seen block.now) ≡ effects_of (alt_seen inner.now) }
    requires simple { AreSimple (list_seen block.now) }
    ensures does { OnOk result (does context.now.about.now (D.dealing dealer.old)
        (bindings_of (scene_in context.now board.old.laid frames.old.items) context.now.scope.now
        (any_alt (domain_seen domain.now) 0 (alt_seen inner.now)) (spot ∷ rest.now))
        (effects_of (alt_seen inner.now))
        (point_of board.old.laid frames.old.items (D.state dealer.old))
        ≡ point_of board.new.laid frames.new.items (D.state dealer.new)) }
    ensures current { OnOk result (IsCurrent context.now.about.now.sheet
        (frames_seen frames.new.items) context.now.current) }
    ensures keeps { Keeps board.old board.new }
    ensures quiet { board.old.notes ≡ false → IsOk result }
    ensures shuffled { ShuffledBy D.dealing D.state dealer.old dealer.new }
    ensures dealing { D.dealing dealer.new ≡ D.dealing dealer.old }
{
    let mut room = Cards::new();
    let member = member_at(context, domain, spot, board.table(), &*frames, &mut room);
    let bind = bind_of(member, &room);
    do_bound(context, inner, bind, block, rest, board, frames, dealer)
}

// Does the effects of an alternative with one variable more.
#[tactic(auto, using(crate::proofs::ShuffleLemmas::not_shuffled))]
#[cycle(alternatives)]
#[inline(always)]
fn do_bound<D: Dealer>(
    context: &Context,
    alt: &Alt,
    bind: Bind,
    block: &[Instruction],
    spots: &[u16],
    board: &mut Board,
    frames: &mut Frames,
    dealer: &mut D,
) -> Result<(), Memory>
    requires stands { IsContextOf context.now board.old.laid frames.old.items }
    requires room { length context.now.scope.now < 5 }
    requires bind { IsBindOf context.now.about.now.shape (bind_seen bind) }
    requires well { IsAltUnder context.now.about.now.sheet (context.now.scope.now ++ bind_seen bind ∷ [])
        (alt_seen alt.now) }
    requires block { effects_in (list_seen block.now) ≡ effects_of (alt_seen alt.now) }
    requires simple { AreSimple (list_seen block.now) }
    ensures does { OnOk result (does context.now.about.now (D.dealing dealer.old)
        (bindings_of (scene_in context.now board.old.laid frames.old.items)
        (context.now.scope.now ++ bind_seen bind.entry ∷ []) (alt_seen alt.now) spots.now)
        (effects_of (alt_seen alt.now))
        (point_of board.old.laid frames.old.items (D.state dealer.old))
        ≡ point_of board.new.laid frames.new.items (D.state dealer.new)) }
    ensures current { OnOk result (IsCurrent context.now.about.now.sheet
        (frames_seen frames.new.items) context.now.current) }
    ensures keeps { Keeps board.old board.new }
    ensures quiet { board.old.notes ≡ false → IsOk result }
    ensures shuffled { ShuffledBy D.dealing D.state dealer.old dealer.new }
    ensures dealing { D.dealing dealer.new ≡ D.dealing dealer.old }
{
    let scope = one_more(context.scope, bind);
    let within = Context {
        about: context.about,
        scope: &scope,
        current: context.current,
    };
    do_inner(&within, alt, block, spots, board, frames, dealer)
}

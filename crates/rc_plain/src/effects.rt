//! Effects.
ghost use Rattle.std.specs.Prelude.{◌≡◌, ◌<◌, [], ◌∷◌, ◌++◌, false, length, map, fold, All};
ghost use Rattle.rc_base.specs.Numbers.{below};
ghost use Rattle.rc_sheet_spec.specs.Sheet.{when, repeat as repeat_of, for_each as for_each_of};
ghost use Rattle.rc_play_spec.specs.Value.{Bind as PureBind, player_bound, card_bound, coll_value};
ghost use Rattle.rc_play_spec.specs.Scene.{CardValue};
ghost use Rattle.rc_play_spec.specs.Bound.{IsBindOf, IsCardOf};
ghost use Rattle.rc_play_spec.specs.Effects.{does_one, does, times as times_in};
ghost use Rattle.rc_ast.specs.Expressions.{coll_seen, int_seen, test_seen, domain_seen};
ghost use Rattle.rc_ast.specs.Effects.{effect_seen, effects_seen};
ghost use Rattle.rc_rules.specs.Control.{frames_seen};
ghost use Rattle.rc_value.specs.Cards.{value_seen, values_seen};
ghost use Rattle.rc_value.specs.Current.{IsCurrent};
ghost use Rattle.rc_value.specs.Seen.{bind_seen};
ghost use Rattle.rc_value.specs.Point.{point_of};
ghost use Rattle.rc_value.specs.Under.{IsCollUnder, IsEffectUnder, AreEffectsUnder};
ghost use Rattle.rc_value.specs.Context.{scene_in, IsContextOf, in_scope};

use crate::alone::{change_each, change_in, do_alone};
use rc_ast::{CollExpr, Domain, Effect, IntExpr, Test};
use rc_base::limits::MOST_TIMES;
use rc_rules::{About, Dealer, Frames};
use rc_undo::Board;
use rc_value::{
    Bind, Bindings, Card, Cards, Context, Current, FewCards, cards_now, few_cards_now, int_now,
    test_now,
};

/// Does effects, one after the other, under the variables of a scope. No effect changes who is current. The board notes
/// nothing, so it takes no memory.
pub fn do_effects<D: Dealer>(
    about: &About,
    current: Current,
    scope: &Bindings,
    effects: &Vec<Effect>,
    board: &mut Board,
    frames: &mut Frames,
    dealer: &mut D,
)
    requires shape { board.old.laid.shape ≡ about.now.shape }
    requires quiet { board.old.notes ≡ false }
    requires current { IsCurrent about.now.sheet (frames_seen frames.old.items) current }
    requires well { AreEffectsUnder about.now.sheet scope.now (effects_seen effects.now.items) }
    requires bound { All (IsBindOf about.now.shape) scope.now }
    ensures does { does about.now (D.dealing dealer.old) scope.now (effects_seen effects.now.items)
        (point_of board.old.laid frames.old.items (D.state dealer.old))
        ≡ point_of board.new.laid frames.new.items (D.state dealer.new) }
    ensures shape { board.new.laid.shape ≡ about.now.shape }
    ensures current { IsCurrent about.now.sheet (frames_seen frames.new.items) current }
    ensures quiet { board.new.notes ≡ false }
    ensures dealing { D.dealing dealer.new ≡ D.dealing dealer.old }
{
    let context = Context {
        about,
        scope,
        current,
    };
    do_all(&context, effects, board, frames, dealer);
}

#[cycle(effects)]
fn do_effect<D: Dealer>(
    context: &Context,
    effect: &Effect,
    board: &mut Board,
    frames: &mut Frames,
    dealer: &mut D,
)
    requires stands { IsContextOf context.now board.old.laid frames.old.items }
    requires quiet { board.old.notes ≡ false }
    requires well { in_scope context.now IsEffectUnder (effect_seen effect.now) }
    ensures does { does_one context.now.about.now (D.dealing dealer.old) context.now.scope.now (effect_seen effect.now)
        (point_of board.old.laid frames.old.items (D.state dealer.old))
        ≡ point_of board.new.laid frames.new.items (D.state dealer.new) }
    ensures stands { IsContextOf context.now board.new.laid frames.new.items }
    ensures quiet { board.new.notes ≡ false }
    ensures dealing { D.dealing dealer.new ≡ D.dealing dealer.old }
{
    match effect {
        Effect::If(test, effects) => do_if(context, effects, test, board, frames, dealer),
        Effect::Repeat(count, effects) => repeat(context, effects, count, board, frames, dealer),
        Effect::Each(domain, bound, effects) => {
            for_each(context, effects, domain, *bound, board, frames, dealer)
        }
        Effect::Move(_, _, _)
        | Effect::MoveAll(_, _, _)
        | Effect::Remember(_, _, _)
        | Effect::Forget(_)
        | Effect::Shuffle(_)
        | Effect::Set(_, _)
        | Effect::Inc(_, _)
        | Effect::Dec(_, _)
        | Effect::Next(_)
        | Effect::Reverse
        | Effect::Peek(_, _) => do_alone(context, effect, board, frames, dealer),
    }
}

#[cycle(effects)]
fn do_if<D: Dealer>(
    context: &Context,
    effects: &Vec<Effect>,
    test: &Test,
    board: &mut Board,
    frames: &mut Frames,
    dealer: &mut D,
)
    requires stands { IsContextOf context.now board.old.laid frames.old.items }
    requires quiet { board.old.notes ≡ false }
    requires well { in_scope context.now IsEffectUnder (when (test_seen test.now) (effects_seen effects.now.items)) }
    ensures does { does_one context.now.about.now (D.dealing dealer.old) context.now.scope.now
        (when (test_seen test.now) (effects_seen effects.now.items))
        (point_of board.old.laid frames.old.items (D.state dealer.old))
        ≡ point_of board.new.laid frames.new.items (D.state dealer.new) }
    ensures stands { IsContextOf context.now board.new.laid frames.new.items }
    ensures quiet { board.new.notes ≡ false }
    ensures dealing { D.dealing dealer.new ≡ D.dealing dealer.old }
{
    if test_now(context, test, board.table(), &*frames) {
        do_all(context, effects, board, frames, dealer);
    }
}

#[cycle(effects)]
fn repeat<D: Dealer>(
    context: &Context,
    effects: &Vec<Effect>,
    count: &IntExpr,
    board: &mut Board,
    frames: &mut Frames,
    dealer: &mut D,
)
    requires stands { IsContextOf context.now board.old.laid frames.old.items }
    requires quiet { board.old.notes ≡ false }
    requires well { in_scope context.now IsEffectUnder
        (repeat_of (int_seen count.now) (effects_seen effects.now.items)) }
    ensures does { does_one context.now.about.now (D.dealing dealer.old) context.now.scope.now
        (repeat_of (int_seen count.now) (effects_seen effects.now.items))
        (point_of board.old.laid frames.old.items (D.state dealer.old))
        ≡ point_of board.new.laid frames.new.items (D.state dealer.new) }
    ensures stands { IsContextOf context.now board.new.laid frames.new.items }
    ensures quiet { board.new.notes ≡ false }
    ensures dealing { D.dealing dealer.new ≡ D.dealing dealer.old }
{
    let times = times_of(int_now(context, count, board.table(), &*frames));
    for _ in 0..times {
        do_all(context, effects, board, frames, dealer);
    }
}

// How often effects are repeated, by a count.
fn times_of(count: i64) -> u16
    ensures { result ≡ times_in count }
{
    count.clamp(0, MOST_TIMES) as u16
}

#[cycle(effects)]
fn for_each<D: Dealer>(
    context: &Context,
    effects: &Vec<Effect>,
    domain: &Domain,
    bound: u32,
    board: &mut Board,
    frames: &mut Frames,
    dealer: &mut D,
)
    requires stands { IsContextOf context.now board.old.laid frames.old.items }
    requires quiet { board.old.notes ≡ false }
    requires well { in_scope context.now IsEffectUnder
        (for_each_of (domain_seen domain.now) bound (effects_seen effects.now.items)) }
    ensures does { does_one context.now.about.now (D.dealing dealer.old) context.now.scope.now
        (for_each_of (domain_seen domain.now) bound (effects_seen effects.now.items))
        (point_of board.old.laid frames.old.items (D.state dealer.old))
        ≡ point_of board.new.laid frames.new.items (D.state dealer.new) }
    ensures stands { IsContextOf context.now board.new.laid frames.new.items }
    ensures quiet { board.new.notes ≡ false }
    ensures dealing { D.dealing dealer.new ≡ D.dealing dealer.old }
{
    match domain {
        Domain::Players => for_players(context, effects, board, frames, dealer),
        Domain::Coll(cards) => for_cards(context, effects, cards, board, frames, dealer),
        Domain::Parts(_, _) => unreachable!(),
    }
}

#[cycle(effects)]
fn for_players<D: Dealer>(
    context: &Context,
    effects: &Vec<Effect>,
    board: &mut Board,
    frames: &mut Frames,
    dealer: &mut D,
)
    requires stands { IsContextOf context.now board.old.laid frames.old.items }
    requires quiet { board.old.notes ≡ false }
    requires room { length context.now.scope.now < 5 }
    requires well { (member : PureBind CardValue)
        → AreEffectsUnder context.now.about.now.sheet (context.now.scope.now ++ member ∷ [])
        (effects_seen effects.now.items) }
    ensures does { fold (λ mid member. does context.now.about.now (D.dealing dealer.old)
        (context.now.scope.now ++ member ∷ []) (effects_seen effects.now.items) mid)
        (point_of board.old.laid frames.old.items (D.state dealer.old))
        (map (λ n. player_bound n) (below context.now.about.now.sheet.players))
        ≡ point_of board.new.laid frames.new.items (D.state dealer.new) }
    ensures stands { IsContextOf context.now board.new.laid frames.new.items }
    ensures quiet { board.new.notes ≡ false }
    ensures dealing { D.dealing dealer.new ≡ D.dealing dealer.old }
{
    match change_in(context, effects, board.table(), &*frames) {
        Some(each) => {
            change_each(context.about, each, board);
            return;
        }
        None => {}
    }
    let mut scope = context.scope.with(Bind::Player(0));
    for player in 0..context.about.sheet().players {
        let bind = Bind::Player(player);
        do_for(context, &mut scope, bind, effects, board, frames, dealer);
    }
}

// Which cards they are is read before the first one's effects are done.
#[cycle(effects)]
fn for_cards<D: Dealer>(
    context: &Context,
    effects: &Vec<Effect>,
    cards: &CollExpr,
    board: &mut Board,
    frames: &mut Frames,
    dealer: &mut D,
)
    requires stands { IsContextOf context.now board.old.laid frames.old.items }
    requires quiet { board.old.notes ≡ false }
    requires cards { in_scope context.now IsCollUnder (coll_seen cards.now) }
    requires room { length context.now.scope.now < 5 }
    requires well { (member : PureBind CardValue)
        → AreEffectsUnder context.now.about.now.sheet (context.now.scope.now ++ member ∷ [])
        (effects_seen effects.now.items) }
    ensures does { fold (λ mid member. does context.now.about.now (D.dealing dealer.old)
        (context.now.scope.now ++ member ∷ []) (effects_seen effects.now.items) mid)
        (point_of board.old.laid frames.old.items (D.state dealer.old))
        (map (λ c. card_bound c) (coll_value (scene_in context.now board.old.laid frames.old.items)
        context.now.scope.now (coll_seen cards.now)))
        ≡ point_of board.new.laid frames.new.items (D.state dealer.new) }
    ensures stands { IsContextOf context.now board.new.laid frames.new.items }
    ensures quiet { board.new.notes ≡ false }
    ensures dealing { D.dealing dealer.new ≡ D.dealing dealer.old }
{
    let mut few = FewCards::new();
    if few_cards_now(context, cards, board.table(), &*frames, &mut few) {
        return for_these(context, effects, few.as_slice(), board, frames, dealer);
    }
    for_many(context, effects, cards, board, frames, dealer)
}

// The same, however many they are.
#[cycle(effects)]
#[inline(never)]
fn for_many<D: Dealer>(
    context: &Context,
    effects: &Vec<Effect>,
    cards: &CollExpr,
    board: &mut Board,
    frames: &mut Frames,
    dealer: &mut D,
)
    requires stands { IsContextOf context.now board.old.laid frames.old.items }
    requires quiet { board.old.notes ≡ false }
    requires cards { in_scope context.now IsCollUnder (coll_seen cards.now) }
    requires room { length context.now.scope.now < 5 }
    requires well { (member : PureBind CardValue)
        → AreEffectsUnder context.now.about.now.sheet (context.now.scope.now ++ member ∷ [])
        (effects_seen effects.now.items) }
    ensures does { fold (λ mid member. does context.now.about.now (D.dealing dealer.old)
        (context.now.scope.now ++ member ∷ []) (effects_seen effects.now.items) mid)
        (point_of board.old.laid frames.old.items (D.state dealer.old))
        (map (λ c. card_bound c) (coll_value (scene_in context.now board.old.laid frames.old.items)
        context.now.scope.now (coll_seen cards.now)))
        ≡ point_of board.new.laid frames.new.items (D.state dealer.new) }
    ensures stands { IsContextOf context.now board.new.laid frames.new.items }
    ensures quiet { board.new.notes ≡ false }
    ensures dealing { D.dealing dealer.new ≡ D.dealing dealer.old }
{
    let mut room = Cards::new();
    cards_now(context, cards, board.table(), &*frames, &mut room);
    for_these(context, effects, room.as_slice(), board, frames, dealer)
}

// The same with these cards.
#[cycle(effects)]
#[inline(never)]
fn for_these<D: Dealer>(
    context: &Context,
    effects: &Vec<Effect>,
    cards: &[Card],
    board: &mut Board,
    frames: &mut Frames,
    dealer: &mut D,
)
    requires stands { IsContextOf context.now board.old.laid frames.old.items }
    requires quiet { board.old.notes ≡ false }
    requires cards { All (λ card. IsCardOf context.now.about.now.shape (value_seen card)) cards.now }
    requires room { length context.now.scope.now < 5 }
    requires well { (member : PureBind CardValue)
        → AreEffectsUnder context.now.about.now.sheet (context.now.scope.now ++ member ∷ [])
        (effects_seen effects.now.items) }
    ensures does { fold (λ mid member. does context.now.about.now (D.dealing dealer.old)
        (context.now.scope.now ++ member ∷ []) (effects_seen effects.now.items) mid)
        (point_of board.old.laid frames.old.items (D.state dealer.old))
        (map (λ c. card_bound c) (values_seen cards.now))
        ≡ point_of board.new.laid frames.new.items (D.state dealer.new) }
    ensures stands { IsContextOf context.now board.new.laid frames.new.items }
    ensures quiet { board.new.notes ≡ false }
    ensures dealing { D.dealing dealer.new ≡ D.dealing dealer.old }
{
    let mut scope = context.scope.with(Bind::Player(0));
    for card in cards {
        let bind = Bind::Card(*card);
        do_for(context, &mut scope, bind, effects, board, frames, dealer);
    }
}

// Does effects with this for the innermost variable of the scope. The context's variables are those outside it.
#[cycle(effects)]
#[inline(always)]
fn do_for<'g, D: Dealer>(
    context: &Context,
    scope: &mut Bindings<'g>,
    bind: Bind<'g>,
    effects: &Vec<Effect>,
    board: &mut Board,
    frames: &mut Frames,
    dealer: &mut D,
)
    requires stands { IsContextOf context.now board.old.laid frames.old.items }
    requires quiet { board.old.notes ≡ false }
    requires scope { (other : PureBind CardValue) × (scope.old ≡ context.now.scope.now ++ other ∷ []) }
    requires bind { IsBindOf context.now.about.now.shape (bind_seen bind) }
    requires well { AreEffectsUnder context.now.about.now.sheet (context.now.scope.now ++ bind_seen bind ∷ [])
        (effects_seen effects.now.items) }
    ensures does { does context.now.about.now (D.dealing dealer.old)
        (context.now.scope.now ++ bind_seen bind.entry ∷ []) (effects_seen effects.now.items)
        (point_of board.old.laid frames.old.items (D.state dealer.old))
        ≡ point_of board.new.laid frames.new.items (D.state dealer.new) }
    ensures scope { (other : PureBind CardValue) × (scope.new ≡ context.now.scope.now ++ other ∷ []) }
    ensures stands { IsContextOf context.now board.new.laid frames.new.items }
    ensures quiet { board.new.notes ≡ false }
    ensures dealing { D.dealing dealer.new ≡ D.dealing dealer.old }
{
    scope.rebind(bind);
    let inner = Context {
        about: context.about,
        scope: &*scope,
        current: context.current,
    };
    do_all(&inner, effects, board, frames, dealer);
}

/// Does effects, one after the other, in a context.
#[cycle(effects)]
pub(crate) fn do_all<D: Dealer>(
    context: &Context,
    effects: &Vec<Effect>,
    board: &mut Board,
    frames: &mut Frames,
    dealer: &mut D,
)
    requires stands { IsContextOf context.now board.old.laid frames.old.items }
    requires quiet { board.old.notes ≡ false }
    requires well { in_scope context.now AreEffectsUnder (effects_seen effects.now.items) }
    ensures does { does context.now.about.now (D.dealing dealer.old) context.now.scope.now
        (effects_seen effects.now.items)
        (point_of board.old.laid frames.old.items (D.state dealer.old))
        ≡ point_of board.new.laid frames.new.items (D.state dealer.new) }
    ensures stands { IsContextOf context.now board.new.laid frames.new.items }
    ensures quiet { board.new.notes ≡ false }
    ensures dealing { D.dealing dealer.new ≡ D.dealing dealer.old }
{
    for effect in effects {
        do_effect(context, effect, board, frames, dealer);
    }
}

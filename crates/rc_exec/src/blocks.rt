//! Blocks of code: effects, one after the other.
ghost use Rattle.std.specs.Prelude.{◌≡◌, ◌+◌, ◌<◌, ◌≤◌, [], ◌∷◌, ◌++◌, false, length, take, drop, map, fold, All, OnOk, IfOk, IfSome, IsOk};
ghost use Rattle.rc_base.specs.Numbers.{below};
ghost use Rattle.rc_sheet_spec.specs.Sheet.{effect, no_effect, when, repeat as repeat_of, for_each as for_each_of};
ghost use Rattle.rc_play_spec.specs.Value.{Bind as PureBind, player_bound, card_bound, coll_value};
ghost use Rattle.rc_play_spec.specs.Scene.{CardValue};
ghost use Rattle.rc_play_spec.specs.Bound.{IsBindOf, IsCardOf};
ghost use Rattle.rc_play_spec.specs.Effects.{does_one, does, times as times_in};
ghost use Rattle.rc_ast.specs.Expressions.{coll_seen, int_seen, domain_seen};
ghost use Rattle.rc_value.specs.Cards.{value_seen, values_seen};
ghost use Rattle.rc_value.specs.Seen.{bind_seen};
ghost use Rattle.rc_value.specs.Point.{point_of};
ghost use Rattle.rc_value.specs.Under.{IsCollUnder, IsEffectUnder, AreEffectsUnder};
ghost use Rattle.rc_value.specs.Context.{scene_in, IsContextOf, in_scope};
ghost use Rattle.rc_code.specs.Meaning.{effects_in, first_effects, passed_over};
ghost use Rattle.rc_code.specs.Seen.{instruction_seen, list_seen};
ghost use Rattle.rc_code.specs.Implements.{IsSimple, AreSimple};
ghost use Rattle.rc_undo.specs.Undo.{Keeps};
ghost use Rattle.rc_rules.specs.Dealer.{ShuffledBy};

use crate::everyone::{change_all, change_for_each, changed_by, gather_all, gather_for_each};
use crate::scopes::one_more;
use crate::simple::do_simple;
use rc_ast::{CollExpr, Domain, IntExpr};
use rc_base::limits::MOST_TIMES;
use rc_code::{CompiledTest, Instruction};
use rc_deck::Memory;
use rc_rules::{Dealer, Frames};
use rc_undo::Board;
use rc_value::{
    Bind, Bindings, Card, Cards, Context, FewCards, asked_now, cards_now, few_cards_now, int_now,
};

/// The first instructions, so many of them, and those behind them.
#[tactic(auto, using(crate::proofs::ListLemmas::first_seen, crate::proofs::ListLemmas::rest_seen, crate::proofs::ListLemmas::front_simple, crate::proofs::ListLemmas::past_simple))]
#[inline(always)]
fn split(code: &[Instruction], count: usize) -> (&[Instruction], &[Instruction])
    ensures front { list_seen result.0.now ≡ take count (list_seen code.now) }
    ensures past { list_seen result.1.now ≡ drop count (list_seen code.now) }
    ensures front_simple { AreSimple (list_seen code.now) → AreSimple (list_seen result.0.now) }
    ensures past_simple { AreSimple (list_seen code.now) → AreSimple (list_seen result.1.now) }
    ensures front_shorter { length result.0.now ≤ length code.now }
    ensures past_shorter { length result.1.now ≤ length code.now }
{
    code.split_at(count.min(code.len()))
}

/// The first instructions, so many of them.
#[inline(always)]
pub fn front(code: &[Instruction], count: usize) -> &[Instruction]
    ensures code { list_seen result.now ≡ take count (list_seen code.now) }
    ensures simple { AreSimple (list_seen code.now) → AreSimple (list_seen result.now) }
    ensures shorter { length result.now ≤ length code.now }
{
    let (front, _) = split(code, count);
    front
}

/// The instructions behind so many.
#[inline(always)]
pub fn past(code: &[Instruction], count: usize) -> &[Instruction]
    ensures code { list_seen result.now ≡ drop count (list_seen code.now) }
    ensures simple { AreSimple (list_seen code.now) → AreSimple (list_seen result.now) }
    ensures shorter { length result.now ≤ length code.now }
{
    let (_, past) = split(code, count);
    past
}

// The test and what is inside, where a block is one `if`.
#[inline(always)]
fn sole_if(code: &[Instruction]) -> Option<(&CompiledTest, &[Instruction])>
    ensures effect { IfSome result (λ sole. effects_in (list_seen code.now)
        ≡ effect (when sole.0.now (effects_in (list_seen sole.1.now))) no_effect) }
    ensures simple { IfSome result (λ sole. AreSimple (list_seen code.now) → AreSimple (list_seen sole.1.now)) }
    ensures shorter { IfSome result (λ sole. length sole.1.now < length code.now) }
{
    match code {
        [Instruction::If(test, inside), behind @ ..] => {
            if behind.len() <= *inside {
                return Some((test, behind));
            }
            None
        }
        _ => None,
    }
}

/// Does the effects of a block.
#[tactic(auto, using(crate::proofs::ShuffleLemmas::not_shuffled))]
#[cycle(blocks)]
pub fn do_block<D: Dealer>(
    context: &Context,
    code: &[Instruction],
    board: &mut Board,
    frames: &mut Frames,
    dealer: &mut D,
) -> Result<(), Memory>
    requires stands { IsContextOf context.now board.old.laid frames.old.items }
    requires well { in_scope context.now AreEffectsUnder (effects_in (list_seen code.now)) }
    requires simple { AreSimple (list_seen code.now) }
    ensures does { OnOk result (does context.now.about.now (D.dealing dealer.old) context.now.scope.now
        (effects_in (list_seen code.now))
        (point_of board.old.laid frames.old.items (D.state dealer.old))
        ≡ point_of board.new.laid frames.new.items (D.state dealer.new)) }
    ensures stands { OnOk result (IsContextOf context.now board.new.laid frames.new.items) }
    ensures keeps { Keeps board.old board.new }
    ensures quiet { board.old.notes ≡ false → IsOk result }
    ensures shuffled { ShuffledBy D.dealing D.state dealer.old dealer.new }
    ensures dealing { D.dealing dealer.new ≡ D.dealing dealer.old }
{
    let mut rest = code;
    while let Some((first, behind)) = rest.split_first() {
        match do_first(context, first, behind, board, frames, dealer) {
            Ok(left) => rest = left,
            Err(Memory) => return Err(Memory),
        }
    }
    Ok(())
}

// Does the effects of an instruction, with those inside it, and tells what is behind them.
#[tactic(auto, using(crate::proofs::ShuffleLemmas::not_shuffled))]
#[cycle(blocks)]
#[inline(always)]
fn do_first<'c, D: Dealer>(
    context: &Context,
    first: &Instruction,
    behind: &'c [Instruction],
    board: &mut Board,
    frames: &mut Frames,
    dealer: &mut D,
) -> Result<&'c [Instruction], Memory>
    requires stands { IsContextOf context.now board.old.laid frames.old.items }
    requires well { in_scope context.now AreEffectsUnder
        (first_effects (instruction_seen first.now) (list_seen behind.now)) }
    requires simple { IsSimple (instruction_seen first.now) }
    requires inside { AreSimple (list_seen behind.now) }
    ensures does { OnOk result (does context.now.about.now (D.dealing dealer.old) context.now.scope.now
        (first_effects (instruction_seen first.now) (list_seen behind.now))
        (point_of board.old.laid frames.old.items (D.state dealer.old))
        ≡ point_of board.new.laid frames.new.items (D.state dealer.new)) }
    ensures left { IfOk result (λ left. list_seen left.now
        ≡ drop (passed_over (instruction_seen first.now)) (list_seen behind.now)) }
    ensures simple { IfOk result (λ left. AreSimple (list_seen left.now)) }
    ensures shorter { IfOk result (λ left. length left.now ≤ length behind.now) }
    ensures stands { OnOk result (IsContextOf context.now board.new.laid frames.new.items) }
    ensures keeps { Keeps board.old board.new }
    ensures quiet { board.old.notes ≡ false → IsOk result }
    ensures shuffled { ShuffledBy D.dealing D.state dealer.old dealer.new }
    ensures dealing { D.dealing dealer.new ≡ D.dealing dealer.old }
{
    match first {
        Instruction::Simple(effect) => {
            match do_simple(context, effect, board, frames, dealer) {
                Ok(()) => Ok(behind),
                Err(Memory) => Err(Memory),
            }
        }
        Instruction::If(test, inside) => {
            let (effects, left) = split(behind, *inside);
            match do_if(context, test, effects, board, frames, dealer) {
                Ok(()) => Ok(left),
                Err(Memory) => Err(Memory),
            }
        }
        Instruction::Repeat(count, inside) => {
            let (effects, left) = split(behind, *inside);
            match repeat(context, count, effects, board, frames, dealer) {
                Ok(()) => Ok(left),
                Err(Memory) => Err(Memory),
            }
        }
        Instruction::Each(domain, bound, inside) => {
            let (effects, left) = split(behind, *inside);
            match for_each(context, domain, *bound, effects, board, frames, dealer) {
                Ok(()) => Ok(left),
                Err(Memory) => Err(Memory),
            }
        }
        Instruction::Do(_) => Ok(behind),
        Instruction::Stage { .. } => Ok(behind),
        Instruction::Choice { .. } => Ok(behind),
        Instruction::End => Ok(behind),
    }
}

#[tactic(auto, using(crate::proofs::ShuffleLemmas::not_shuffled))]
#[cycle(blocks)]
#[inline(always)]
fn do_if<D: Dealer>(
    context: &Context,
    test: &CompiledTest,
    inside: &[Instruction],
    board: &mut Board,
    frames: &mut Frames,
    dealer: &mut D,
) -> Result<(), Memory>
    requires stands { IsContextOf context.now board.old.laid frames.old.items }
    requires well { in_scope context.now IsEffectUnder (when test.now (effects_in (list_seen inside.now))) }
    requires simple { AreSimple (list_seen inside.now) }
    ensures does { OnOk result (does_one context.now.about.now (D.dealing dealer.old) context.now.scope.now
        (when test.now (effects_in (list_seen inside.now)))
        (point_of board.old.laid frames.old.items (D.state dealer.old))
        ≡ point_of board.new.laid frames.new.items (D.state dealer.new)) }
    ensures stands { OnOk result (IsContextOf context.now board.new.laid frames.new.items) }
    ensures keeps { Keeps board.old board.new }
    ensures quiet { board.old.notes ≡ false → IsOk result }
    ensures shuffled { ShuffledBy D.dealing D.state dealer.old dealer.new }
    ensures dealing { D.dealing dealer.new ≡ D.dealing dealer.old }
{
    if asked_now(context, test, board.table(), &*frames) {
        return do_few(context, inside, board, frames, dealer);
    }
    Ok(())
}

#[tactic(auto, using(crate::proofs::ShuffleLemmas::not_shuffled))]
#[cycle(blocks)]
#[inline(never)]
fn repeat<D: Dealer>(
    context: &Context,
    count: &IntExpr,
    inside: &[Instruction],
    board: &mut Board,
    frames: &mut Frames,
    dealer: &mut D,
) -> Result<(), Memory>
    requires stands { IsContextOf context.now board.old.laid frames.old.items }
    requires well { in_scope context.now IsEffectUnder
        (repeat_of (int_seen count.now) (effects_in (list_seen inside.now))) }
    requires simple { AreSimple (list_seen inside.now) }
    ensures does { OnOk result (does_one context.now.about.now (D.dealing dealer.old) context.now.scope.now
        (repeat_of (int_seen count.now) (effects_in (list_seen inside.now)))
        (point_of board.old.laid frames.old.items (D.state dealer.old))
        ≡ point_of board.new.laid frames.new.items (D.state dealer.new)) }
    ensures stands { OnOk result (IsContextOf context.now board.new.laid frames.new.items) }
    ensures keeps { Keeps board.old board.new }
    ensures quiet { board.old.notes ≡ false → IsOk result }
    ensures shuffled { ShuffledBy D.dealing D.state dealer.old dealer.new }
    ensures dealing { D.dealing dealer.new ≡ D.dealing dealer.old }
{
    let times = times_of(int_now(context, count, board.table(), &*frames));
    for _ in 0..times {
        match do_inside(context, inside, board, frames, dealer) {
            Ok(()) => {}
            Err(Memory) => return Err(Memory),
        }
    }
    Ok(())
}

// How often effects are repeated, by a count.
#[inline(always)]
fn times_of(count: i64) -> u16
    ensures { result ≡ times_in count }
{
    count.clamp(0, MOST_TIMES) as u16
}

#[tactic(auto, using(crate::proofs::ShuffleLemmas::not_shuffled))]
#[cycle(blocks)]
#[inline(always)]
fn for_each<D: Dealer>(
    context: &Context,
    domain: &Domain,
    bound: u32,
    inside: &[Instruction],
    board: &mut Board,
    frames: &mut Frames,
    dealer: &mut D,
) -> Result<(), Memory>
    requires stands { IsContextOf context.now board.old.laid frames.old.items }
    requires well { in_scope context.now IsEffectUnder
        (for_each_of (domain_seen domain.now) bound (effects_in (list_seen inside.now))) }
    requires simple { AreSimple (list_seen inside.now) }
    ensures does { OnOk result (does_one context.now.about.now (D.dealing dealer.old) context.now.scope.now
        (for_each_of (domain_seen domain.now) bound (effects_in (list_seen inside.now)))
        (point_of board.old.laid frames.old.items (D.state dealer.old))
        ≡ point_of board.new.laid frames.new.items (D.state dealer.new)) }
    ensures stands { OnOk result (IsContextOf context.now board.new.laid frames.new.items) }
    ensures keeps { Keeps board.old board.new }
    ensures quiet { board.old.notes ≡ false → IsOk result }
    ensures shuffled { ShuffledBy D.dealing D.state dealer.old dealer.new }
    ensures dealing { D.dealing dealer.new ≡ D.dealing dealer.old }
{
    match domain {
        Domain::Players => {
            if is_change(inside) {
                return change_for_players(context, inside, board, frames, dealer);
            }
            do_for_players(context, inside, board, frames, dealer)
        }
        Domain::Coll(cards) => for_cards(context, cards, inside, board, frames, dealer),
        Domain::Parts(_, _) => unreachable!(),
    }
}

// Whether a block does nothing but change a number.
#[inline(always)]
fn is_change(code: &[Instruction]) -> bool {
    match code {
        [Instruction::Simple(effect)] => changed_by(effect).is_some(),
        _ => false,
    }
}

// Does effects for each player. A number that is found without the variable is changed with none.
#[tactic(auto, using(crate::proofs::ShuffleLemmas::not_shuffled))]
#[cycle(blocks)]
#[inline(never)]
fn change_for_players<D: Dealer>(
    context: &Context,
    inside: &[Instruction],
    board: &mut Board,
    frames: &mut Frames,
    dealer: &mut D,
) -> Result<(), Memory>
    requires stands { IsContextOf context.now board.old.laid frames.old.items }
    requires room { length context.now.scope.now < 5 }
    requires well { (member : PureBind CardValue)
        → AreEffectsUnder context.now.about.now.sheet (context.now.scope.now ++ member ∷ [])
        (effects_in (list_seen inside.now)) }
    requires simple { AreSimple (list_seen inside.now) }
    ensures does { OnOk result (fold
        (λ mid member. does context.now.about.now (D.dealing dealer.old) (context.now.scope.now ++ member ∷ [])
        (effects_in (list_seen inside.now)) mid)
        (point_of board.old.laid frames.old.items (D.state dealer.old))
        (map (λ n. player_bound n) (below context.now.about.now.sheet.players))
        ≡ point_of board.new.laid frames.new.items (D.state dealer.new)) }
    ensures stands { OnOk result (IsContextOf context.now board.new.laid frames.new.items) }
    ensures keeps { Keeps board.old board.new }
    ensures quiet { board.old.notes ≡ false → IsOk result }
    ensures shuffled { ShuffledBy D.dealing D.state dealer.old dealer.new }
    ensures dealing { D.dealing dealer.new ≡ D.dealing dealer.old }
{
    match change_for_each(context, inside, board.table(), &*frames) {
        Some(each) => change_all(context.about, each, board),
        None => do_for_players(context, inside, board, frames, dealer),
    }
}

// The same, one player after the other. A location that is found without the variable is gathered with none.
#[tactic(auto, using(crate::proofs::ShuffleLemmas::not_shuffled))]
#[cycle(blocks)]
#[inline(never)]
fn do_for_players<D: Dealer>(
    context: &Context,
    inside: &[Instruction],
    board: &mut Board,
    frames: &mut Frames,
    dealer: &mut D,
) -> Result<(), Memory>
    requires stands { IsContextOf context.now board.old.laid frames.old.items }
    requires room { length context.now.scope.now < 5 }
    requires well { (member : PureBind CardValue)
        → AreEffectsUnder context.now.about.now.sheet (context.now.scope.now ++ member ∷ [])
        (effects_in (list_seen inside.now)) }
    requires simple { AreSimple (list_seen inside.now) }
    ensures does { OnOk result (fold
        (λ mid member. does context.now.about.now (D.dealing dealer.old) (context.now.scope.now ++ member ∷ [])
        (effects_in (list_seen inside.now)) mid)
        (point_of board.old.laid frames.old.items (D.state dealer.old))
        (map (λ n. player_bound n) (below context.now.about.now.sheet.players))
        ≡ point_of board.new.laid frames.new.items (D.state dealer.new)) }
    ensures stands { OnOk result (IsContextOf context.now board.new.laid frames.new.items) }
    ensures keeps { Keeps board.old board.new }
    ensures quiet { board.old.notes ≡ false → IsOk result }
    ensures shuffled { ShuffledBy D.dealing D.state dealer.old dealer.new }
    ensures dealing { D.dealing dealer.new ≡ D.dealing dealer.old }
{
    match gather_for_each(context, inside) {
        Some(each) => return gather_all(context, each, board, &*frames),
        None => {}
    }
    let mut scope = one_more(context.scope, Bind::Player(0));
    for player in 0..context.about.sheet().players {
        let bind = Bind::Player(player);
        match do_for(context, &mut scope, bind, inside, board, frames, dealer) {
            Ok(()) => {}
            Err(Memory) => return Err(Memory),
        }
    }
    Ok(())
}

// Which cards they are is read before the first one's effects are done.
#[tactic(auto, using(crate::proofs::ShuffleLemmas::not_shuffled))]
#[cycle(blocks)]
#[inline(never)]
fn for_cards<D: Dealer>(
    context: &Context,
    cards: &CollExpr,
    inside: &[Instruction],
    board: &mut Board,
    frames: &mut Frames,
    dealer: &mut D,
) -> Result<(), Memory>
    requires stands { IsContextOf context.now board.old.laid frames.old.items }
    requires cards { in_scope context.now IsCollUnder (coll_seen cards.now) }
    requires room { length context.now.scope.now < 5 }
    requires well { (member : PureBind CardValue)
        → AreEffectsUnder context.now.about.now.sheet (context.now.scope.now ++ member ∷ [])
        (effects_in (list_seen inside.now)) }
    requires simple { AreSimple (list_seen inside.now) }
    ensures does { OnOk result (fold
        (λ mid member. does context.now.about.now (D.dealing dealer.old) (context.now.scope.now ++ member ∷ [])
        (effects_in (list_seen inside.now)) mid)
        (point_of board.old.laid frames.old.items (D.state dealer.old))
        (map (λ c. card_bound c) (coll_value
        (scene_in context.now board.old.laid frames.old.items) context.now.scope.now (coll_seen cards.now)))
        ≡ point_of board.new.laid frames.new.items (D.state dealer.new)) }
    ensures stands { OnOk result (IsContextOf context.now board.new.laid frames.new.items) }
    ensures keeps { Keeps board.old board.new }
    ensures quiet { board.old.notes ≡ false → IsOk result }
    ensures shuffled { ShuffledBy D.dealing D.state dealer.old dealer.new }
    ensures dealing { D.dealing dealer.new ≡ D.dealing dealer.old }
{
    let mut few = FewCards::new();
    if few_cards_now(context, cards, board.table(), &*frames, &mut few) {
        return for_these(context, few.as_slice(), inside, board, frames, dealer);
    }
    let mut room = Cards::new();
    cards_now(context, cards, board.table(), &*frames, &mut room);
    for_these(context, room.as_slice(), inside, board, frames, dealer)
}

// The same with these cards.
#[tactic(auto, using(crate::proofs::ShuffleLemmas::not_shuffled))]
#[cycle(blocks)]
fn for_these<D: Dealer>(
    context: &Context,
    cards: &[Card],
    inside: &[Instruction],
    board: &mut Board,
    frames: &mut Frames,
    dealer: &mut D,
) -> Result<(), Memory>
    requires stands { IsContextOf context.now board.old.laid frames.old.items }
    requires cards { All (λ card. IsCardOf context.now.about.now.shape (value_seen card)) cards.now }
    requires room { length context.now.scope.now < 5 }
    requires well { (member : PureBind CardValue)
        → AreEffectsUnder context.now.about.now.sheet (context.now.scope.now ++ member ∷ [])
        (effects_in (list_seen inside.now)) }
    requires simple { AreSimple (list_seen inside.now) }
    ensures does { OnOk result (fold
        (λ mid member. does context.now.about.now (D.dealing dealer.old) (context.now.scope.now ++ member ∷ [])
        (effects_in (list_seen inside.now)) mid)
        (point_of board.old.laid frames.old.items (D.state dealer.old))
        (map (λ c. card_bound c) (values_seen cards.now))
        ≡ point_of board.new.laid frames.new.items (D.state dealer.new)) }
    ensures stands { OnOk result (IsContextOf context.now board.new.laid frames.new.items) }
    ensures keeps { Keeps board.old board.new }
    ensures quiet { board.old.notes ≡ false → IsOk result }
    ensures shuffled { ShuffledBy D.dealing D.state dealer.old dealer.new }
    ensures dealing { D.dealing dealer.new ≡ D.dealing dealer.old }
{
    let mut scope = one_more(context.scope, Bind::Player(0));
    for card in cards {
        let bind = Bind::Card(*card);
        match do_for(context, &mut scope, bind, inside, board, frames, dealer) {
            Ok(()) => {}
            Err(Memory) => return Err(Memory),
        }
    }
    Ok(())
}

// Does effects with this for the innermost variable of the scope. The context's variables are those outside it.
#[tactic(auto, using(crate::proofs::ShuffleLemmas::not_shuffled))]
#[cycle(blocks)]
#[inline(always)]
fn do_for<'g, D: Dealer>(
    context: &Context,
    scope: &mut Bindings<'g>,
    bind: Bind<'g>,
    inside: &[Instruction],
    board: &mut Board,
    frames: &mut Frames,
    dealer: &mut D,
) -> Result<(), Memory>
    requires stands { IsContextOf context.now board.old.laid frames.old.items }
    requires scope { (other : PureBind CardValue) × (scope.old ≡ context.now.scope.now ++ other ∷ []) }
    requires bind { IsBindOf context.now.about.now.shape (bind_seen bind) }
    requires well { AreEffectsUnder context.now.about.now.sheet (context.now.scope.now ++ bind_seen bind ∷ [])
        (effects_in (list_seen inside.now)) }
    requires simple { AreSimple (list_seen inside.now) }
    ensures does { OnOk result (does context.now.about.now (D.dealing dealer.old)
        (context.now.scope.now ++ bind_seen bind.entry ∷ []) (effects_in (list_seen inside.now))
        (point_of board.old.laid frames.old.items (D.state dealer.old))
        ≡ point_of board.new.laid frames.new.items (D.state dealer.new)) }
    ensures scope { (other : PureBind CardValue) × (scope.new ≡ context.now.scope.now ++ other ∷ []) }
    ensures stands { OnOk result (IsContextOf context.now board.new.laid frames.new.items) }
    ensures keeps { Keeps board.old board.new }
    ensures quiet { board.old.notes ≡ false → IsOk result }
    ensures shuffled { ShuffledBy D.dealing D.state dealer.old dealer.new }
    ensures dealing { D.dealing dealer.new ≡ D.dealing dealer.old }
{
    scope.rebind(bind);
    let inner = Context {
        about: context.about,
        scope: &*scope,
        current: context.current,
    };
    do_inside(&inner, inside, board, frames, dealer)
}

/// Does the effects of a block. A single effect takes no loop.
#[tactic(auto, using(crate::proofs::ShuffleLemmas::not_shuffled))]
#[cycle(blocks)]
#[inline(always)]
pub fn do_few<D: Dealer>(
    context: &Context,
    code: &[Instruction],
    board: &mut Board,
    frames: &mut Frames,
    dealer: &mut D,
) -> Result<(), Memory>
    requires stands { IsContextOf context.now board.old.laid frames.old.items }
    requires well { in_scope context.now AreEffectsUnder (effects_in (list_seen code.now)) }
    requires simple { AreSimple (list_seen code.now) }
    ensures does { OnOk result (does context.now.about.now (D.dealing dealer.old) context.now.scope.now
        (effects_in (list_seen code.now))
        (point_of board.old.laid frames.old.items (D.state dealer.old))
        ≡ point_of board.new.laid frames.new.items (D.state dealer.new)) }
    ensures stands { OnOk result (IsContextOf context.now board.new.laid frames.new.items) }
    ensures keeps { Keeps board.old board.new }
    ensures quiet { board.old.notes ≡ false → IsOk result }
    ensures shuffled { ShuffledBy D.dealing D.state dealer.old dealer.new }
    ensures dealing { D.dealing dealer.new ≡ D.dealing dealer.old }
{
    match code {
        [Instruction::Simple(effect)] => do_simple(context, effect, board, frames, dealer),
        _ => do_block(context, code, board, frames, dealer),
    }
}

// Does the effects of a block. A single `if` takes no loop either.
#[tactic(auto, using(crate::proofs::ShuffleLemmas::not_shuffled))]
#[cycle(blocks)]
#[inline(always)]
fn do_inside<D: Dealer>(
    context: &Context,
    code: &[Instruction],
    board: &mut Board,
    frames: &mut Frames,
    dealer: &mut D,
) -> Result<(), Memory>
    requires stands { IsContextOf context.now board.old.laid frames.old.items }
    requires well { in_scope context.now AreEffectsUnder (effects_in (list_seen code.now)) }
    requires simple { AreSimple (list_seen code.now) }
    ensures does { OnOk result (does context.now.about.now (D.dealing dealer.old) context.now.scope.now
        (effects_in (list_seen code.now))
        (point_of board.old.laid frames.old.items (D.state dealer.old))
        ≡ point_of board.new.laid frames.new.items (D.state dealer.new)) }
    ensures stands { OnOk result (IsContextOf context.now board.new.laid frames.new.items) }
    ensures keeps { Keeps board.old board.new }
    ensures quiet { board.old.notes ≡ false → IsOk result }
    ensures shuffled { ShuffledBy D.dealing D.state dealer.old dealer.new }
    ensures dealing { D.dealing dealer.new ≡ D.dealing dealer.old }
{
    match sole_if(code) {
        Some((test, inside)) => do_if(context, test, inside, board, frames, dealer),
        None => do_few(context, code, board, frames, dealer),
    }
}

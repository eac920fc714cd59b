//! Copies of effects and alternatives.
ghost use Rattle.std.specs.Prelude.{◌≡◌, map, IfOk};
ghost use Rattle.rc_ast.specs.Effects.{effect_seen};
ghost use Rattle.rc_ast.specs.Items.{alt_seen};

use crate::Offer;
use crate::copies::{boxed_test, copy_card, copy_coll, copy_domain, copy_int, copy_test};
use rc_ast::{Alt, Effect};
use rc_deck::Memory;
use std::alloc::Global;

/// The same effect once more.
#[cycle(effects)]
pub(crate) fn copy_effect(alloc: Global, effect: &Effect) -> Result<Effect, Memory>
    ensures { IfOk result (λ copy. effect_seen copy ≡ effect_seen effect.now) }
{
    match effect {
        Effect::Move(card, end, loc) => Ok(Effect::Move(copy_card(alloc, card)?, *end, *loc)),
        Effect::MoveAll(cards, end, loc) => {
            Ok(Effect::MoveAll(copy_coll(alloc, cards)?, *end, *loc))
        }
        Effect::Remember(card, end, loc) => {
            Ok(Effect::Remember(copy_card(alloc, card)?, *end, *loc))
        }
        Effect::Forget(card) => Ok(Effect::Forget(copy_card(alloc, card)?)),
        Effect::Shuffle(loc) => Ok(Effect::Shuffle(*loc)),
        Effect::Set(num, value) => Ok(Effect::Set(*num, copy_int(alloc, value)?)),
        Effect::Inc(num, value) => Ok(Effect::Inc(*num, copy_int(alloc, value)?)),
        Effect::Dec(num, value) => Ok(Effect::Dec(*num, copy_int(alloc, value)?)),
        Effect::If(test, effects) => {
            let effects = copy_effects(alloc, effects)?;
            Ok(Effect::when(copy_test(alloc, test)?, effects))
        }
        Effect::Repeat(count, effects) => {
            let effects = copy_effects(alloc, effects)?;
            Ok(Effect::repeat(copy_int(alloc, count)?, effects))
        }
        Effect::Each(domain, bound, effects) => {
            let effects = copy_effects(alloc, effects)?;
            Ok(Effect::for_each(copy_domain(alloc, domain)?, *bound, effects))
        }
        Effect::Next(who) => Ok(Effect::Next(*who)),
        Effect::Reverse => Ok(Effect::Reverse),
        Effect::Peek(cards, who) => Ok(Effect::Peek(copy_coll(alloc, cards)?, *who)),
    }
}

#[cycle(effects)]
fn copy_effects(alloc: Global, effects: &Vec<Effect>) -> Result<Vec<Effect>, Memory>
    ensures { IfOk result (λ copy. map effect_seen copy.items ≡ map effect_seen effects.now.items) }
{
    let mut copies = Vec::with_capacity(alloc, effects.len())?;
    for effect in effects {
        let copy = copy_effect(alloc, effect)?;
        copies.push(copy)?;
    }
    Ok(copies)
}

/// The same alternatives once more, of which menus are to be made.
pub(crate) fn copy_offers(alloc: Global, alts: &Vec<Alt>) -> Result<Vec<Offer>, Memory>
    ensures { IfOk result (λ copy. copy.items ≡ map alt_seen alts.now.items) }
{
    let mut copies = Vec::with_capacity(alloc, alts.len())?;
    for alt in alts {
        let copy = copy_alt(alloc, alt)?;
        copies.push(Offer::new(copy))?;
    }
    Ok(copies)
}

#[cycle(alts)]
fn copy_alt(alloc: Global, alt: &Alt) -> Result<Alt, Memory>
    ensures { IfOk result (λ copy. alt_seen copy ≡ alt_seen alt.now) }
{
    match alt {
        Alt::Do(effects) => Ok(Alt::Do(copy_effects(alloc, effects)?)),
        Alt::If(test, effects) => {
            let test = boxed_test(alloc, test)?;
            Ok(Alt::If(test, copy_effects(alloc, effects)?))
        }
        Alt::Any(domain, bound, inner) => {
            let inner = boxed_alt(alloc, inner)?;
            Ok(Alt::Any(copy_domain(alloc, domain)?, *bound, inner))
        }
    }
}

#[cycle(alts)]
fn boxed_alt(alloc: Global, alt: &Alt) -> Result<Box<Alt>, Memory>
    ensures { IfOk result (λ copy. alt_seen copy.value ≡ alt_seen alt.now) }
{
    let copy = copy_alt(alloc, alt)?;
    Ok(Box::new(alloc, copy)?)
}

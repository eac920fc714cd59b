//! Code of effects.
ghost use Rattle.std.specs.Prelude.{◌≡◌, ◌<◌, ◌++◌, ◌∷◌, [], length, slice_set, OnOk, IfOk};
ghost use Rattle.rc_sheet_spec.specs.Sheet.{when, repeat as repeat_of, for_each as for_each_of};
ghost use Rattle.rc_ast.specs.Expressions.{int_seen, test_seen, domain_seen};
ghost use Rattle.rc_ast.specs.Effects.{effect_seen, effects_seen};
ghost use Rattle.rc_code.specs.Instruction.{simple, end_body};
ghost use Rattle.rc_code.specs.Compiled.{effect_code, effects_code};
ghost use Rattle.rc_code.specs.Seen.{instruction_seen, list_seen};

use crate::CompiledTest;
use crate::code::Instruction;
use crate::copied_effects::copy_effect;
use crate::copies::{copy_domain, copy_int, copy_test};
use rc_ast::{Domain, Effect, IntExpr, Test};
use rc_deck::Memory;
use std::alloc::Global;

// Puts an instruction behind the others.
pub(crate) fn push(list: &mut Vec<Instruction>, one: Instruction) -> Result<(), Memory>
    ensures { OnOk result (list_seen list.new.items ≡ list_seen list.old.items ++ instruction_seen one ∷ []) }
{
    match list.push(one) {
        Ok(()) => Ok(()),
        Err(_) => Err(Memory),
    }
}

// Writes the instruction whose insides stand behind it now, in place of what held its place.
#[tactic(auto, using(crate::proofs::ListLemmas::seen_set))]
pub(crate) fn write(list: &mut Vec<Instruction>, at: usize, one: Instruction)
    requires { at < length list.old.items }
    ensures { list_seen list.new.items ≡ slice_set (list_seen list.old.items) at (instruction_seen one) }
{
    list[at] = one;
}

// Puts the code of effects behind the others.
#[cycle(compiling)]
pub(crate) fn push_effects(
    alloc: Global,
    effects: &Vec<Effect>,
    list: &mut Vec<Instruction>,
) -> Result<(), Memory>
    ensures { OnOk result (list_seen list.new.items
        ≡ list_seen list.old.items ++ effects_code (effects_seen effects.now.items)) }
{
    for effect in effects {
        match push_effect(alloc, effect, list) {
            Ok(()) => {}
            Err(Memory) => return Err(Memory),
        }
    }
    Ok(())
}

// Puts the code of an effect behind the others.
#[cycle(compiling)]
fn push_effect(alloc: Global, effect: &Effect, list: &mut Vec<Instruction>) -> Result<(), Memory>
    ensures { OnOk result (list_seen list.new.items
        ≡ list_seen list.old.items ++ effect_code (effect_seen effect.now)) }
{
    match effect {
        Effect::If(test, effects) => push_if(alloc, effects, test, list),
        Effect::Repeat(count, effects) => push_repeat(alloc, effects, count, list),
        Effect::Each(domain, bound, effects) => push_each(alloc, effects, domain, *bound, list),
        Effect::Move(_, _, _) => push_simple(alloc, effect, list),
        Effect::MoveAll(_, _, _) => push_simple(alloc, effect, list),
        Effect::Remember(_, _, _) => push_simple(alloc, effect, list),
        Effect::Forget(_) => push_simple(alloc, effect, list),
        Effect::Shuffle(_) => push_simple(alloc, effect, list),
        Effect::Set(_, _) => push_simple(alloc, effect, list),
        Effect::Inc(_, _) => push_simple(alloc, effect, list),
        Effect::Dec(_, _) => push_simple(alloc, effect, list),
        Effect::Next(_) => push_simple(alloc, effect, list),
        Effect::Reverse => push_simple(alloc, effect, list),
        Effect::Peek(_, _) => push_simple(alloc, effect, list),
    }
}

// Puts an effect that holds no others behind the others.
fn push_simple(alloc: Global, effect: &Effect, list: &mut Vec<Instruction>) -> Result<(), Memory>
    requires { effect_code (effect_seen effect.now) ≡ simple (effect_seen effect.now) ∷ [] }
    ensures { OnOk result (list_seen list.new.items
        ≡ list_seen list.old.items ++ effect_code (effect_seen effect.now)) }
{
    match copy_effect(alloc, effect) {
        Ok(copy) => push(list, Instruction::Simple(copy)),
        Err(Memory) => Err(Memory),
    }
}

// Holds the place of an instruction, puts the code of the effects inside it behind that, and says how long this is.
#[cycle(compiling)]
pub(crate) fn push_inside(
    alloc: Global,
    effects: &Vec<Effect>,
    list: &mut Vec<Instruction>,
) -> Result<usize, Memory>
    ensures code { OnOk result (list_seen list.new.items
        ≡ list_seen list.old.items ++ end_body ∷ effects_code (effects_seen effects.now.items)) }
    ensures inside { IfOk result (λ inside. inside ≡ length (effects_code (effects_seen effects.now.items))) }
{
    match push(list, Instruction::End) {
        Ok(()) => {}
        Err(Memory) => return Err(Memory),
    }
    let from = list.len();
    match push_effects(alloc, effects, list) {
        Ok(()) => Ok(list.len() - from),
        Err(Memory) => Err(Memory),
    }
}

#[cycle(compiling)]
fn push_if(
    alloc: Global,
    effects: &Vec<Effect>,
    test: &Test,
    list: &mut Vec<Instruction>,
) -> Result<(), Memory>
    ensures { OnOk result (list_seen list.new.items
        ≡ list_seen list.old.items ++ effect_code (when (test_seen test.now) (effects_seen effects.now.items))) }
{
    let at = list.len();
    let inside = match push_inside(alloc, effects, list) {
        Ok(inside) => inside,
        Err(Memory) => return Err(Memory),
    };
    match copy_test(alloc, test) {
        Ok(test) => {
            write(list, at, Instruction::If(CompiledTest::new(test), inside));
            Ok(())
        }
        Err(Memory) => Err(Memory),
    }
}

#[cycle(compiling)]
fn push_repeat(
    alloc: Global,
    effects: &Vec<Effect>,
    count: &IntExpr,
    list: &mut Vec<Instruction>,
) -> Result<(), Memory>
    ensures { OnOk result (list_seen list.new.items
        ≡ list_seen list.old.items ++ effect_code (repeat_of (int_seen count.now) (effects_seen effects.now.items))) }
{
    let at = list.len();
    let inside = match push_inside(alloc, effects, list) {
        Ok(inside) => inside,
        Err(Memory) => return Err(Memory),
    };
    match copy_int(alloc, count) {
        Ok(count) => {
            write(list, at, Instruction::Repeat(count, inside));
            Ok(())
        }
        Err(Memory) => Err(Memory),
    }
}

#[cycle(compiling)]
fn push_each(
    alloc: Global,
    effects: &Vec<Effect>,
    domain: &Domain,
    bound: u32,
    list: &mut Vec<Instruction>,
) -> Result<(), Memory>
    ensures { OnOk result (list_seen list.new.items
        ≡ list_seen list.old.items ++ effect_code
        (for_each_of (domain_seen domain.now) bound (effects_seen effects.now.items))) }
{
    let at = list.len();
    let inside = match push_inside(alloc, effects, list) {
        Ok(inside) => inside,
        Err(Memory) => return Err(Memory),
    };
    match copy_domain(alloc, domain) {
        Ok(domain) => {
            write(list, at, Instruction::Each(domain, bound, inside));
            Ok(())
        }
        Err(Memory) => Err(Memory),
    }
}

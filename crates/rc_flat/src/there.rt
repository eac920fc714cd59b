//! What stands at a place of the code, and where the code behind it begins.
ghost use Rattle.std.specs.Prelude.{◌≡◌, ℕ, ◌+◌, ◌<◌, ◌≤◌, ◌^◌, List, length, map, drop, slice_get, Some};
ghost use Rattle.rc_sheet_spec.specs.Sheet.{Class as PureClass, Test as PureTest, Alt as PureAlt};
ghost use Rattle.rc_code.specs.Instruction.{Block as PureBlock, begin_stage, offer};
ghost use Rattle.rc_code.specs.Seen.{block_seen, instruction_seen, list_seen};
ghost use Rattle.rc_flat.specs.Places.{IsStageAt};
ghost use Rattle.rc_flat.specs.Flat.{IsChoiceAt};

use rc_ast::Class;
use rc_code::{Block, CompiledTest, Instruction, Offer};

/// A stage: its class, its end test, and how many instructions are inside it.
#[derive(Drop)]
pub struct StageThere<'c> {
    pub class: Class,
    pub end: &'c CompiledTest,
    pub inside: usize,
}

/// A choice: its alternatives, the blocks of their effects, and how many instructions are inside it.
#[derive(Drop)]
pub struct ChoiceThere<'c> {
    pub alts: &'c [Offer],
    pub blocks: &'c [Block],
    pub inside: usize,
}

fn stage_in(first: &Instruction) -> StageThere<'_>
    requires { (number : ℕ) × (class : PureClass) × (end : PureTest) × (inside : ℕ)
        × (instruction_seen first.now ≡ begin_stage number class end inside) }
    ensures { (number : ℕ) × (instruction_seen first.now
        ≡ begin_stage number result.class result.end.now result.inside) }
{
    match first {
        Instruction::Stage {
            class,
            end,
            inside,
            ..
        } => StageThere {
            class: *class,
            end,
            inside: *inside,
        },
        Instruction::Simple(_) => unreachable!(),
        Instruction::If(_, _) => unreachable!(),
        Instruction::Repeat(_, _) => unreachable!(),
        Instruction::Each(_, _, _) => unreachable!(),
        Instruction::Do(_) => unreachable!(),
        Instruction::Choice { .. } => unreachable!(),
        Instruction::End => unreachable!(),
    }
}

/// The stage that begins at a place.
pub fn stage_there(code: &[Instruction], place: usize) -> StageThere<'_>
    requires { IsStageAt (list_seen code.now) place }
    ensures there { (number : ℕ) × (slice_get (list_seen code.now) place
        ≡ Some (begin_stage number result.class result.end.now result.inside)) }
    ensures fits { place + 1 < 2 ^ 64 }
{
    match code.get(place) {
        Some(first) => stage_in(first),
        None => unreachable!(),
    }
}

fn choice_in(first: &Instruction) -> ChoiceThere<'_>
    requires { (site : ℕ) × (alts : List PureAlt) × (blocks : List PureBlock) × (inside : ℕ)
        × (instruction_seen first.now ≡ offer site alts blocks inside) }
    ensures { (site : ℕ) × (instruction_seen first.now
        ≡ offer site result.alts.now (map block_seen result.blocks.now) result.inside) }
{
    match first {
        Instruction::Choice {
            alts,
            blocks,
            inside,
            ..
        } => ChoiceThere {
            alts,
            blocks,
            inside: *inside,
        },
        Instruction::Simple(_) => unreachable!(),
        Instruction::If(_, _) => unreachable!(),
        Instruction::Repeat(_, _) => unreachable!(),
        Instruction::Each(_, _, _) => unreachable!(),
        Instruction::Do(_) => unreachable!(),
        Instruction::Stage { .. } => unreachable!(),
        Instruction::End => unreachable!(),
    }
}

/// The choice that stands at a place.
pub fn choice_there(code: &[Instruction], place: usize) -> ChoiceThere<'_>
    requires { IsChoiceAt (list_seen code.now) place }
    ensures { (site : ℕ) × (slice_get (list_seen code.now) place
        ≡ Some (offer site result.alts.now (map block_seen result.blocks.now) result.inside)) }
{
    match code.get(place) {
        Some(first) => choice_in(first),
        None => unreachable!(),
    }
}

/// Where the code behind so many instructions begins, that stand from a place on.
#[inline(always)]
pub fn behind(code: &[Instruction], from: usize, inside: usize) -> usize
    requires { from ≤ length code.now }
    ensures { drop result (list_seen code.now) ≡ drop (from + inside) (list_seen code.now) }
{
    from + inside.min(code.len() - from)
}

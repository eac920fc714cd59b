//! Code of items, and the places of the choices in it.
ghost use Rattle.std.specs.Prelude.{◌≡◌, ◌≤◌, ◌<◌, ◌+◌, ◌-◌, [], ◌∷◌, ◌++◌, length, map, OnOk, IfOk};
ghost use Rattle.rc_sheet_spec.specs.Sheet.{do_item, stage as stage_of, choice as choice_of};
ghost use Rattle.rc_play_spec.specs.Menu.{effects_of};
ghost use Rattle.rc_ast.specs.Expressions.{test_seen};
ghost use Rattle.rc_ast.specs.Effects.{effects_seen};
ghost use Rattle.rc_ast.specs.Items.{alt_seen, alts_seen, item_seen, items_seen};
ghost use Rattle.rc_code.specs.Instruction.{end_body};
ghost use Rattle.rc_code.specs.Compiled.{effects_code, alts_code, blocks_from, item_code, items_code, item_sites, items_sites};
ghost use Rattle.rc_code.specs.Seen.{block_seen, list_seen, place_seen};

use crate::CompiledTest;
use crate::code::{Block, Instruction, SitePlace};
use crate::copied_effects::copy_offers;
use crate::copies::copy_test;
use crate::effects::{push, push_effects, push_inside, write};
use rc_ast::{Alt, Class, Effect, SheetItem, Test};
use rc_deck::Memory;
use std::alloc::Global;

/// Puts the code of items behind the others, and the places of their choices behind the others' places. The stages that
/// are open begin at the places `outer`, from outside to inside.
#[cycle(items)]
pub(crate) fn push_items(
    alloc: Global,
    items: &Vec<SheetItem>,
    list: &mut Vec<Instruction>,
    outer: &mut Vec<usize>,
    sites: &mut Vec<SitePlace>,
) -> Result<(), Memory>
    ensures code { OnOk result (list_seen list.new.items
        ≡ list_seen list.old.items ++ items_code (items_seen items.now.items)) }
    ensures places { OnOk result (map place_seen sites.new.items
        ≡ map place_seen sites.old.items
        ++ items_sites outer.old.items (length list.old.items) (items_seen items.now.items)) }
    ensures outer { OnOk result (outer.new.items ≡ outer.old.items) }
{
    for item in items {
        match push_item(alloc, item, list, outer, sites) {
            Ok(()) => {}
            Err(Memory) => return Err(Memory),
        }
    }
    Ok(())
}

#[cycle(items)]
fn push_item(
    alloc: Global,
    item: &SheetItem,
    list: &mut Vec<Instruction>,
    outer: &mut Vec<usize>,
    sites: &mut Vec<SitePlace>,
) -> Result<(), Memory>
    ensures code { OnOk result (list_seen list.new.items ≡ list_seen list.old.items ++ item_code (item_seen item.now)) }
    ensures places { OnOk result (map place_seen sites.new.items
        ≡ map place_seen sites.old.items ++ item_sites outer.old.items (length list.old.items) (item_seen item.now)) }
    ensures outer { OnOk result (outer.new.items ≡ outer.old.items) }
{
    match item {
        SheetItem::Do(effects) => push_do(alloc, effects, list),
        SheetItem::Stage {
            number,
            class,
            end,
            body,
        } => push_stage(alloc, body, *number, *class, end, list, outer, sites),
        SheetItem::Choice { site, alts } => push_choice(alloc, *site, alts, list, outer, sites),
    }
}

fn push_do(alloc: Global, effects: &Vec<Effect>, list: &mut Vec<Instruction>) -> Result<(), Memory>
    ensures { OnOk result (list_seen list.new.items
        ≡ list_seen list.old.items ++ item_code (do_item (effects_seen effects.now.items))) }
{
    let at = list.len();
    match push_inside(alloc, effects, list) {
        Ok(inside) => {
            write(list, at, Instruction::Do(inside));
            Ok(())
        }
        Err(Memory) => Err(Memory),
    }
}

#[cycle(items)]
fn push_stage(
    alloc: Global,
    body: &Vec<SheetItem>,
    number: u16,
    class: Class,
    end: &Test,
    list: &mut Vec<Instruction>,
    outer: &mut Vec<usize>,
    sites: &mut Vec<SitePlace>,
) -> Result<(), Memory>
    ensures code { OnOk result (list_seen list.new.items
        ≡ list_seen list.old.items ++ item_code
        (stage_of number class (test_seen end.now) (items_seen body.now.items))) }
    ensures places { OnOk result (map place_seen sites.new.items
        ≡ map place_seen sites.old.items
        ++ items_sites (outer.old.items ++ length list.old.items ∷ []) (length list.old.items + 1)
        (items_seen body.now.items)) }
    ensures outer { OnOk result (outer.new.items ≡ outer.old.items) }
{
    let at = list.len();
    let inside = match push_inside_stage(alloc, body, list, outer, sites) {
        Ok(inside) => inside,
        Err(Memory) => return Err(Memory),
    };
    match copy_test(alloc, end) {
        Ok(end) => {
            write(
                list,
                at,
                Instruction::Stage {
                    number,
                    class,
                    end: CompiledTest::new(end),
                    inside,
                },
            );
            Ok(())
        }
        Err(Memory) => Err(Memory),
    }
}

// Holds the place of a stage, puts the code of its body and the body's end behind that, and says how long these are.
#[cycle(items)]
fn push_inside_stage(
    alloc: Global,
    body: &Vec<SheetItem>,
    list: &mut Vec<Instruction>,
    outer: &mut Vec<usize>,
    sites: &mut Vec<SitePlace>,
) -> Result<usize, Memory>
    ensures code { OnOk result (list_seen list.new.items
        ≡ list_seen list.old.items ++ end_body ∷ (items_code (items_seen body.now.items) ++ end_body ∷ [])) }
    ensures inside { IfOk result (λ inside. inside ≡ length (items_code (items_seen body.now.items)) + 1) }
    ensures places { OnOk result (map place_seen sites.new.items
        ≡ map place_seen sites.old.items
        ++ items_sites (outer.old.items ++ length list.old.items ∷ []) (length list.old.items + 1)
        (items_seen body.now.items)) }
    ensures outer { OnOk result (outer.new.items ≡ outer.old.items) }
{
    match push(list, Instruction::End) {
        Ok(()) => {}
        Err(Memory) => return Err(Memory),
    }
    let from = list.len();
    match push_body(alloc, body, list, outer, sites) {
        Ok(()) => {}
        Err(Memory) => return Err(Memory),
    }
    match push(list, Instruction::End) {
        Ok(()) => {}
        Err(Memory) => return Err(Memory),
    }
    Ok(list.len() - from)
}

// Puts the code of a stage's body behind the others. The stage begins at the last place.
#[cycle(items)]
fn push_body(
    alloc: Global,
    body: &Vec<SheetItem>,
    list: &mut Vec<Instruction>,
    outer: &mut Vec<usize>,
    sites: &mut Vec<SitePlace>,
) -> Result<(), Memory>
    requires { 0 < length list.old.items }
    ensures code { OnOk result (list_seen list.new.items
        ≡ list_seen list.old.items ++ items_code (items_seen body.now.items)) }
    ensures places { OnOk result (map place_seen sites.new.items
        ≡ map place_seen sites.old.items
        ++ items_sites (outer.old.items ++ (length list.old.items - 1) ∷ []) (length list.old.items)
        (items_seen body.now.items)) }
    ensures outer { OnOk result (outer.new.items ≡ outer.old.items) }
{
    let depth = outer.len();
    match outer.push(list.len() - 1) {
        Ok(()) => {}
        Err(_) => return Err(Memory),
    }
    match push_items(alloc, body, list, outer, sites) {
        Ok(()) => {}
        Err(Memory) => return Err(Memory),
    }
    outer.truncate(depth);
    Ok(())
}

fn push_choice(
    alloc: Global,
    site: u8,
    alts: &Vec<Alt>,
    list: &mut Vec<Instruction>,
    outer: &Vec<usize>,
    sites: &mut Vec<SitePlace>,
) -> Result<(), Memory>
    ensures code { OnOk result (list_seen list.new.items
        ≡ list_seen list.old.items ++ item_code (choice_of site (alts_seen alts.now.items))) }
    ensures places { OnOk result (map place_seen sites.new.items
        ≡ map place_seen sites.old.items ++ record { outer = outer.now.items; place = length list.old.items } ∷ []) }
{
    match push_place(alloc, outer, list.len(), sites) {
        Ok(()) => {}
        Err(Memory) => return Err(Memory),
    }
    push_offer(alloc, site, alts, list)
}

// Puts the place of a choice behind the others.
fn push_place(
    alloc: Global,
    outer: &Vec<usize>,
    place: usize,
    sites: &mut Vec<SitePlace>,
) -> Result<(), Memory>
    ensures { OnOk result (map place_seen sites.new.items
        ≡ map place_seen sites.old.items ++ record { outer = outer.now.items; place = place } ∷ []) }
{
    let outer = match outer.to_vec(alloc) {
        Ok(outer) => outer,
        Err(_) => return Err(Memory),
    };
    match sites.push(SitePlace { outer, place }) {
        Ok(()) => Ok(()),
        Err(_) => Err(Memory),
    }
}

// Puts the code of a choice behind the others.
fn push_offer(
    alloc: Global,
    site: u8,
    alts: &Vec<Alt>,
    list: &mut Vec<Instruction>,
) -> Result<(), Memory>
    ensures { OnOk result (list_seen list.new.items
        ≡ list_seen list.old.items ++ item_code (choice_of site (alts_seen alts.now.items))) }
{
    let at = list.len();
    let blocks = match push_inside_choice(alloc, alts, list) {
        Ok(blocks) => blocks,
        Err(Memory) => return Err(Memory),
    };
    let inside = list.len() - at - 1;
    match copy_offers(alloc, alts) {
        Ok(alts) => {
            write(
                list,
                at,
                Instruction::Choice {
                    site,
                    alts,
                    blocks,
                    inside,
                },
            );
            Ok(())
        }
        Err(Memory) => Err(Memory),
    }
}

// Holds the place of a choice, puts the effects of its alternatives behind that, and says where each one's lie.
fn push_inside_choice(
    alloc: Global,
    alts: &Vec<Alt>,
    list: &mut Vec<Instruction>,
) -> Result<Vec<Block>, Memory>
    ensures code { OnOk result (list_seen list.new.items
        ≡ list_seen list.old.items ++ end_body ∷ alts_code (alts_seen alts.now.items)) }
    ensures blocks { IfOk result (λ blocks. map block_seen blocks.items ≡ blocks_from 0 (alts_seen alts.now.items)) }
{
    match push(list, Instruction::End) {
        Ok(()) => {}
        Err(Memory) => return Err(Memory),
    }
    let mut blocks = Vec::new(alloc);
    match push_alts(alloc, alts, list, &mut blocks) {
        Ok(()) => Ok(blocks),
        Err(Memory) => Err(Memory),
    }
}

// Puts the effects of alternatives behind the others, and where each one's lie, counted from here, behind the blocks.
fn push_alts(
    alloc: Global,
    alts: &Vec<Alt>,
    list: &mut Vec<Instruction>,
    blocks: &mut Vec<Block>,
) -> Result<(), Memory>
    ensures code { OnOk result (list_seen list.new.items
        ≡ list_seen list.old.items ++ alts_code (alts_seen alts.now.items)) }
    ensures blocks { OnOk result (map block_seen blocks.new.items
        ≡ map block_seen blocks.old.items ++ blocks_from 0 (alts_seen alts.now.items)) }
{
    let from = list.len();
    for alt in alts {
        let before = list.len() - from;
        match push_alt(alloc, alt, list) {
            Ok(()) => {}
            Err(Memory) => return Err(Memory),
        }
        let inside = list.len() - from - before;
        match blocks.push(Block { before, inside }) {
            Ok(()) => {}
            Err(_) => return Err(Memory),
        }
    }
    Ok(())
}

// Puts the effects of an alternative behind the others.
fn push_alt(alloc: Global, alt: &Alt, list: &mut Vec<Instruction>) -> Result<(), Memory>
    ensures { OnOk result (list_seen list.new.items
        ≡ list_seen list.old.items ++ effects_code (effects_of (alt_seen alt.now))) }
{
    match alt {
        Alt::Do(effects) => push_effects(alloc, effects, list),
        Alt::If(_, effects) => push_effects(alloc, effects, list),
        Alt::Any(_, _, inner) => push_alt(alloc, inner, list),
    }
}

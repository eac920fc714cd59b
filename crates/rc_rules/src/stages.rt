//! Whose turn it is in the open stages.
ghost use Rattle.std.specs.Prelude.{◌≡◌, length, slice_get};
ghost use Rattle.rc_sheet_spec.specs.WellFormed as well;
ghost use Rattle.rc_play_spec.specs.Owners as owners;
ghost use Rattle.rc_play_spec.specs.Owners.{classes_in, classes_in_item};
ghost use Rattle.rc_ast.specs.Sheet.{sheet_seen};
ghost use Rattle.rc_ast.specs.Items.{item_seen, items_seen};
ghost use Rattle.rc_rules.specs.Control.{frames_seen};
ghost use Rattle.rc_rules.specs.Stages.{passed};

use crate::about::About;
use crate::control::Frame;
use rc_ast::{Sheet, SheetItem};
use rc_base::Class;
use std::ops::ControlFlow;

/// The class of the stage with this number, if there is one. Stages are numbered in the order of the text.
#[tactic(auto, using(crate::proofs::StageLemmas::found_at))]
pub fn class_of_stage(sheet: &Sheet, number: u16) -> Option<Class>
    ensures { result ≡ slice_get (classes_in (sheet_seen sheet.now).items) number }
{
    pass_items(&sheet.items, number).break_value()
}

// Passes so many stages of an item: the class of the next one, or how many are still to be passed behind the item.
#[cycle(items)]
fn pass_item(item: &SheetItem, number: u16) -> ControlFlow<Class, u16>
    ensures { result ≡ passed (classes_in_item (item_seen item.now)) number }
{
    match item {
        SheetItem::Stage { class, .. } if number == 0 => ControlFlow::Break(*class),
        SheetItem::Stage { body, .. } => pass_items(body, number - 1),
        SheetItem::Do(_) | SheetItem::Choice { .. } => ControlFlow::Continue(number),
    }
}

#[cycle(items)]
fn pass_items(items: &Vec<SheetItem>, number: u16) -> ControlFlow<Class, u16>
    ensures { result ≡ passed (classes_in (items_seen items.now.items)) number }
{
    let mut left = number;
    for item in items {
        match pass_item(item, left) {
            ControlFlow::Continue(rest) => left = rest,
            ControlFlow::Break(class) => return ControlFlow::Break(class),
        }
    }
    ControlFlow::Continue(left)
}

/// Whether the stage with this number is of this class.
#[inline(always)]
pub fn is_stage_of(about: &About, class: Class, number: u16) -> bool
    ensures { result ≡ owners.is_stage_of about.now.sheet class number }
{
    match about.lookup().stage(number) {
        Some(other) => other == class,
        None => false,
    }
}

/// The current member of the innermost open stage of a class, or 0 where none is open.
pub fn current_in(about: &About, class: Class, frames: &[Frame]) -> u8
    ensures { result ≡ owners.current_in about.now.sheet class (frames_seen frames.now) }
{
    let mut rest = frames;
    while let Some((frame, outer)) = rest.split_last() {
        if is_stage_of(about, class, frame.stage) {
            return frame.member;
        }
        rest = outer;
    }
    0
}

/// How many players, teams or games there are.
pub fn owner_count(sheet: &Sheet, class: Class) -> usize
    ensures { result ≡ well.owner_count (sheet_seen sheet.now) class }
{
    match class {
        Class::Game => 1,
        Class::Player => sheet.players as usize,
        Class::Team => match &sheet.teams {
            Some(teams) => teams.list.len(),
            None => sheet.players as usize,
        },
    }
}

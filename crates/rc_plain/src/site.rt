//! The path to a choice.
ghost use Rattle.std.specs.Prelude.{◌≡◌, ℕ, ◌+◌, ◌<◌, ◌≤◌, [], length, IfSome, IfNone};
ghost use Rattle.rc_play_spec.specs.Menu.{alts_at};
ghost use Rattle.rc_play_spec.specs.Path.{items_depth};
ghost use Rattle.rc_ast.specs.Items.{items_seen};
ghost use Rattle.rc_plain.specs.Paths.{IsPathTo, Finds};

use crate::path::{Path, Places};
use arrayvec::ArrayVec;
use rc_ast::SheetItem;
use rc_play_spec::few_stages_are_open;
use rc_rules::About;

/// The path to the choice with this site, where there is one.
pub fn path_of(about: &About, site: u8) -> Path
    requires { 0 < length (alts_at about.now.sheet site) }
    ensures { IsPathTo about.now.sheet site result }
{
    match path_to(about, site) {
        Some(path) => path,
        None => unreachable!(),
    }
}

// The path to the choice with this site, if there is one.
fn path_to(about: &About, site: u8) -> Option<Path>
    ensures found { IfSome result (IsPathTo about.now.sheet site) }
    ensures none { IfNone result (alts_at about.now.sheet site ≡ []) }
{
    few_stages_are_open();
    let mut outer = ArrayVec::new();
    match find(&about.sheet().items, site, &mut outer) {
        Some(next) => Some(Path::to(outer, next)),
        None => None,
    }
}

// The place of the choice in its body. The places of the stages around it go behind those that are there.
#[cycle(items)]
fn find(items: &Vec<SheetItem>, site: u8, outer: &mut Places) -> Option<usize>
    requires room { length outer.old.items + items_depth (items_seen items.now.items) ≤ 63 }
    ensures { Finds (items_seen items.now.items) site outer.old.items outer.new.items result }
{
    let mut place = 0;
    for item in items {
        match item {
            SheetItem::Do(_) => {}
            SheetItem::Choice { site: other, .. } => {
                if *other == site {
                    return Some(place);
                }
            }
            SheetItem::Stage { body, .. } => {
                outer.push(place);
                let found = find(body, site, outer);
                if found.is_some() {
                    return found;
                }
                outer.pop();
            }
        }
        place += 1;
    }
    None
}

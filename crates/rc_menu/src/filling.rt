//! Menus of decisions.
ghost use Rattle.std.specs.Prelude.{◌≡◌};
ghost use Rattle.rc_play_spec.specs.Menu.{alts_at};
ghost use Rattle.rc_play_spec.specs.About.{menu_at};
ghost use Rattle.rc_ast.specs.Items.{alts_seen};
ghost use Rattle.rc_rules.specs.Control.{control_seen, frames_seen};
ghost use Rattle.rc_rules.specs.Menu.{menu_seen};
ghost use Rattle.rc_value.specs.Current.{IsCurrent};

use crate::menu::{fill_menu, fill_offers};
use rc_ast::Alt;
use rc_code::Offer;
use rc_rules::{About, Control, Items, Menu};
use rc_table::Table;
use rc_value::{Current, Scene};

/// Writes what the choice with this site offers, whose alternatives these are, into a menu, whatever it held before.
pub fn fill_menu_at(
    about: &About,
    current: Current,
    table: &Table,
    control: &Control,
    site: u8,
    alts: &[Alt],
    menu: &mut Items,
)
    requires laid { table.now.shape ≡ about.now.shape }
    requires current { IsCurrent about.now.sheet (frames_seen control.now.frames.items) current }
    requires alts { alts_seen alts.now ≡ alts_at about.now.sheet site }
    ensures { menu_seen menu.new.items ≡ menu_at about.now site table.now.table (control_seen control.now) }
{
    let scene = Scene::with_current(
        about.sheet(),
        about.lookup(),
        table,
        control.frames.as_slice(),
        current,
    );
    fill_menu(&scene, site, alts, menu);
}

/// The same with alternatives whose guards may be known in parts.
#[inline(always)]
pub fn fill_offers_at(
    about: &About,
    current: Current,
    table: &Table,
    control: &Control,
    site: u8,
    offers: &[Offer],
    menu: &mut Items,
)
    requires laid { table.now.shape ≡ about.now.shape }
    requires current { IsCurrent about.now.sheet (frames_seen control.now.frames.items) current }
    requires offers { offers.now ≡ alts_at about.now.sheet site }
    ensures { menu_seen menu.new.items ≡ menu_at about.now site table.now.table (control_seen control.now) }
{
    let scene = Scene::with_current(
        about.sheet(),
        about.lookup(),
        table,
        control.frames.as_slice(),
        current,
    );
    fill_offers(&scene, site, offers, menu);
}

/// The same menu as a value of its own.
pub fn copy_menu(menu: &Items) -> Menu
    ensures { menu_seen result.items ≡ menu_seen menu.now.items }
{
    let mut copy = Menu::new();
    // what a menu keeps
    let _fits = menu.len();
    for item in menu.as_slice() {
        copy.push(item.copy());
    }
    copy
}

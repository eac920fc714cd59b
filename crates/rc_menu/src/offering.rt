//! Menus that grow by the cards of an innermost domain.
ghost use Rattle.std.specs.Prelude.{◌≡◌, ◌<◌, ◌+◌, ◌≤◌, ◌++◌, ◌∷◌, [], true, false, length, map, take, slice_index_or, Some, None, IfSome, if◌then◌else◌};
ghost use Rattle.rc_base.specs.Numbers.{below};
ghost use Rattle.rc_base.specs.Limits.{most_items, most_in_list};
ghost use Rattle.rc_sheet_spec.specs.Sheet.{cards_in};
ghost use Rattle.rc_play_spec.specs.Menu.{from_each};
ghost use Rattle.rc_play_spec.specs.Value.{both, nat_same, coll_value};
ghost use Rattle.rc_ast.specs.Names.{loc_seen};
ghost use Rattle.rc_ast.specs.Expressions.{test_seen};
ghost use Rattle.rc_code.specs.Guards.{guard_meant, IsFixedGuard};
ghost use Rattle.rc_rules.specs.Menu.{item_seen, menu_seen};
ghost use Rattle.rc_menu.specs.Asks.{ask_value, met_value, AllFit, joined, told_of};
ghost use Rattle.rc_value.specs.Depth.{test_depth};
ghost use Rattle.rc_menu.specs.Menu.{extended};
ghost use Rattle.rc_value.specs.Scene.{scene_seen};

use crate::asks::{
    Asks, SoughtCard, are_sought, has_value, joined_answer, joined_met, parts_of, sole_value,
};
use crate::following::{offer_passing, split_of};
use crate::parts::{is_one_enough, parts_settle};
use rc_ast::Test;
use rc_code::Guard;
use rc_rules::{Item, Items, Spots};
use rc_value::{Bindings, Collection, Scene, ids_of};

/// The item with one more position.
#[inline(always)]
pub(crate) fn with_spot(item: &Item, spot: u16) -> Item
    requires { length item.now.spots.items < 4 }
    ensures { item_seen result ≡ extended (item_seen item.now) (spot ∷ []) }
{
    if is_bare(item) {
        return first_spot(item.alt, spot);
    }
    match sole_spot(item) {
        Some(first) => second_spot(item.alt, first, spot),
        None => further_spot(item, spot),
    }
}

// Its position, if it has one and no more.
#[inline(always)]
fn sole_spot(item: &Item) -> Option<u16>
    ensures { IfSome result (λ first. item.now.spots.items ≡ first ∷ []) }
{
    if item.spots.len() != 1 {
        return None;
    }
    Some(item.spots[0])
}

// An item with two positions: fewer items have more, and a list is copied in a loop.
#[inline(always)]
fn second_spot(alt: usize, first: u16, spot: u16) -> Item
    ensures { item_seen result ≡ record { alt = alt; spots = first ∷ spot ∷ [] } }
{
    let mut spots = Spots::new();
    spots.push(first);
    spots.push(spot);
    Item { alt, spots }
}

// An item with further positions.
#[inline(never)]
fn further_spot(item: &Item, spot: u16) -> Item
    requires { length item.now.spots.items < 4 }
    ensures { item_seen result ≡ extended (item_seen item.now) (spot ∷ []) }
{
    let mut next = item.copy();
    next.spots.push(spot);
    next
}

// Whether it has no position yet.
#[inline(always)]
fn is_bare(item: &Item) -> bool
    ensures { result ≡ true → item.now.spots.items ≡ [] }
{
    item.spots.is_empty()
}

// An item with one position: most have no more, and nothing is to be copied.
#[inline(always)]
fn first_spot(alt: usize, spot: u16) -> Item
    ensures { item_seen result ≡ record { alt = alt; spots = spot ∷ [] } }
{
    let mut spots = Spots::from([spot, 0, 0, 0]);
    spots.truncate(1);
    Item { alt, spots }
}

/// Whether nothing more goes into a menu.
#[inline(always)]
pub(crate) fn is_filled(menu: &Items) -> bool
    ensures full { result ≡ true → length menu.now.items ≡ most_items }
    ensures free { result ≡ false → length menu.now.items < most_items }
{
    menu.is_full()
}

// Puts the item with one more position behind the others, and says whether the menu is full then.
#[inline(always)]
fn put_at(menu: &mut Items, item: &Item, spot: u16) -> bool
    requires spots { length item.now.spots.items < 4 }
    requires free { length menu.old.items < most_items }
    ensures menu { menu_seen menu.new.items ≡ take most_items (menu_seen menu.old.items
        ++ extended (extended (item_seen item.now) (spot ∷ [])) [] ∷ []) }
    ensures full { result ≡ true → length menu.new.items ≡ most_items }
    ensures free { result ≡ false → length menu.new.items < most_items }
{
    // each pushes its own item: one that may be either would be put together elsewhere, and copied
    if is_bare(item) {
        menu.push(first_spot(item.alt, spot));
        return is_filled(menu);
    }
    push_behind(menu, item, spot);
    is_filled(menu)
}

// Pushes the item with one more position behind those that it has.
#[inline(never)]
fn push_behind(menu: &mut Items, item: &Item, spot: u16)
    requires spots { length item.now.spots.items < 4 }
    requires free { length menu.old.items < most_items }
    ensures { menu_seen menu.new.items ≡ menu_seen menu.old.items ++ extended (item_seen item.now) (spot ∷ []) ∷ [] }
{
    menu.push(with_spot(item, spot));
}

// The same where it passes.
#[inline(always)]
fn put_at_if(menu: &mut Items, item: &Item, spot: u16, passes: bool) -> bool
    requires spots { length item.now.spots.items < 4 }
    requires free { length menu.old.items < most_items }
    ensures menu { menu_seen menu.new.items ≡ take most_items (menu_seen menu.old.items
        ++ (if passes then extended (extended (item_seen item.now) (spot ∷ [])) [] ∷ [] else [])) }
    ensures full { result ≡ true → length menu.new.items ≡ most_items }
    ensures free { result ≡ false → length menu.new.items < most_items }
{
    if passes {
        return put_at(menu, item, spot);
    }
    false
}

/// Offers each of so many members of a domain.
pub(crate) fn offer_count(count: usize, item: &Item, menu: &mut Items)
    requires few { count ≤ most_in_list }
    requires room { length item.now.spots.items < 4 }
    requires free { length menu.old.items < most_items }
    ensures { menu_seen menu.new.items ≡ take most_items (menu_seen menu.old.items
        ++ map (extended (item_seen item.now)) (from_each
        (λ n. [] ∷ []) 0 (below count))) }
{
    for place in 0..count {
        if put_at(menu, item, place as u16) {
            return;
        }
    }
}

// Offers those of the cards for which the answers say so.
#[inline(never)]
fn offer_asked(
    scene: &Scene,
    scope: &Bindings,
    cards: &Collection,
    asks: &[SoughtCard],
    any: bool,
    item: &Item,
    menu: &mut Items,
)
    requires fits { AllFit scope.now asks.now }
    requires room { length item.now.spots.items < 4 }
    requires free { length menu.old.items < most_items }
    ensures { menu_seen menu.new.items ≡ take most_items (menu_seen menu.old.items
        ++ map (extended (item_seen item.now)) (from_each
        (λ c. if joined any (map (ask_value (scene_seen scene.now) scope.now c) asks.now)
        then [] ∷ [] else []) 0 cards.now)) }
{
    for place in 0..cards.len() {
        let passes = joined_answer(scene, scope, asks, any, cards.at(place));
        if put_at_if(menu, item, place as u16, passes) {
            return;
        }
    }
}

// The same by the ids of the cards, where values are all that is asked of them.
fn offer_some(
    scene: &Scene,
    scope: &Bindings,
    cards: &Collection,
    asks: &[SoughtCard],
    any: bool,
    item: &Item,
    menu: &mut Items,
)
    requires fits { AllFit scope.now asks.now }
    requires room { length item.now.spots.items < 4 }
    requires free { length menu.old.items < most_items }
    ensures { menu_seen menu.new.items ≡ take most_items (menu_seen menu.old.items
        ++ map (extended (item_seen item.now)) (from_each
        (λ c. if joined any (map (ask_value (scene_seen scene.now) scope.now c) asks.now)
        then [] ∷ [] else []) 0 cards.now)) }
{
    if let Some(ids) = cards.ids() {
        if are_sought(asks) {
            return offer_met(asks, any, ids, item, menu);
        }
    }
    offer_asked(scene, scope, cards, asks, any, item, menu);
}

// Offers those of the cards with these ids that have the values that are asked for. One value is asked for most often.
fn offer_met(asks: &[SoughtCard], any: bool, ids: &[u16], item: &Item, menu: &mut Items)
    requires few { length ids.now ≤ most_in_list }
    requires room { length item.now.spots.items < 4 }
    requires free { length menu.old.items < most_items }
    ensures { menu_seen menu.new.items ≡ take most_items (menu_seen menu.old.items
        ++ map (extended (item_seen item.now)) (from_each
        (λ id. if joined any (map (met_value id) asks.now) then [] ∷ [] else []) 0 ids.now)) }
{
    match sole_value(asks) {
        Some((row, value)) => offer_having(row, value, ids, item, menu),
        None => offer_joined(asks, any, ids, item, menu),
    }
}

// Offers those that have this value.
#[inline(never)]
pub(crate) fn offer_having(
    row: &[Option<u16>],
    value: u16,
    ids: &[u16],
    item: &Item,
    menu: &mut Items,
)
    requires few { length ids.now ≤ most_in_list }
    requires room { length item.now.spots.items < 4 }
    requires free { length menu.old.items < most_items }
    ensures { menu_seen menu.new.items ≡ take most_items (menu_seen menu.old.items
        ++ map (extended (item_seen item.now)) (from_each
        (λ id. if both nat_same (slice_index_or row.now id None) (Some value)
        then [] ∷ [] else []) 0 ids.now)) }
{
    for place in 0..ids.len() {
        let passes = has_value(row, value, ids[place]);
        if put_at_if(menu, item, place as u16, passes) {
            return;
        }
    }
}

// Offers those for which the answers say so.
#[inline(never)]
fn offer_joined(asks: &[SoughtCard], any: bool, ids: &[u16], item: &Item, menu: &mut Items)
    requires few { length ids.now ≤ most_in_list }
    requires room { length item.now.spots.items < 4 }
    requires free { length menu.old.items < most_items }
    ensures { menu_seen menu.new.items ≡ take most_items (menu_seen menu.old.items
        ++ map (extended (item_seen item.now)) (from_each
        (λ id. if joined any (map (met_value id) asks.now) then [] ∷ [] else []) 0 ids.now)) }
{
    for place in 0..ids.len() {
        let passes = joined_met(asks, any, ids[place]);
        if put_at_if(menu, item, place as u16, passes) {
            return;
        }
    }
}

/// Offers those of the cards for which a guard holds.
pub(crate) fn offer_guarded<'t>(
    scene: &'t Scene,
    scope: &Bindings,
    cards: &Collection,
    guard: &'t Test,
    item: &Item,
    menu: &mut Items,
)
    requires deep { length scope.now + (1 + test_depth (test_seen guard.now)) ≤ 5 }
    requires room { length item.now.spots.items < 4 }
    requires free { length menu.old.items < most_items }
    ensures { menu_seen menu.new.items ≡ take most_items (menu_seen menu.old.items
        ++ map (extended (item_seen item.now)) (from_each
        (λ c. if told_of (scene_seen scene.now) scope.now (test_seen guard.now) c
        then [] ∷ [] else []) 0 cards.now)) }
{
    let mut asks = Asks::new();
    let parts = parts_of(scene, scope, guard, &mut asks);
    if !parts.settled {
        offer_some(scene, scope, cards, asks.as_slice(), parts.any, item, menu);
    } else if parts.any {
        offer_count(cards.len(), item, menu);
    }
}

// Offers all of so many cards, or none.
#[inline(always)]
fn offer_all_if(all: bool, count: usize, item: &Item, menu: &mut Items)
    requires few { count ≤ most_in_list }
    requires room { length item.now.spots.items < 4 }
    requires free { length menu.old.items < most_items }
    ensures { menu_seen menu.new.items ≡ take most_items (menu_seen menu.old.items
        ++ map (extended (item_seen item.now)) (from_each
        (λ n. if all then [] ∷ [] else []) 0 (below count))) }
{
    if all {
        offer_count(count, item, menu);
    }
}

/// Offers those of the cards of a location for which a guard holds whose parts are known. Where there is no row of
/// values for what it asks, it offers nothing, and says so.
#[inline(never)]
pub(crate) fn offer_in_parts(
    scene: &Scene,
    scope: &Bindings,
    guard: &Guard,
    item: &Item,
    menu: &mut Items,
) -> bool
    requires outside { scope.now ≡ [] }
    requires fixed { IsFixedGuard guard.now }
    requires room { length item.now.spots.items < 4 }
    requires free { length menu.old.items < most_items }
    ensures done { result ≡ true → menu_seen menu.new.items ≡ take most_items (menu_seen menu.old.items
        ++ map (extended (item_seen item.now))
        (from_each (λ c. if told_of (scene_seen scene.now) scope.now (guard_meant guard.now) c then [] ∷ [] else []) 0
        (coll_value (scene_seen scene.now) scope.now (cards_in (loc_seen guard.now.loc))))) }
    ensures left { result ≡ false → menu.new.items ≡ menu.old.items }
{
    let split = split_of(guard);
    let any = is_one_enough(guard.joint);
    let mut asks = Asks::new();
    let Some(settled) = parts_settle(scene, scope, split.parts, any, &mut asks) else {
        return false;
    };
    let ids = ids_of(scene, scope, &guard.loc);
    if settled {
        offer_all_if(any, ids.len(), item, menu);
        return true;
    }
    match split.then {
        Some(card_test) => {
            asks.is_empty() && offer_passing(scene, scope, card_test, ids, item, menu)
        }
        None => {
            offer_met(asks.as_slice(), any, ids, item, menu);
            true
        }
    }
}

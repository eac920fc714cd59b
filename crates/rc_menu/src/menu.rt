//! What a choice offers.
ghost use Rattle.std.specs.Prelude.{◌≡◌, ◌+◌, ◌<◌, ◌≤◌, ◌++◌, ◌∷◌, [], length, map, take, if◌then◌else◌};
ghost use Rattle.std.specs.Prelude.{All, IfOk, IfSome};
ghost use Rattle.rc_base.specs.Numbers.{below};
ghost use Rattle.rc_base.specs.Limits.{most_items};
ghost use Rattle.rc_play_spec.specs.Value.{card_bound, player_bound, group_bound, coll_value, groups_by};
ghost use Rattle.rc_play_spec.specs.Menu.{spots_of, from_each, alts_at, menu_of as pure_menu_of, menu_from as pure_menu_from};
ghost use Rattle.rc_sheet_spec.specs.Sheet.{Effects, cards_in, do_alt, each_card};
ghost use Rattle.rc_ast.specs.Names.{loc_seen};
ghost use Rattle.rc_ast.specs.Expressions.{coll_seen, domain_seen};
ghost use Rattle.rc_ast.specs.Items.{alt_seen, alts_seen};
ghost use Rattle.rc_rules.specs.Menu.{item_seen, menu_seen};
ghost use Rattle.rc_value.specs.Cards.{values_seen};
ghost use Rattle.rc_value.specs.Scene.{scene_seen};
ghost use Rattle.rc_value.specs.Depth.{coll_depth};
ghost use Rattle.rc_value.specs.Binding.{BindsFew, alt_depth, domains_in};
ghost use Rattle.rc_menu.specs.Alike.{AreGroups, AreGroupsOf};
ghost use Rattle.rc_menu.specs.AlikeMenus.{EqualAtAlike};
ghost use Rattle.rc_menu.specs.Menu.{extended};

use crate::alike::{groups_inside, groups_of, offered_alike};
use crate::offering::{is_filled, offer_count, offer_guarded, offer_in_parts, with_spot};
use rc_ast::{Alt, CollExpr, Domain, Loc};
use rc_code::Offer;
use rc_deck::Memory;
use rc_play_spec::alike_states_have_equal_menus;
use rc_rules::{Item, Items, Spots};
use rc_value::{
    Bind, Bindings, Cards, Collection, Scene, Values, cards_of, coll_of, ids_of, note_values,
    regroup, test_of, value_at,
};
use std::alloc::Global;

// Puts an item behind the others.
#[inline(never)]
fn put(menu: &mut Items, item: &Item)
    requires free { length menu.old.items < most_items }
    ensures { menu_seen menu.new.items ≡ take most_items (menu_seen menu.old.items
        ++ extended (item_seen item.now) [] ∷ []) }
{
    menu.push(item.copy());
}

// The same where it passes.
#[inline(never)]
fn put_if(menu: &mut Items, item: &Item, passes: bool)
    requires free { length menu.old.items < most_items }
    ensures { menu_seen menu.new.items ≡ take most_items (menu_seen menu.old.items
        ++ (if passes then extended (item_seen item.now) [] ∷ [] else [])) }
{
    if passes {
        put(menu, item);
    }
}

// The items that an alternative offers behind the positions that are bound so far. How many groups its domain has may
// be known.
#[cycle(menu)]
fn offer(
    scene: &Scene,
    scope: &Bindings,
    alt: &Alt,
    groups: Option<usize>,
    item: &Item,
    menu: &mut Items,
)
    requires groups { AreGroups (scene_seen scene.now) scope.now (alt_seen alt.now) groups }
    requires fits { length scope.now + alt_depth (alt_seen alt.now) ≤ 5 }
    requires room { length item.now.spots.items + domains_in (alt_seen alt.now) ≤ 4 }
    requires free { length menu.old.items < most_items }
    ensures { menu_seen menu.new.items ≡ take most_items (menu_seen menu.old.items
        ++ map (extended (item_seen item.now)) (spots_of (scene_seen scene.now) scope.now (alt_seen alt.now))) }
{
    match alt {
        Alt::Do(_) => put(menu, item),
        Alt::If(guard, _) => put_if(menu, item, test_of(scene, scope, guard)),
        Alt::Any(domain, _, inner) => match domain {
            Domain::Players => offer_players(scene, scope, inner, item, menu),
            Domain::Coll(cards) => offer_over(scene, scope, inner, cards, item, menu),
            Domain::Parts(cards, name) => offer_parts(
                scene, scope, inner, cards, *name, groups, item, menu,
            ),
        },
    }
}

// The same with the cards of an expression.
#[cycle(menu)]
fn offer_over(
    scene: &Scene,
    scope: &Bindings,
    inner: &Alt,
    cards: &CollExpr,
    item: &Item,
    menu: &mut Items,
)
    requires domain { length scope.now + coll_depth (coll_seen cards.now) ≤ 5 }
    requires fits { length scope.now + (1 + alt_depth (alt_seen inner.now)) ≤ 5 }
    requires room { length item.now.spots.items + (1 + domains_in (alt_seen inner.now)) ≤ 4 }
    requires free { length menu.old.items < most_items }
    ensures { menu_seen menu.new.items ≡ take most_items (menu_seen menu.old.items
        ++ map (extended (item_seen item.now)) (from_each
        (λ m. spots_of (scene_seen scene.now) (scope.now ++ m ∷ []) (alt_seen inner.now)) 0
        (map (λ c. card_bound c) (coll_value (scene_seen scene.now) scope.now (coll_seen cards.now))))) }
{
    match cards {
        CollExpr::Var(var) => offer_cards(scene, scope, &scope.group(*var), inner, item, menu),
        CollExpr::Loc(loc) => {
            offer_cards(
                scene,
                scope,
                &cards_of(scene, scope, loc),
                inner,
                item,
                menu,
            )
        }
        _ => offer_built(scene, scope, inner, cards, item, menu),
    }
}

// The same with cards that need a list of their own.
#[cycle(menu)]
#[inline(never)]
fn offer_built(
    scene: &Scene,
    scope: &Bindings,
    inner: &Alt,
    cards: &CollExpr,
    item: &Item,
    menu: &mut Items,
)
    requires domain { length scope.now + coll_depth (coll_seen cards.now) ≤ 5 }
    requires fits { length scope.now + (1 + alt_depth (alt_seen inner.now)) ≤ 5 }
    requires room { length item.now.spots.items + (1 + domains_in (alt_seen inner.now)) ≤ 4 }
    requires free { length menu.old.items < most_items }
    ensures { menu_seen menu.new.items ≡ take most_items (menu_seen menu.old.items
        ++ map (extended (item_seen item.now)) (from_each
        (λ m. spots_of (scene_seen scene.now) (scope.now ++ m ∷ []) (alt_seen inner.now)) 0
        (map (λ c. card_bound c) (coll_value (scene_seen scene.now) scope.now (coll_seen cards.now))))) }
{
    let mut room = Cards::new();
    coll_of(scene, scope, cards, &mut room);
    offer_cards(
        scene,
        scope,
        &Collection::of_cards(room.as_slice()),
        inner,
        item,
        menu,
    );
}

#[cycle(menu)]
#[inline(always)]
fn offer_cards(
    scene: &Scene,
    scope: &Bindings,
    cards: &Collection,
    inner: &Alt,
    item: &Item,
    menu: &mut Items,
)
    requires fits { length scope.now + (1 + alt_depth (alt_seen inner.now)) ≤ 5 }
    requires room { length item.now.spots.items + (1 + domains_in (alt_seen inner.now)) ≤ 4 }
    requires free { length menu.old.items < most_items }
    ensures { menu_seen menu.new.items ≡ take most_items (menu_seen menu.old.items
        ++ map (extended (item_seen item.now)) (from_each
        (λ m. spots_of (scene_seen scene.now) (scope.now ++ m ∷ []) (alt_seen inner.now)) 0
        (map (λ c. card_bound c) cards.now))) }
{
    match inner {
        Alt::Do(_) => offer_count(cards.len(), item, menu),
        Alt::If(guard, _) => offer_guarded(&*scene, scope, cards, guard, item, menu),
        Alt::Any(_, _, _) => offer_each(scene, scope, cards, inner, item, menu),
    }
}

// The same, one card after the other.
#[cycle(menu)]
#[inline(never)]
fn offer_each(
    scene: &Scene,
    scope: &Bindings,
    cards: &Collection,
    inner: &Alt,
    item: &Item,
    menu: &mut Items,
)
    requires fits { length scope.now + (1 + alt_depth (alt_seen inner.now)) ≤ 5 }
    requires room { length item.now.spots.items + (1 + domains_in (alt_seen inner.now)) ≤ 4 }
    requires free { length menu.old.items < most_items }
    ensures { menu_seen menu.new.items ≡ take most_items (menu_seen menu.old.items
        ++ map (extended (item_seen item.now)) (from_each
        (λ m. spots_of (scene_seen scene.now) (scope.now ++ m ∷ []) (alt_seen inner.now)) 0
        (map (λ c. card_bound c) cards.now))) }
{
    let groups = groups_inside(scene, scope, inner);
    for place in 0..cards.len() {
        if is_filled(menu) {
            return;
        }
        offer(
            scene,
            &scope.with(Bind::Card(cards.at(place))),
            inner,
            groups,
            &with_spot(item, place as u16),
            menu,
        );
    }
}

// The same with the players.
#[cycle(menu)]
fn offer_players(scene: &Scene, scope: &Bindings, inner: &Alt, item: &Item, menu: &mut Items)
    requires fits { length scope.now + (1 + alt_depth (alt_seen inner.now)) ≤ 5 }
    requires room { length item.now.spots.items + (1 + domains_in (alt_seen inner.now)) ≤ 4 }
    requires free { length menu.old.items < most_items }
    ensures { menu_seen menu.new.items ≡ take most_items (menu_seen menu.old.items
        ++ map (extended (item_seen item.now)) (from_each
        (λ m. spots_of (scene_seen scene.now) (scope.now ++ m ∷ []) (alt_seen inner.now)) 0
        (map (λ n. player_bound n) (below (scene_seen scene.now).known.sheet.players)))) }
{
    match offered_alike(scene, scope, inner) {
        Some(passes) => {
            if passes {
                offer_count(scene.sheet.players as usize, item, menu);
            }
        }
        None => offer_each_player(scene, scope, inner, item, menu),
    }
}

// The same, one player after the other.
#[cycle(menu)]
#[inline(never)]
fn offer_each_player(scene: &Scene, scope: &Bindings, inner: &Alt, item: &Item, menu: &mut Items)
    requires fits { length scope.now + (1 + alt_depth (alt_seen inner.now)) ≤ 5 }
    requires room { length item.now.spots.items + (1 + domains_in (alt_seen inner.now)) ≤ 4 }
    requires free { length menu.old.items < most_items }
    ensures { menu_seen menu.new.items ≡ take most_items (menu_seen menu.old.items
        ++ map (extended (item_seen item.now)) (from_each
        (λ m. spots_of (scene_seen scene.now) (scope.now ++ m ∷ []) (alt_seen inner.now)) 0
        (map (λ n. player_bound n) (below (scene_seen scene.now).known.sheet.players)))) }
{
    let groups = groups_inside(scene, scope, inner);
    for player in 0..scene.sheet.players {
        if is_filled(menu) {
            return;
        }
        offer(
            scene,
            &scope.with(Bind::Player(player)),
            inner,
            groups,
            &with_spot(item, player as u16),
            menu,
        );
    }
}

// The same with the groups of the cards, of which none is made where nothing reads it.
#[cycle(menu)]
fn offer_parts(
    scene: &Scene,
    scope: &Bindings,
    inner: &Alt,
    cards: &CollExpr,
    name: u16,
    groups: Option<usize>,
    item: &Item,
    menu: &mut Items,
)
    requires groups { AreGroupsOf (scene_seen scene.now) scope.now (coll_seen cards.now) name groups }
    requires domain { length scope.now + coll_depth (coll_seen cards.now) ≤ 5 }
    requires fits { length scope.now + (1 + alt_depth (alt_seen inner.now)) ≤ 5 }
    requires room { length item.now.spots.items + (1 + domains_in (alt_seen inner.now)) ≤ 4 }
    requires free { length menu.old.items < most_items }
    ensures { menu_seen menu.new.items ≡ take most_items (menu_seen menu.old.items
        ++ map (extended (item_seen item.now)) (from_each
        (λ m. spots_of (scene_seen scene.now) (scope.now ++ m ∷ []) (alt_seen inner.now)) 0 (map (λ g. group_bound g)
        (groups_by (scene_seen scene.now) name (coll_value (scene_seen scene.now) scope.now (coll_seen cards.now)))))) }
{
    match offered_alike(scene, scope, inner) {
        Some(passes) => {
            if passes {
                offer_count(groups_of(scene, scope, cards, name, groups), item, menu);
            }
        }
        None => offer_each_group(scene, scope, inner, cards, name, item, menu),
    }
}

// The same, one group after the other.
#[cycle(menu)]
#[inline(never)]
fn offer_each_group(
    scene: &Scene,
    scope: &Bindings,
    inner: &Alt,
    cards: &CollExpr,
    name: u16,
    item: &Item,
    menu: &mut Items,
)
    requires domain { length scope.now + coll_depth (coll_seen cards.now) ≤ 5 }
    requires fits { length scope.now + (1 + alt_depth (alt_seen inner.now)) ≤ 5 }
    requires room { length item.now.spots.items + (1 + domains_in (alt_seen inner.now)) ≤ 4 }
    requires free { length menu.old.items < most_items }
    ensures { menu_seen menu.new.items ≡ take most_items (menu_seen menu.old.items
        ++ map (extended (item_seen item.now)) (from_each
        (λ m. spots_of (scene_seen scene.now) (scope.now ++ m ∷ []) (alt_seen inner.now)) 0 (map (λ g. group_bound g)
        (groups_by (scene_seen scene.now) name (coll_value (scene_seen scene.now) scope.now (coll_seen cards.now)))))) }
{
    let mut room = Cards::new();
    coll_of(scene, scope, cards, &mut room);
    let all = Collection::of_cards(room.as_slice());
    let mut values = Values::new();
    note_values(scene, &all, name, &mut values);
    let mut group = Cards::new();
    for place in 0..values.len() {
        if is_filled(menu) {
            return;
        }
        regroup(scene, &all, name, value_at(&values, place), &mut group);
        offer_group(
            scene,
            scope,
            inner,
            &group,
            &with_spot(item, place as u16),
            menu,
        );
    }
}

// The same with one group.
#[cycle(menu)]
fn offer_group(
    scene: &Scene,
    scope: &Bindings,
    inner: &Alt,
    group: &Cards,
    item: &Item,
    menu: &mut Items,
)
    requires fits { length scope.now + (1 + alt_depth (alt_seen inner.now)) ≤ 5 }
    requires room { length item.now.spots.items + domains_in (alt_seen inner.now) ≤ 4 }
    requires free { length menu.old.items < most_items }
    ensures { menu_seen menu.new.items ≡ take most_items (menu_seen menu.old.items
        ++ map (extended (item_seen item.now)) (spots_of (scene_seen scene.now)
        (scope.now ++ group_bound (values_seen group.now.items) ∷ []) (alt_seen inner.now))) }
{
    offer(
        scene,
        &(&*scope).with(Bind::Group(group)),
        inner,
        None,
        item,
        menu,
    );
}

/// The menu of a choice site with these alternatives: the first 256 items that they offer.
///
/// At states that are alike to the mover the menus are equal.
///
/// # Errors
///
/// There is no memory for a menu.
pub fn menu_of(alloc: Global, scene: &Scene, site: u8, alts: &[Alt]) -> Result<Items, Memory>
    requires site { alts_seen alts.now ≡ alts_at (scene_seen scene.now).known.sheet site }
    ensures menu { IfOk result (λ menu. menu_seen menu.items ≡ pure_menu_of (scene_seen scene.now) site) }
    ensures alike { IfOk result (λ menu. EqualAtAlike scene.now site (menu_seen menu.items)) }
{
    let mut menu = Items::new(alloc)?;
    fill_menu(scene, site, alts, &mut menu);
    Ok(menu)
}

/// The same, written into a menu, whatever it held before.
pub fn fill_menu(scene: &Scene, site: u8, alts: &[Alt], menu: &mut Items)
    requires site { alts_seen alts.now ≡ alts_at (scene_seen scene.now).known.sheet site }
    ensures menu { menu_seen menu.new.items ≡ pure_menu_of (scene_seen scene.now) site }
    ensures alike { EqualAtAlike scene.now site (menu_seen menu.new.items) }
{
    alike_states_have_equal_menus();
    menu.clear();
    offer_all(scene, alts, menu);
}

// Puts what alternatives offer into an empty menu.
fn offer_all(scene: &Scene, alts: &[Alt], menu: &mut Items)
    requires few { All (BindsFew 0) (alts_seen alts.now) }
    requires empty { menu.old.items ≡ [] }
    ensures { menu_seen menu.new.items ≡ pure_menu_from (scene_seen scene.now) (alts_seen alts.now) }
{
    let scope = Bindings::empty();
    for number in 0..alts.len() {
        if is_filled(menu) {
            return;
        }
        offer(
            scene,
            &scope,
            &alts[number],
            None,
            &first_item(number),
            menu,
        );
    }
}

/// The same with alternatives whose guards may be known in parts.
#[inline(always)]
pub(crate) fn fill_offers(scene: &Scene, site: u8, offers: &[Offer], menu: &mut Items)
    requires site { offers.now ≡ alts_at (scene_seen scene.now).known.sheet site }
    ensures { menu_seen menu.new.items ≡ pure_menu_of (scene_seen scene.now) site }
{
    menu.clear();
    make_offers(scene, offers, menu);
}

// Puts what they offer into an empty menu.
#[inline(always)]
fn make_offers(scene: &Scene, offers: &[Offer], menu: &mut Items)
    requires few { All (BindsFew 0) offers.now }
    requires empty { menu.old.items ≡ [] }
    ensures { menu_seen menu.new.items ≡ pure_menu_from (scene_seen scene.now) offers.now }
{
    let scope = Bindings::empty();
    for number in 0..offers.len() {
        if is_filled(menu) {
            return;
        }
        make_offer(scene, &scope, &offers[number], &first_item(number), menu);
    }
}

// The items that an alternative outside all binders offers: by its guard in parts, or else as it stands in the sheet.
#[inline(always)]
fn make_offer(scene: &Scene, scope: &Bindings, one: &Offer, item: &Item, menu: &mut Items)
    requires outside { scope.now ≡ [] }
    requires few { BindsFew 0 one.now }
    requires bare { item.now.spots.items ≡ [] }
    requires free { length menu.old.items < most_items }
    ensures { menu_seen menu.new.items ≡ take most_items (menu_seen menu.old.items
        ++ map (extended (item_seen item.now)) (spots_of (scene_seen scene.now) scope.now one.now)) }
{
    match one.guard() {
        Some(guard) => {
            if !offer_in_parts(scene, scope, guard, item, menu) {
                offer(scene, scope, one.alt(), None, item, menu);
            }
        }
        None => offer_bare(scene, scope, one.alt(), item, menu),
    }
}

// The items that an alternative offers behind no position. Most often it needs no walk over a tree.
#[inline(always)]
fn offer_bare(scene: &Scene, scope: &Bindings, alt: &Alt, item: &Item, menu: &mut Items)
    requires fits { length scope.now + alt_depth (alt_seen alt.now) ≤ 5 }
    requires room { length item.now.spots.items + domains_in (alt_seen alt.now) ≤ 4 }
    requires bare { item.now.spots.items ≡ [] }
    requires free { length menu.old.items < most_items }
    ensures { menu_seen menu.new.items ≡ take most_items (menu_seen menu.old.items
        ++ map (extended (item_seen item.now)) (spots_of (scene_seen scene.now) scope.now (alt_seen alt.now))) }
{
    match alt {
        Alt::Do(_) => put_bare(menu, item.alt),
        Alt::If(guard, _) => put_bare_if(menu, item.alt, test_of(scene, scope, guard)),
        Alt::Any(domain, _, inner) => match free_location(domain, inner) {
            Some(loc) => offer_count(ids_of(scene, scope, loc).len(), item, menu),
            None => offer(scene, scope, alt, None, item, menu),
        },
    }
}

// The location whose cards a domain has, if nothing is asked of them.
#[inline(always)]
fn free_location<'d>(domain: &'d Domain, inner: &Alt) -> Option<&'d Loc>
    ensures { IfSome result (λ loc. (effects : Effects)
        × (domain_seen domain.now ≡ each_card (cards_in (loc_seen loc.now))) × (alt_seen inner.now ≡ do_alt effects)) }
{
    match inner {
        Alt::Do(_) => match domain {
            Domain::Coll(cards) => match cards {
                CollExpr::Loc(loc) => Some(loc),
                _ => None,
            },
            _ => None,
        },
        _ => None,
    }
}

// Puts an item without positions behind the others.
#[inline(always)]
fn put_bare(menu: &mut Items, alt: usize)
    requires free { length menu.old.items < most_items }
    ensures { menu_seen menu.new.items ≡ take most_items (menu_seen menu.old.items
        ++ record { alt = alt; spots = [] } ∷ []) }
{
    menu.push(first_item(alt));
}

// The same where it passes.
#[inline(always)]
fn put_bare_if(menu: &mut Items, alt: usize, passes: bool)
    requires free { length menu.old.items < most_items }
    ensures { menu_seen menu.new.items ≡ take most_items (menu_seen menu.old.items
        ++ (if passes then record { alt = alt; spots = [] } ∷ [] else [])) }
{
    if passes {
        put_bare(menu, alt);
    }
}

// An alternative that binds nothing yet.
fn first_item(alt: usize) -> Item
    ensures { item_seen result ≡ record { alt = alt; spots = [] } }
{
    Item {
        alt,
        spots: Spots::new(),
    }
}

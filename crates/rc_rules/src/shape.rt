//! The shape of a sheet.
ghost use Rattle.std.specs.Prelude.{◌≡◌, ◌≤◌, ◌<◌, ◌++◌, map, length, sum_by, IfOk, OnOk};
ghost use Rattle.rc_base.specs.Numbers.{below};
ghost use Rattle.rc_base.specs.Deck.{face_count};
ghost use Rattle.rc_base.specs.Limits.{most_cards, most_locations};
ghost use Rattle.rc_deck.specs.Tree.{groups_of};
ghost use Rattle.rc_deck.specs.Product.{faces_of_groups};
ghost use Rattle.rc_sheet_spec.specs.Sheet as model;
ghost use Rattle.rc_sheet_spec.specs.WellFormed.{IsWellFormed};
ghost use Rattle.rc_sheet_spec.specs.WellFormed as well;
ghost use Rattle.rc_play_spec.specs.Shape as play;
ghost use Rattle.rc_ast.specs.Sheet.{sheet_seen, deck_line_seen};
ghost use Rattle.rc_ast.specs.Names.{loc_name_seen};
ghost use Rattle.rc_table.specs.Places.{place_seen, class_of, number_of};

use crate::stages::owner_count;
use crate::teams::team_in;
use rc_ast::{DeckLine, LocName, Sheet};
use rc_base::Class;
use rc_base::limits::MOST_CARDS;
use rc_deck::{DeckTree, Face, Memory, count_of, faces_of};
use rc_play_spec::opening_tables_are_sound;
use rc_table::{Owner, Place, Shape};
use std::alloc::Global;

/// The shape of a sheet: its players and their teams, its locations and numbers in the order of their names' first
/// mention and then by their owners, and its cards in the order of the decks and of their faces.
pub fn shape_of(alloc: Global, sheet: &Sheet) -> Result<Shape, Memory>
    requires { IsWellFormed (sheet_seen sheet.now) }
    ensures { IfOk result (λ shape. shape ≡ play.shape_of (sheet_seen sheet.now)) }
{
    opening_tables_are_sound();
    let team_of = team_list(alloc, sheet)?;
    let places = place_list(alloc, sheet)?;
    let faces = face_list(alloc, sheet)?;
    let home = home_list(alloc, sheet)?;
    Shape::new(
        alloc,
        sheet.players,
        team_of,
        places,
        number_count(sheet),
        faces,
        home,
    )
}

// Each player's team.
fn team_list(alloc: Global, sheet: &Sheet) -> Result<Vec<u8>, Memory>
    requires { IsWellFormed (sheet_seen sheet.now) }
    ensures { IfOk result (λ list. list.items
        ≡ map (play.team_in (sheet_seen sheet.now).teams) (below sheet.now.players)) }
{
    let mut list = Vec::new(alloc);
    for player in 0..sheet.players {
        list.push(team_in(sheet, player) as u8)?;
    }
    Ok(list)
}

// The locations in their order.
fn place_list(alloc: Global, sheet: &Sheet) -> Result<Vec<Place>, Memory>
    requires { IsWellFormed (sheet_seen sheet.now) }
    ensures { IfOk result (λ list. map place_seen list.items ≡ play.places (sheet_seen sheet.now)) }
{
    let mut list = Vec::new(alloc);
    for name in &sheet.locs {
        push_places(sheet, name, &mut list)?;
    }
    Ok(list)
}

// Adds the locations of a name, one for each owner of its class.
fn push_places(sheet: &Sheet, name: &LocName, list: &mut Vec<Place>) -> Result<(), Memory>
    requires { IsWellFormed (sheet_seen sheet.now) }
    ensures { OnOk result (map place_seen list.new.items
        ≡ map place_seen list.old.items ++ play.places_of (sheet_seen sheet.now) (loc_name_seen name.now)) }
{
    for number in 0..owner_count(sheet, name.class) {
        let owner = owner_of(name.class, number as u8);
        list.push(Place {
            owner,
            kind: name.kind,
        })?;
    }
    Ok(())
}

// The owner of a class with this number. The game is one, with the number 0.
fn owner_of(class: Class, number: u8) -> Owner
    ensures class { class_of result ≡ class }
    ensures number { (sheet : model.Sheet) → number < well.owner_count sheet class → number_of result ≡ number }
{
    match class {
        Class::Game => Owner::Game,
        Class::Player => Owner::Player(number),
        Class::Team => Owner::Team(number),
    }
}

// How many numbers there are.
fn number_count(sheet: &Sheet) -> u16
    requires { IsWellFormed (sheet_seen sheet.now) }
    ensures { result ≡ (play.shape_of (sheet_seen sheet.now)).numbers }
{
    let mut count = 0;
    for name in &sheet.nums {
        count += owner_count(sheet, name.class);
    }
    count as u16
}

// The faces of the cards.
fn face_list(alloc: Global, sheet: &Sheet) -> Result<Vec<Face>, Memory>
    ensures { IfOk result (λ list. list.items ≡ (play.shape_of (sheet_seen sheet.now)).faces) }
{
    let mut list = Vec::new(alloc);
    for line in &sheet.decks {
        let mut faces = faces_of(alloc, &line.tree)?;
        list.append(&mut faces)?;
    }
    Ok(list)
}

// The first locations of the cards.
fn home_list(alloc: Global, sheet: &Sheet) -> Result<Vec<u16>, Memory>
    requires { IsWellFormed (sheet_seen sheet.now) }
    ensures { IfOk result (λ list. list.items ≡ (play.shape_of (sheet_seen sheet.now)).home) }
{
    let mut list = Vec::new(alloc);
    for line in &sheet.decks {
        push_homes(sheet, line, &mut list)?;
    }
    Ok(list)
}

// Adds the first location of a deck's cards, for each of them.
fn push_homes(sheet: &Sheet, line: &DeckLine, list: &mut Vec<u16>) -> Result<(), Memory>
    requires formed { IsWellFormed (sheet_seen sheet.now) }
    requires few { face_count (groups_of line.now.tree) ≤ most_cards }
    ensures { OnOk result (list.new.items
        ≡ list.old.items ++ play.homes_of (sheet_seen sheet.now) (deck_line_seen line.now)) }
{
    let home = first_loc(sheet, line.loc);
    for _ in 0..card_count(&line.tree) {
        list.push(home)?;
    }
    Ok(())
}

// How many cards a deck has, if there are at most 512.
fn card_count(tree: &DeckTree) -> usize
    requires { face_count (groups_of tree.now) ≤ most_cards }
    ensures { result ≡ length (faces_of_groups (groups_of tree.now)) }
{
    count_of(tree, usize::from(MOST_CARDS))
}

// How many locations stand before those of a name.
fn first_loc(sheet: &Sheet, name: u16) -> u16
    requires { IsWellFormed (sheet_seen sheet.now) }
    ensures { result ≡ play.first_loc (sheet_seen sheet.now) (sheet_seen sheet.now).locs name }
{
    let before = usize::from(name).min(sheet.locs.len());
    location_count(sheet, &sheet.locs[..before]) as u16
}

// How many locations these names have.
fn location_count(sheet: &Sheet, names: &[LocName]) -> usize
    requires { sum_by (λ name. well.owner_count (sheet_seen sheet.now) name.class) (map loc_name_seen names.now)
        ≤ most_locations }
    ensures { result ≡ sum_by (λ name. well.owner_count (sheet_seen sheet.now) name.class)
        (map loc_name_seen names.now) }
{
    let mut count = 0;
    for name in names {
        count += owner_count(sheet, name.class);
    }
    count
}

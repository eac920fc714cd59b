//! What each location of a redrawn table holds.
ghost use Rattle.std.specs.Prelude.{◌≡◌, ◌≤◌, ◌++◌, [], length, map, OnOk};
ghost use Rattle.std.specs.List.{list_any};
ghost use Rattle.rc_play_spec.specs.Redraw.{mems_of, faces_at, hidden_at, ids_at, seen_faces, hidden_count, filled as filled_by};
ghost use Rattle.rc_redraw.specs.Hiding.{hiding_from, knows, pattern_of, patterns as patterns_of, IsKept};
ghost use Rattle.rc_view.specs.Seen.{sight_seen};

use crate::places::{count_unknown, mix, push_pattern};
use crate::seen::known_places;
use rc_deck::Memory;
use rc_table::Shape;
use rc_view::Sight;
use std::alloc::Global;

// How many card places of a location aren't known.
fn hidden_places(mem: bool, sight: &Sight) -> usize
    ensures { result ≡ hidden_at mem (sight_seen sight.now) }
{
    match sight {
        Sight::Partly(numbers) if !mem => count_unknown(numbers),
        _ => 0,
    }
}

// Lists what a location holds. A reference is the smallest id of its face, which is the face's number.
fn fill_list(
    mem: bool,
    sight: &Sight,
    seen: &[u16],
    hidden: &[u16],
    list: &mut Vec<u16>,
) -> Result<(), Memory>
    requires seen { length (faces_at mem (sight_seen sight.now)) ≤ length seen.now }
    requires hidden { hidden_at mem (sight_seen sight.now) ≤ length hidden.now }
    ensures { OnOk result (list.new.items ≡ ids_at mem (sight_seen sight.now) seen.now hidden.now) }
{
    list.clear();
    let ids = match sight {
        Sight::Faces(numbers) if mem => numbers.as_slice(),
        Sight::Faces(numbers) => &seen[..numbers.len()],
        Sight::Partly(_) if mem => &[],
        Sight::Partly(numbers) => return mix(numbers, seen, hidden, list),
    };
    list.extend_from_slice(ids)?;
    Ok(())
}

/// Lists what the locations hold, with these ids for the known places in order and these for the others in order.
pub(crate) fn fill_lists(
    alloc: Global,
    shape: &Shape,
    sights: &[Sight],
    seen: &[u16],
    hidden: &[u16],
    lists: &mut Vec<Vec<u16>>,
) -> Result<(), Memory>
    requires each { length sights.now ≡ length shape.now.places }
    requires seen { length (seen_faces (mems_of shape.now.places) (map sight_seen sights.now)) ≡ length seen.now }
    requires hidden { hidden_count (mems_of shape.now.places) (map sight_seen sights.now) ≡ length hidden.now }
    ensures { OnOk result (map (λ list. list.items) lists.new.items
        ≡ filled_by (mems_of shape.now.places) (map sight_seen sights.now) seen.now hidden.now) }
{
    lists.resize_with(shape.locations() as usize, || Vec::new(alloc))?;
    let mut seen_from = 0;
    let mut hidden_from = 0;
    for loc in 0..shape.locations() {
        let mem = shape.holds_references(loc);
        let sight = &sights[loc as usize];
        fill_list(
            mem,
            sight,
            &seen[seen_from..],
            &hidden[hidden_from..],
            &mut lists[loc as usize],
        )?;
        seen_from += known_places(mem, sight);
        hidden_from += hidden_places(mem, sight);
    }
    Ok(())
}

/// Lists the locations that have card places which aren't known.
pub(crate) fn list_hiding(
    shape: &Shape,
    sights: &[Sight],
    locs: &mut Vec<u16>,
) -> Result<(), Memory>
    requires { length sights.now ≡ length shape.now.places }
    ensures { OnOk result (locs.new.items ≡ hiding_from 0 (mems_of shape.now.places) (map sight_seen sights.now)) }
{
    locs.clear();
    locs.reserve(shape.locations() as usize)?;
    for loc in 0..shape.locations() {
        let mem = shape.holds_references(loc);
        if hidden_places(mem, &sights[loc as usize]) > 0 {
            locs.push(loc)?;
        }
    }
    Ok(())
}

// Adds what is known of the places of a location, if it hides cards.
fn push_places(
    mem: bool,
    sight: &Sight,
    seen: &[u16],
    pattern: &mut Vec<Option<u16>>,
) -> Result<(), Memory>
    requires { length (faces_at mem (sight_seen sight.now)) ≤ length seen.now }
    ensures { OnOk result (pattern.new.items ≡ pattern.old.items ++ pattern_of mem (sight_seen sight.now) seen.now) }
{
    match sight {
        Sight::Partly(numbers) if !mem => {
            if count_unknown(numbers) > 0 {
                push_pattern(numbers, seen, pattern)
            } else {
                Ok(())
            }
        }
        _ => Ok(()),
    }
}

/// Lists what is known of the places of locations that hide cards, or nothing where `some` says that no card is known
/// that isn't seen.
pub(crate) fn keep_pattern(
    shape: &Shape,
    sights: &[Sight],
    seen: &[u16],
    some: bool,
    pattern: &mut Vec<Option<u16>>,
) -> Result<(), Memory>
    requires each { length sights.now ≡ length shape.now.places }
    requires seen { length (seen_faces (mems_of shape.now.places) (map sight_seen sights.now)) ≡ length seen.now }
    requires some { some ≡ list_any (λ sight. knows (sight_seen sight)) sights.now }
    ensures { OnOk result (IsKept pattern.new.items
        (patterns_of (mems_of shape.now.places) (map sight_seen sights.now) seen.now)) }
{
    pattern.clear();
    if some {
        push_patterns(shape, sights, seen, pattern)
    } else {
        Ok(())
    }
}

// Lists what is known of the places of these locations, one location behind the other: the ids that known places take.
fn push_patterns(
    shape: &Shape,
    sights: &[Sight],
    seen: &[u16],
    pattern: &mut Vec<Option<u16>>,
) -> Result<(), Memory>
    requires empty { pattern.old.items ≡ [] }
    requires each { length sights.now ≡ length shape.now.places }
    requires seen { length (seen_faces (mems_of shape.now.places) (map sight_seen sights.now)) ≡ length seen.now }
    ensures { OnOk result (pattern.new.items
        ≡ patterns_of (mems_of shape.now.places) (map sight_seen sights.now) seen.now) }
{
    pattern.reserve(shape.cards() as usize)?;
    let mut from = 0;
    for loc in 0..shape.locations() {
        let mem = shape.holds_references(loc);
        let sight = &sights[loc as usize];
        push_places(mem, sight, &seen[from..], pattern)?;
        from += known_places(mem, sight);
    }
    Ok(())
}

//! What matches do with the entries that they share.
ghost use Rattle.std.specs.Prelude.{◌≡◌, ◌≢◌, ◌<◌, ◌≤◌, ℕ, [], ◌∷◌, take, vec_len, vec_capacity, OnOk, OnErr};
ghost use Rattle.std.specs.List.{AllByRecursion};
ghost use Rattle.rc_play_spec.specs.About.{About};
ghost use Rattle.rc_play_spec.specs.Strategy.{menu_size};
ghost use Rattle.rc_redraw.specs.Asking.{key_seen};
ghost use Rattle.rc_redraw.specs.Counts.{kept};
ghost use Rattle.rc_redraw.specs.Need.{Need};
ghost use Rattle.rc_match.specs.Lane.{phase_seen, asks, spent};
ghost use Rattle.rc_cache.specs.Replay.{after};
ghost use Rattle.rc_core.specs.Events.{best_of as best_item, found, looked_up, handed_over};
ghost use Rattle.rc_core.specs.Stored.{Wants};

use crate::entries::{put_in_front, take_entry};
use crate::waiting::{make_ready, miss, release};
use rc_deck::Memory;
use rc_match::Phase;
use rc_play_spec::tallies_are_bounded;
use rc_redraw::{Entry, Key};
use rc_rollout::{asked_key, first_largest};
use std::alloc::Global;

/// Looks up among the entries what a match asks of playouts. Where it is there, its entry comes to the front, and the
/// item with its largest total is ready; else it is missed.
pub(crate) fn look_up(
    alloc: Global,
    phase: &mut Phase,
    entries: &mut Vec<Entry>,
) -> Result<(), Memory>
    requires wants { (about : About) × Wants about (phase_seen phase.old)
        × AllByRecursion (λ key. key.about ≡ about) entries.old.items }
    ensures after { OnOk result ((capacity : ℕ)
        → (phase_seen phase.new, entries.new.items) ≡ looked_up capacity entries.old.items (phase_seen phase.old)) }
    ensures open { OnOk result (phase_seen phase.old ≢ spent) }
    ensures lacking { OnErr result ((phase_seen phase.new ≡ phase_seen phase.old)
        × (entries.new.items ≡ entries.old.items)) }
{
    match &*phase {
        Phase::Asks(need) => match asked_key(alloc, need) {
            Ok(Some(key)) => {
                let menu = need.menu;
                find(phase, entries, &key, menu);
                Ok(())
            }
            Ok(None) => Ok(()),
            Err(Memory) => Err(Memory),
        },
        Phase::Spent => Err(Memory),
        _ => Ok(()),
    }
}

// Finds the key that a match asks among the entries, or misses it.
fn find(phase: &mut Phase, entries: &mut Vec<Entry>, key: &Key, menu: u16)
    requires menu { menu ≡ menu_size (key_seen key.now).about (key_seen key.now).ask.view }
    requires own { AllByRecursion (λ entry. entry.about ≡ (key_seen key.now).about) entries.old.items }
    ensures { (need : Need) (capacity : ℕ) → phase_seen phase.old ≡ asks need
        → (phase_seen phase.new, entries.new.items) ≡ found capacity entries.old.items need (key_seen key.now ∷ []) }
{
    match take_entry(entries, key) {
        Some(entry) => {
            let item = best_of(&entry, menu);
            put_in_front(entries, entry);
            make_ready(phase, item);
        }
        None => miss(phase),
    }
}

/// Gives the entry that a match holds to the others, of which there are so many at most. The item with its largest
/// total is ready.
pub(crate) fn hand_over(
    phase: &mut Phase,
    entries: &mut Vec<Entry>,
    capacity: usize,
) -> Result<(), Memory>
    requires wants { (about : About) × Wants about (phase_seen phase.old) }
    ensures after { OnOk result ((phase_seen phase.new, entries.new.items)
        ≡ handed_over capacity entries.old.items (phase_seen phase.old)) }
    ensures open { OnOk result (phase_seen phase.old ≢ spent) }
    ensures lacking { OnErr result ((phase_seen phase.new ≡ phase_seen phase.old)
        × (entries.new.items ≡ entries.old.items)) }
{
    let item = match &*phase {
        Phase::Holds(need, entry) => best_of(entry, need.menu),
        Phase::Spent => return Err(Memory),
        _ => return Ok(()),
    };
    entries.reserve(1)?;
    if let Some(entry) = release(phase, item) {
        keep(entries, entry, capacity);
    }
    Ok(())
}

// Puts an entry in front, in the place of one of the same key, and drops the last one where there are too many then.
fn keep(entries: &mut Vec<Entry>, entry: Entry, capacity: usize)
    requires { vec_len entries.old < vec_capacity entries.old }
    ensures { entries.new.items ≡ after capacity entries.old.items (kept entry) }
{
    let _replaced = take_entry(entries, entry.key());
    put_in_front(entries, entry);
    entries.truncate(capacity);
}

// The item with the largest total of an entry, out of a menu of so many.
fn best_of(entry: &Entry, menu: u16) -> u16
    requires { menu ≡ menu_size entry.now.about entry.now.ask.view }
    ensures { result ≡ best_item entry.now }
{
    tallies_are_bounded();
    first_largest(&entry.tally().totals) as u16
}

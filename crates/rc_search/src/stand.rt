//! Machines that stand at one decision for one item after another.
ghost use Rattle.std.specs.Prelude.{◌≡◌, ◌<◌, false, None, IsSome, IfSome, IfOk, OnOk};
ghost use Rattle.rc_play_spec.specs.Shape.{Shape};
ghost use Rattle.rc_play_spec.specs.Step.{Config};
ghost use Rattle.rc_flat.specs.Moments.{IsMoment, StaysInMatch};
ghost use Rattle.rc_search.specs.Keeping.{AreOfShape, IsKept};

use crate::rooms::Rooms;
use rc_deck::Memory;
use rc_flat::{FlatMachine, Moment};

/// Keeps the moment at which a machine stands, if it comes back there: where there is more than one item.
pub(crate) fn keep_for(
    size: u16,
    machine: &FlatMachine,
    rooms: &mut Rooms,
) -> Result<Option<Box<Moment>>, Memory>
    requires fresh { machine.now.spent ≡ false }
    requires rooms { AreOfShape machine.now.about.shape rooms.old }
    ensures kept { IfOk result (λ kept. 1 < size → IsKept machine.now.about machine.now.code machine.now.config kept) }
    ensures shape { IfOk result (λ kept. IfSome kept (λ room. room.value.table.shape ≡ machine.now.about.shape)) }
    ensures rooms { OnOk result (AreOfShape machine.now.about.shape rooms.new) }
{
    if size < 2 {
        return Ok(None);
    }
    let room = rooms.take(machine)?;
    Ok(Some(room))
}

/// Takes the room of a moment back, if one was kept.
pub(crate) fn give_back(kept: Option<Box<Moment>>, rooms: &mut Rooms)
    ensures { (shape : Shape) → AreOfShape shape rooms.old → IfSome kept (λ room. room.value.table.shape ≡ shape) →
        AreOfShape shape rooms.new }
{
    match kept {
        Some(room) => rooms.give_back(room),
        None => {}
    }
}

/// Lets a machine stand where it stood at the first item, for another one. At the first one it stands there.
pub(crate) fn stand_for(item: u16, kept: &Option<Box<Moment>>, machine: &mut FlatMachine)
    requires home { IsSome machine.old.home }
    requires there { (config : Config) × (0 < item → IsKept machine.old.about machine.old.code config kept.now)
        × (item ≡ 0 → machine.old.config ≡ config) }
    requires fresh { item ≡ 0 → machine.old.spent ≡ false }
    ensures at { (config : Config) → (0 < item → IsKept machine.old.about machine.old.code config kept.now) →
        (item ≡ 0 → machine.old.config ≡ config) → machine.new.config ≡ config }
    ensures fresh { machine.new.spent ≡ false }
    ensures stays { StaysInMatch machine.old machine.new }
{
    if item > 0 {
        go_back(kept, machine);
    }
}

/// The same at a moment that is kept in any case.
pub(crate) fn stand_at(item: u16, moment: &Moment, machine: &mut FlatMachine)
    requires home { IsSome machine.old.home }
    requires there { (config : Config) × IsMoment machine.old.about machine.old.code config moment.now
        × (item ≡ 0 → machine.old.config ≡ config) }
    requires fresh { item ≡ 0 → machine.old.spent ≡ false }
    ensures at { (config : Config) → IsMoment machine.old.about machine.old.code config moment.now →
        (item ≡ 0 → machine.old.config ≡ config) → machine.new.config ≡ config }
    ensures fresh { machine.new.spent ≡ false }
    ensures stays { StaysInMatch machine.old machine.new }
{
    if item > 0 {
        machine.go_to(moment);
    }
}

// Lets a machine stand at the moment that is kept.
fn go_back(kept: &Option<Box<Moment>>, machine: &mut FlatMachine)
    requires home { IsSome machine.old.home }
    requires there { (config : Config) × IsKept machine.old.about machine.old.code config kept.now }
    ensures at { (config : Config) → IsKept machine.old.about machine.old.code config kept.now
        → machine.new.config ≡ config }
    ensures fresh { machine.new.spent ≡ false }
    ensures stays { StaysInMatch machine.old machine.new }
{
    match kept {
        Some(room) => machine.go_to(room),
        None => unreachable!(),
    }
}

//! Room for moments, which is used again.
ghost use Rattle.std.specs.Prelude.{◌≡◌, false, IfOk, OnOk};
ghost use Rattle.rc_play_spec.specs.Shape.{Shape};
ghost use Rattle.rc_flat.specs.Moments.{IsMoment};
ghost use Rattle.rc_search.specs.Keeping.{AreOfShape};

use rc_deck::Memory;
use rc_flat::{FlatMachine, Moment};
use std::alloc::Global;

/// Room for moments of the matches of one about. A moment is large, so each stays where it is.
#[derive(Drop)]
pub(crate) struct Rooms {
    alloc: Global,
    free: Vec<Box<Moment>>,
}

impl Rooms {
    /// No room yet.
    pub(crate) fn new(alloc: Global) -> Rooms
        ensures { (shape : Shape) → AreOfShape shape result }
    {
        Rooms {
            alloc,
            free: Vec::new(alloc),
        }
    }

    /// The moment at which a machine stands, in room that is free, or in new room where none is.
    pub(crate) fn take(&mut self, machine: &FlatMachine) -> Result<Box<Moment>, Memory>
        requires fresh { machine.now.spent ≡ false }
        requires shape { AreOfShape machine.now.about.shape self.old }
        ensures moment { IfOk result
            (λ room. IsMoment machine.now.about machine.now.code machine.now.config room.value) }
        ensures shape { OnOk result (AreOfShape machine.now.about.shape self.new) }
    {
        let Some(mut room) = self.free.pop() else {
            let moment = machine.moment(self.alloc)?;
            return Ok(Box::new(self.alloc, moment)?);
        };
        machine.keep(&mut room);
        Ok(room)
    }

    /// Takes the room of a moment back. Where there is no room to note it, it is let go.
    pub(crate) fn give_back(&mut self, room: Box<Moment>)
        ensures { (shape : Shape) → AreOfShape shape self.old → room.value.table.shape ≡ shape
            → AreOfShape shape self.new }
    {
        match self.free.push(room) {
            Ok(()) => {}
            Err(_) => {}
        }
    }
}

//! Where a match stands beside its table.
ghost use Rattle.std.specs.Prelude.{◌≡◌};
ghost use Rattle.rc_rules.specs.Control.{control_seen};

use arrayvec::ArrayVec;

/// An open stage: its number, its current member, whether it goes backward, and the member named to come next.
#[derive(Clone, Copy, Debug, Default, PartialEq, Eq)]
pub struct Frame {
    pub stage: u16,
    pub member: u8,
    pub back: bool,
    pub named: Option<u8>,
}

/// The open stages from outside to inside.
pub type Frames = ArrayVec<Frame, 64>;

/// The choice site, the open stages, the turn count, and each seat's count of decisions.
#[derive(Debug, Drop)]
pub struct Control {
    pub site: Option<u8>,
    pub frames: Frames,
    pub turn: u32,
    pub made: ArrayVec<u32, 8>,
}

/// Where a match stops: at a decision of a seat at a choice site, at its end, or at the turn limit.
#[derive(Clone, Copy, PartialEq, Eq, Debug)]
pub enum Stop {
    Decide { seat: u8, site: u8 },
    Done,
    Limit,
}

impl Control {
    /// The same control once more.
    pub fn copy(&self) -> Control
        ensures { control_seen result ≡ control_seen self.now }
    {
        Control {
            site: self.site,
            frames: copy_list(&self.frames),
            turn: self.turn,
            made: copy_list(&self.made),
        }
    }
}

fn copy_list<T: Copy + Default + Drop, const CAP: usize>(
    list: &ArrayVec<T, CAP>,
) -> ArrayVec<T, CAP>
    ensures { result.items ≡ list.now.items }
{
    let mut copy = ArrayVec::new();
    let _fits = copy.try_extend_from_slice(list.as_slice());
    copy
}

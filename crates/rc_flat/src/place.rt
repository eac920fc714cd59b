//! The program counter: which instruction is next.
ghost use Rattle.std.specs.Prelude.{◌≡◌, ◌<◌, [], false, length};
ghost use Rattle.rc_flat.specs.Places.{went_to, at_round_of, opened_at, but_last, closed_to, Innermost};

use arrayvec::ArrayVec;
use std::marker::Model;

/// Places of stages that stand in one another, from outside to inside.
pub type Outer = ArrayVec<usize, 64>;

/// The places of the stages whose bodies run, from outside to inside, the instruction that is next, and whether the
/// innermost of those stages is at a round instead.
#[derive(Debug, Drop)]
pub struct ProgramCounter {
    outer: Outer,
    next: usize,
    at_round: bool,
}

impl Model for ProgramCounter {
    ghost use Rattle.std.specs.Coded.{codes};
    ghost use Rattle.rc_play_spec.specs.Path.{Path};

    ghost Value = { Path };

    ghost coded = { Prim.hlevel codes };

    ghost view = { λ p. record { outer = p.outer.items; next = p.next; at_round = p.at_round } };
}

impl ProgramCounter {
    /// This instruction, within the stages at these places.
    pub fn to(outer: Outer, next: usize) -> ProgramCounter
        ensures { result ≡ record { outer = outer.items; next = next; at_round = false } }
    {
        ProgramCounter {
            outer,
            next,
            at_round: false,
        }
    }

    /// The first instruction.
    pub fn start() -> ProgramCounter
        ensures { result ≡ record { outer = []; next = 0; at_round = false } }
    {
        ProgramCounter::to(ArrayVec::new(), 0)
    }

    /// The same place once more.
    pub fn copy(&self) -> ProgramCounter
        ensures { result ≡ self.now }
    {
        let mut outer = ArrayVec::new();
        let _fits = outer.try_extend_from_slice(self.outer.as_slice());
        ProgramCounter {
            outer,
            next: self.next,
            at_round: self.at_round,
        }
    }

    /// Stands at another place.
    pub fn set_to(&mut self, other: &ProgramCounter)
        ensures { self.new ≡ other.now }
    {
        write_list(&other.outer, &mut self.outer);
        self.next = other.next;
        self.at_round = other.at_round;
    }

    /// The instruction that is next.
    pub fn next(&self) -> usize
        ensures { result ≡ self.now.next }
    {
        self.next
    }

    /// Whether the innermost stage is at a round.
    pub fn at_round(&self) -> bool
        ensures { result ≡ self.now.at_round }
    {
        self.at_round
    }

    /// The place of the innermost stage whose body runs.
    pub fn innermost(&self) -> Option<usize>
        ensures { Innermost self.now result }
    {
        self.outer.as_slice().last().copied()
    }

    /// Goes on at an instruction.
    pub fn go_to(&mut self, next: usize)
        ensures { self.new ≡ went_to next self.old }
    {
        self.next = next;
        self.at_round = false;
    }

    /// Opens the stage that is next, which is then at a round.
    pub fn open(&mut self)
        requires { length self.old.outer < 64 }
        ensures { self.new ≡ opened_at self.old }
    {
        self.outer.push(self.next);
        self.at_round = true;
    }

    /// Goes back to a round of the innermost stage.
    pub fn to_round(&mut self)
        ensures { self.new ≡ at_round_of self.old }
    {
        self.at_round = true;
    }

    /// Leaves the innermost stage, and goes on at an instruction.
    pub fn close(&mut self, next: usize)
        ensures { self.new ≡ closed_to next self.old }
    {
        drop_last(&mut self.outer);
        self.next = next;
        self.at_round = false;
    }
}

// Takes the innermost place away, if there is one.
fn drop_last(outer: &mut Outer)
    ensures { outer.new.items ≡ but_last outer.old.items }
{
    match outer.pop() {
        Some(_) => {}
        None => {}
    }
}

/// Writes a list over another one.
pub fn write_list<T: Copy + Default + Drop, const CAP: usize>(
    from: &ArrayVec<T, CAP>,
    to: &mut ArrayVec<T, CAP>,
)
    ensures { to.new.items ≡ from.now.items }
{
    // where as many stand there already, none is taken away first
    if to.len() == from.len() {
        to.as_mut_slice().copy_from_slice(from.as_slice());
        return;
    }
    to.clear();
    let _fits = to.try_extend_from_slice(from.as_slice());
}

//! The place of a choice site in the code.
ghost use Rattle.std.specs.Prelude.{◌≡◌, ◌≤◌, Some, length, slice_get};
ghost use Rattle.rc_code.specs.Instruction.{SitePlace as PurePlace};
ghost use Rattle.rc_code.specs.Seen.{code_seen, place_seen};
ghost use Rattle.rc_code.specs.Implements.{path_to};

use crate::place::ProgramCounter;
use arrayvec::ArrayVec;
use rc_code::{Code, SitePlace};

/// The place of the choice with this site.
pub fn place_of(code: &Code, site: u8) -> ProgramCounter
    requires { (at : PurePlace) × (slice_get (code_seen code.now).sites site ≡ Some at) × (length at.outer ≤ 63) }
    ensures { (at : PurePlace) × (slice_get (code_seen code.now).sites site ≡ Some at) × (result ≡ path_to at) }
{
    match code.sites.get(site as usize) {
        Some(at) => place_to(at),
        None => unreachable!(),
    }
}

fn place_to(at: &SitePlace) -> ProgramCounter
    requires { length at.now.outer.items ≤ 63 }
    ensures { result ≡ path_to (place_seen at.now) }
{
    let mut outer = ArrayVec::new();
    let _fits = outer.try_extend_from_slice(at.outer.as_slice());
    ProgramCounter::to(outer, at.place)
}

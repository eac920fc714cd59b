//! What a match waits for, and how that changes.
ghost use Rattle.std.specs.Prelude.{◌≡◌, Some};
ghost use Rattle.rc_redraw.specs.Asking.{Key};
ghost use Rattle.rc_redraw.specs.Need.{Need};
ghost use Rattle.rc_match.specs.Lane.{phase_seen, ready, asks, missed, holds};

use rc_match::Phase;
use rc_redraw::Entry;
use std::mem::replace;

/// Makes an item ready.
pub(crate) fn make_ready(phase: &mut Phase, item: u16)
    ensures { phase_seen phase.new ≡ ready (Some item) }
{
    put(phase, Phase::Ready(Some(item)));
}

/// Has a match that asks miss the totals.
pub(crate) fn miss(phase: &mut Phase)
    ensures { (need : Need) → phase_seen phase.old ≡ asks need → phase_seen phase.new ≡ missed need }
{
    match replace(phase, Phase::Spent) {
        Phase::Asks(need) => put(phase, Phase::Missed(need)),
        other => put(phase, other),
    }
}

/// Has a match that missed totals hold them.
pub(crate) fn hold(phase: &mut Phase, entry: Entry)
    ensures { (need : Need) → phase_seen phase.old ≡ missed need → phase_seen phase.new ≡ holds need entry }
{
    match replace(phase, Phase::Spent) {
        Phase::Missed(need) => put(phase, Phase::Holds(need, entry)),
        other => put(phase, other),
    }
}

/// Takes the entry that a match holds, and makes an item ready.
pub(crate) fn release(phase: &mut Phase, item: u16) -> Option<Entry>
    ensures ready { phase_seen phase.new ≡ ready (Some item) }
    ensures entry { (need : Need) (key : Key) → phase_seen phase.old ≡ holds need key → result ≡ Some key }
{
    match replace(phase, Phase::Ready(Some(item))) {
        Phase::Holds(_, entry) => Some(entry),
        _ => None,
    }
}

// Puts a phase in the place of another.
fn put(phase: &mut Phase, next: Phase)
    ensures { phase.new ≡ next }
{
    *phase = next;
}

//! Logs as values, and what of a match they tell.
ghost use Rattle.std.specs.Prelude.{◌≡◌, take};
ghost use Rattle.rc_log_spec.specs.Log.{most_told};

use rc_view::View;

/// How many stops a log tells one by one.
const MOST_TOLD: usize = 1000;

/// A log: the seat, the number of the match, the first views, and how many there are.
#[derive(Debug, Drop)]
pub struct LogText {
    pub seat: u8,
    pub number: u32,
    pub views: Vec<View>,
    pub stops: u32,
}

/// Those that a log tells of what there is of each stop.
pub(crate) fn first_told<T>(each: &[T]) -> &[T]
    ensures { result.now ≡ take most_told each.now }
{
    if each.len() <= MOST_TOLD {
        each
    } else {
        &each[..MOST_TOLD]
    }
}

//! What faces are worth.
ghost use Rattle.std.specs.Prelude.{◌≡◌, ◌==◌, ◌&&◌, All};
ghost use Rattle.rc_base.specs.Deck.{points_of, fits_entry};
ghost use Rattle.rc_base.specs.Clamp.{IsWithinClamp};
ghost use Rattle.rc_deck.specs.Points.{entries_of, entry_of, points_added};

use crate::Face;
use rc_base::limits::LARGEST_NUMBER;

/// What faces are worth.
#[derive(Debug, Drop)]
pub struct PointMap {
    pub entries: Vec<PointEntry>,
}

/// Faces that have the attribute with one of the values are worth so many points.
#[derive(Debug, Drop)]
pub struct PointEntry {
    pub attr: u16,
    pub values: Vec<u16>,
    pub points: i64,
}

/// What a face is worth: the sum of the points of all entries that it fits, then clamped to -1,000,000,000 ..
/// 1,000,000,000.
///
/// The points of each entry are in that range.
pub fn points(map: &PointMap, face: &Face) -> i64
    requires clamped { All (λ entry. IsWithinClamp entry.points) (entries_of map.now) }
    ensures { result ≡ points_of (entries_of map.now) face.now }
{
    // what a list keeps
    let _count = map.entries.len();
    let mut sum = 0i128;
    for entry in &map.entries {
        sum += i128::from(points_of_entry(entry, face));
    }
    sum.clamp(-i128::from(LARGEST_NUMBER), i128::from(LARGEST_NUMBER)) as i64
}

// What an entry adds to the sum.
fn points_of_entry(entry: &PointEntry, face: &Face) -> i64
    ensures { result ≡ points_added face.now (entry_of entry.now) }
{
    if fits(entry, face) { entry.points } else { 0 }
}

fn fits(entry: &PointEntry, face: &Face) -> bool
    ensures { result ≡ fits_entry (entry_of entry.now) face.now }
{
    face.pairs().iter().any(|pair| pair.0 == entry.attr && entry.values.contains(&pair.1))
}

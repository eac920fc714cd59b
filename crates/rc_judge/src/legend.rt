//! How long a legend is.
ghost use Rattle.std.specs.Prelude.{◌≡◌, ◌≤◌, length};
ghost use Rattle.rc_play_spec.specs.Naming.{face_numbers};

use rc_table::{Shape, face_number};

/// How many faces a shape has, and so lines a legend.
pub(crate) fn face_count(shape: &Shape) -> u32
    ensures count { result ≡ length (face_numbers shape.now) }
    ensures few { result ≤ 65535 }
{
    let mut count = 0;
    for id in 0..shape.cards() {
        if face_number(shape, id) == id {
            count += 1;
        }
    }
    count
}

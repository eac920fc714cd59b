//! What the draws of a seat are for.
ghost use Rattle.std.specs.Prelude.{◌≡◌};
ghost use Rattle.rc_play_spec.specs.Draws.{drawn_for};
ghost use Rattle.rc_draw.specs.Purposes.{purpose_number};

// How many numbers each seat has for what it draws for.
const PURPOSES: u64 = 1 << 8;

/// What a seat draws for. The draws for each have keys of their own.
#[derive(Clone, Copy, PartialEq, Eq, Debug)]
pub enum Purpose {
    /// Its picks by chance.
    Pick,
    /// The deals that are drawn anew for what it sees.
    Redraw,
    /// The picks of all seats in its playouts.
    PlayoutPick,
    /// The shuffles in its playouts.
    PlayoutShuffle,
    /// The deals that are drawn anew for its searches.
    SearchRedraw,
    /// The shuffles in its searches.
    SearchShuffle,
}

impl Purpose {
    /// The second number of the keys of what this seat draws for this.
    pub fn of(self, seat: u8) -> u64
        ensures { result ≡ drawn_for seat (purpose_number self) }
    {
        let number = match self {
            Purpose::Pick => 2,
            Purpose::Redraw => 3,
            Purpose::PlayoutPick => 4,
            Purpose::PlayoutShuffle => 5,
            Purpose::SearchRedraw => 6,
            Purpose::SearchShuffle => 7,
        };
        PURPOSES * seat as u64 + number
    }
}

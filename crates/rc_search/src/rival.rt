//! What is searched, and how.
use rc_code::Code;
use rc_rules::About;
use rc_view::View;
use std::sync::Arc;

/// In whose place of a plan's strategies a search plays, 0 to 7, how many decisions deep it looks, 1 to 4, over how
/// many rounds, 1 to 100, and by which key, of at most 18 digits.
#[derive(Clone, Copy, PartialEq, Eq, Debug)]
pub struct Rival {
    pub strategy: u8,
    pub depth: u8,
    pub rounds: u16,
    pub key: u64,
}

/// A decision that is searched: what the match is played by, the code of its sheet, the seed of the seats, and what the
/// mover sees.
pub struct Seen {
    pub about: Arc<About>,
    pub code: Arc<Code>,
    pub seed: u64,
    pub view: View,
}

// A derived drop is proved again in each crate that may drop it, and this one once.
impl Drop for Seen {
    fn drop(self) {
        let Seen {
            about: _about,
            code: _code,
            seed: _,
            view: _view,
        } = self;
    }
}

/// What a search found: what each item of the menu is worth to the seat over all rounds, and how many items it tried,
/// 2^64 - 1 where these were more.
#[derive(Debug, Drop)]
pub struct Found {
    pub totals: Vec<u32>,
    pub applied: u64,
}

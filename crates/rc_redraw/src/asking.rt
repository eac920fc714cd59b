//! What is asked of playouts.
use rc_rules::About;
use rc_view::View;
use std::sync::Arc;

/// What a rollout is asked: the totals of so many rounds, 1 to 1,000, by a strategy's key and the seed of the seats,
/// each of at most 18 digits, for what the mover sees at a decision.
#[derive(Debug)]
pub struct Ask {
    pub rounds: u16,
    pub key: u64,
    pub seed: u64,
    pub view: View,
}

// A derived drop is proved again in each crate that may drop a key, and this one once.
impl Drop for Ask {
    fn drop(self) {
        let Ask {
            rounds: _,
            key: _,
            seed: _,
            view: _view,
        } = self;
    }
}

/// An ask in matches of an about. Its totals are a function of it.
pub struct Key {
    pub about: Arc<About>,
    pub ask: Arc<Ask>,
}

// A derived drop is proved again in each crate that may drop a key, and this one once.
impl Drop for Key {
    fn drop(self) {
        let Key {
            about: _about,
            ask: _ask,
        } = self;
    }
}
